//! That the strings of a listing are those of texts: a law over the definitions of the listing and of texts alone.
#![tactic(auto)]

mod laws;

pub use laws::listed_strings;
