//! That a module with its marks is valid or has one first fault, and that what bytes spell has its numbers in their ranges and
//! a place for each entry and instruction: laws over the definitions of validity and of the binary format alone. They take
//! what the decoder answers to the validator.
#![tactic(auto)]

mod laws;

pub use laws::{one_first_fault, spelled_marks, spelled_ranges, valid_or_faulty};
