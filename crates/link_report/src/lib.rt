//! The report of `link`: what is said of a script, of the modules that it loads, and of how it goes.
#![tactic(auto)]

mod laws;
mod linking;
mod said;

pub use laws::{every_link_has_a_report, link_is_good_exactly, one_link_report};
pub use linking::link;
