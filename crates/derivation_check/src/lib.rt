//! Whether steps derive a goal from hypotheses.
#![tactic(auto)]

mod check;
pub mod laws;

pub use check::{Checked, check_derivation};
