//! The rules of machine integers: whether a conclusion follows from premises by one of them.
#![tactic(auto)]

mod arithmetic;
mod claim;
mod comparison;
pub mod laws;
mod numbers;
mod read;
mod reading;
mod rule;
mod rules;
mod widening;

pub use rule::IntegerRule;
pub use rules::fits;
