//! The notes of one function, found by the numbers of its instructions.
#![tactic(auto)]

mod function;
mod noted;

pub use function::FunctionNotes;
