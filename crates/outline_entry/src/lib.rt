//! The symbolic state at a function's entry, and the initial state of an instance.
#![tactic(auto)]

mod entering;
mod globals;
mod locals;
mod precondition;

pub use entering::{entry_state, initial_state};
