//! The state after a block, and at the start of a loop's body, from the state at its entry.
#![tactic(auto)]

mod locals;
mod resuming;

pub use resuming::resume;
