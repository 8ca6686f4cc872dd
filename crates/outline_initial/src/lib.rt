//! Whether the initial state of an instance meets the invariant, or the precondition of an inner start function.
#![tactic(auto)]

mod chunks;
mod initial;
mod starting;

pub use initial::initial_outlined;
