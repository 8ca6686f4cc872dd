//! The machine: one step of a typed configuration, and what it is under a policy.
#![tactic(auto)]

mod act;
mod calls;
mod control;
mod effect;
mod find;
mod frames;
pub mod laws;
mod machine;
mod memory;
mod moved;
mod operands;
mod policy;
mod reading;
mod values;

pub use frames::pass_down;
pub use machine::step;
pub use memory::{grow_memory, lets_grow};
pub use moved::{Moved, StepFault};
pub use policy::Policy;
