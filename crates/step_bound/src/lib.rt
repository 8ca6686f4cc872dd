//! Bounds on the steps that functions take. Sections are those of the WebAssembly Core Specification 1.0.
#![tactic(auto)]

mod bound;
mod follow;
pub mod laws;
mod table;
mod walk;

pub use bound::{Bound, MAX_STEPS, imported_funcs, step_bounds};
