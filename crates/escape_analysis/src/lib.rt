//! What of a module others can reach: its globals, memory, table and functions.
#![tactic(auto)]

mod functions;
mod globals;
mod reach;
mod stability;

pub use reach::{exposure, inner_ok};
pub use stability::{Exposure, Stability};
