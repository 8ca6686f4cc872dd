//! The binary format of modules: its grammar, and how it is read.
#![tactic(auto)]

mod fault;
mod laws;
mod section;

pub use fault::{DecodeFault, DecodeWord, LebFault};
pub use laws::{complete_readings, longest_reading, one_fault, one_module, readings};
pub use section::{Body, Decoded, Draft, Section};
