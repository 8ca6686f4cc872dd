//! Writes modules in the binary format.
#![tactic(auto)]

mod code;
mod encoder;
mod entry;
mod fault;
mod instrs;
pub mod laws;
mod number;
mod sections;
mod types;

pub use encoder::{decoded_again, encode};
pub use fault::EncodeFault;
