//! Reads modules in the binary format.
#![tactic(auto)]

mod code;
mod decoder;
mod entries;
mod instrs;
mod read;
mod sections;
mod types;

pub use binary_grammar::{DecodeFault, DecodeWord, Decoded, LebFault};
pub use binary_numbers::{read_s32, read_s64, read_u32};
pub use decoder::decode;
