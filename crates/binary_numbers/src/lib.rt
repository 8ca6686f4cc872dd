//! Reads the numbers of the binary format (Core Specification, section 5.2.2).
#![tactic(auto)]

mod leb;

pub use binary_grammar::LebFault;
pub use leb::{read_s32, read_s64, read_u32, take_s32, take_s64, take_u32};
