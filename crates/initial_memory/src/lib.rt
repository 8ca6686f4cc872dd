//! The first bytes of a memory, and whether the chunks that notes begin with are there.
#![tactic(auto)]

mod bytes;
mod chunks;
mod ends;
mod rows;

pub use chunks::are_chunks_right;
