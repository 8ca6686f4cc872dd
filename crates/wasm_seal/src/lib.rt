//! A module and its notes in one file.
#![tactic(auto)]

mod laws;
mod seal;
mod splitting;

pub use laws::{one_split, sealed_files, sealed_length, split_or_none};
pub use seal::{MAX_MODULE, MAX_NOTES, seal_bytes};
pub use splitting::split;
