//! The listing of a module: one line for each entry and each instruction.
#![tactic(auto)]

mod entry;
mod instrs;
mod names;
mod sections;
mod text;

pub use sections::listing;
