//! Branches on a symbolic state: control goes to a label, or leaves the function.
#![tactic(auto)]

mod branching;
mod entailing;
mod facts;
mod instructions;
mod labels;
mod leaving;
mod tables;
mod taking;

pub use branching::branches;
pub use instructions::{br, br_if, return_};
pub use labels::{Label, reaches};
pub use leaving::leaves_function;
pub use tables::br_table;
pub use taking::takes_branch;
