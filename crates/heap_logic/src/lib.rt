//! Symbolic heaps over a table of terms, and what moves do to them.
#![tactic(auto)]

mod applying;
mod cells;
mod change;
mod commit;
mod counts;
mod facts;
mod fault;
mod heap;
mod lists;
mod moves;
mod placing;
mod ranges;
mod readings;
mod regions;
mod rows;
mod shifting;
mod taking;
mod terms;
mod wanted;
mod widths;

pub use applying::apply;
pub use fault::MoveFault;
pub use heap::{IdChunk, SymHeap};
pub use taking::{taken, taken_formula};
