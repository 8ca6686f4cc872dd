//! Notes printed as their one text.
#![tactic(auto)]

mod bytes;
mod chunks;
mod formulas;
mod kinds;
mod lists;
mod moves;
mod names;
mod outline;
mod steps;
mod terms;
mod uses;

pub use outline::print_notes;
