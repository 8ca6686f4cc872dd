//! The notes of a module as plain data: assertions, moves, uses, and how they stand at functions and instructions.
#![tactic(auto)]

mod assertion;
mod chunk;
mod heap_move;
mod moves;
mod outline;
mod reason;
mod uses;

pub use assertion::{Assertion, Contract};
pub use chunk::Chunk;
pub use heap_move::HeapMove;
pub use moves::Move;
pub use outline::{FuncNotes, Initial, Lemma, Note, Notes};
pub use reason::Reason;
pub use uses::{Take, Use, With};
