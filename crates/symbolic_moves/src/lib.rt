//! What moves do to a symbolic state.
#![tactic(auto)]

mod all;
mod derivations;
mod facts;
mod hole;
mod lemmas;
mod rows;
mod slots;
mod steps;

pub use all::{make_move, make_moves};
pub use derivations::have;
pub use lemmas::lemma;
pub use rows::each;
pub use slots::{let_term, name, put};
