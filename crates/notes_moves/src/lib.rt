//! Chunks, assertions, names of lemmas and moves, each read from a part of a text as the grammar of notes says.
#![tactic(auto)]

mod assertions;
mod chunks;
mod heap_moves;
mod kinds;
mod moves;
mod names;

pub use assertions::{Assertions, Withs, read_assertion, read_with, read_with_list};
pub use chunks::{Chunks, read_chunk};
pub use kinds::{Places, joined};
pub use moves::{Moves, read_headed_move, read_move};
pub use names::{KnownNames, NewNames, read_known_name, read_new_name};
