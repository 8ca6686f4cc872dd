//! The text of notes: read into notes, or refused with the first fault, and printed.
#![tactic(auto)]

mod functions;
mod laws;
mod lemmas;
mod reading;
mod uses;

pub use laws::printed_is_read;
pub use notes_grammar::{notes_or_fault, one_value};
pub use notes_print::print_notes;
pub use reading::read_notes;
