//! What the verifier takes so far: whether a valid module is of the form First, and the reader of notes for such modules.
#![tactic(auto)]

mod error;
mod first;
mod notes;
mod numeral;
mod part;
mod text;

pub use error::ReadError;
pub use first::is_first;
pub use notes::read_notes;
