//! The parts of a text of notes: numbers, words, places, and lists of parts that are read alike, each as the grammar of notes
//! says.
#![tactic(auto)]

mod context;
mod leaves;
mod lists;
mod part;
mod words;

pub use context::Context;
pub use leaves::{Headed, headed_list, leaf, numbered, place_at, place_in};
pub use lists::{is_tagged, tagged, width_field};
pub use part::{Seen, ended, form, inside, look, next, place, small, whole, word};
pub use words::{head_named, op_named, rule_named};
