//! The grammar of notes, in versions 1 and 2: in specs/ the tree of the text of each construct and what reading such a tree
//! gives, and the laws that join the two.
#![tactic(auto)]

mod head;
mod laws;

pub use head::Head;
pub use laws::{notes_or_fault, one_value, printed_again, read_exactly, spelled_is_read};
