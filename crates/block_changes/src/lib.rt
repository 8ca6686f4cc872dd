//! What the code of a block may change: the locals and globals that it sets, whether it has a call, and whether it grows the
//! memory.
#![tactic(auto)]

mod changes;
mod effect;
mod part;

pub use changes::ChangeSet;
pub use part::changes_from;
