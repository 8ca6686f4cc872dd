//! Scripts: which modules are loaded, and what is done with them. The value of a script's text is compared with the grammar of
//! scripts.
#![tactic(auto)]

mod laws;
mod names;
mod parts;
mod read;
mod script;

pub use laws::{one_script, script_or_fault};
pub use names::NameTable;
pub use read::read_script;
pub use script::{Action, Load, Origin, Script};
