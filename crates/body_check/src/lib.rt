//! Whether the bodies of a module's functions are typed: one walk forwards over each. Sections are those of the WebAssembly
//! Core Specification 1.0.
#![tactic(auto)]

mod body;
mod instrs;
mod names;
mod needs;
mod open;
mod operands;
mod scope;
mod walk;

pub use body::check_bodies;
pub use scope::{Scope, imported_memories, imported_tables, memory_count, scope_of, table_count};
