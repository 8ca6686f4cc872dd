//! Whether the leaves of a label's assertion exist where its block begins.
#![tactic(auto)]

mod given;
mod scopes;

pub use given::label_given;
