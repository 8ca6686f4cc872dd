//! Runs scripts: modules are loaded, instances of them linked, and their functions called.
#![tactic(auto)]

mod actions;
mod blind;
mod fault;
pub mod laws;
mod loading;
mod log;
mod look;
mod run;
mod running;
mod steps;
#[cfg(test)]
mod tests;
mod text;

pub use fault::LinkFault;
pub use log::{Log, SeenLog};
pub use running::{run_script, run_script_seen};
pub use script_text::{Action, Load, Origin, Script, read_script};
