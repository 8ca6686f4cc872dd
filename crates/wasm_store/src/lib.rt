//! What instances share, and configurations: what runs, and what is left of it. Sections are those of the WebAssembly
//! Core Specification 1.0.
#![tactic(auto)]

mod config;
mod enter;
pub mod laws;
mod read;
mod store;

pub use config::{CodeFrame, Config, Frame, Label, Outcome};
pub use enter::{is_same_func_type, make_frame};
pub use store::{Extern, FuncInst, GlobalInst, Instance, MemInst, Store, TableInst};
