//! Whether a module is valid. Sections are those of the WebAssembly Core Specification 1.0.
#![tactic(auto)]

mod check;
mod entries;
mod ranges;
mod rows;
mod sections;
mod valid;

pub use valid::{ValidModule, validate};
pub use wasm_typing::{ValidFault, ValidWord};
