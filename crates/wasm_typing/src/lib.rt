//! Which modules are valid: the declarative typing, and the places and words of faults. Sections are those of the
//! WebAssembly Core Specification 1.0. The definitions stand in specs/; the code has only the words of faults.
#![tactic(auto)]

mod fault;

pub use fault::{ValidFault, ValidWord};
