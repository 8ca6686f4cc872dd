//! Instances of modules: what an instantiation allocates, its segments, and its start function (section 4.5.4).
#![tactic(auto)]

mod constants;
mod faults;
mod instances;
mod instantiation;
mod limits;
mod matching;
mod numbering;
mod parts;
mod preparing;
mod segments;
mod storing;
mod writes;

pub use faults::InstFault;
pub use instantiation::instantiate;
pub use limits::entries_in;
