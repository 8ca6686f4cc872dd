//! What a symbolic state knows again after control was elsewhere.
#![tactic(auto)]

mod assuming;
mod renewing;

pub use assuming::{assume, assume_chunks};
pub use renewing::{Renewing, renew};
