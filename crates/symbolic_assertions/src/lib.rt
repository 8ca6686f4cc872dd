//! When a symbolic state entails an assertion, and which chunks are left then.
#![tactic(auto)]

mod chunks;
mod entailing;
mod facts;
mod stages;
mod wanting;

pub use entailing::{entail, entails};
pub use wanting::Wanted;
