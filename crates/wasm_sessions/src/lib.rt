//! Sessions: runs of any modules together, with hosts and an embedder, as relations between configurations, and laws on them.
#![tactic(auto)]

pub mod laws;
