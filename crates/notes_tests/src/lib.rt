//! What notes must meet before any code is walked: their numbers, the leaves of the invariant and of contracts, and lemmas.
#![tactic(auto)]

mod contracts;
mod leaves;
mod lemmas;
mod numbers;
mod places;
mod reasons;

pub use contracts::{contract_tested, invariant_tested};
pub use lemmas::{lemma_tested, lemmas_tested};
pub use numbers::are_notes_right;
