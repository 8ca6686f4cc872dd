//! A module with its notes and its exposure, and what is read off the three at once.
#![tactic(auto)]

mod formulas;
mod judging;
mod noted;
mod privates;
mod setting;

pub use judging::{judged, same_contract};
pub use setting::Setting;
