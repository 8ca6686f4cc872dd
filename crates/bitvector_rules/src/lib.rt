//! The rules of derivations, and whether a step is an instance of its rule.
#![tactic(auto)]

mod equality;
mod facts;
mod goals;
mod instance;
mod items;
pub mod laws;
mod logic;
mod machine;
mod step;
mod table;

pub use facts::Facts;
pub use goals::{SubGoal, sub_goals};
pub use instance::{ends_with, is_instance, says};
pub use step::{Ref, Rule, Step};
