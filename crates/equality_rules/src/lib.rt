//! The rules of equality and order: which conclusions they draw from which premises.
#![tactic(auto)]

mod equality;
pub mod laws;
mod linear;
mod multiples;
mod rewrite;
mod sums;

pub use equality::{is_eval, is_mulpos, is_notle, is_notlt, is_order, is_refl};
pub use linear::is_linear;
pub use multiples::{is_ceil, is_floor};
pub use rewrite::is_rewrite;
