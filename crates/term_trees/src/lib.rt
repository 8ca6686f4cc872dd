//! Terms and formulas over whole numbers, as trees: what they mean, when they are equal, and their linear forms.
#![tactic(auto)]

mod atoms;
mod boxed;
mod copy;
mod count;
mod evaluate;
pub mod forms;
mod laws;
pub mod linear;
mod normalize;
mod reduce;
mod same;
mod scope;
mod term;
mod term_view;

pub use atoms::Atoms;
pub use boxed::Boxed;
pub use count::{formula_nodes, nodes};
pub use evaluate::{ground, ground_at};
pub use laws::{
    agreeing_numbers_mean_the_same, ground_under_any_numbers, normal_form_has_the_value,
    replacing_keeps_values, sameness_is_equality,
};
pub use linear::{Linear, Way};
pub use normalize::normal;
pub use same::{same_parts, same_term};
pub use scope::{Bounds, Scoped, formula_in_scope, in_scope};
pub use term::{Formula, Place, Term};
