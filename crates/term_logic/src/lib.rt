//! A table that keeps each term once, and formulas and linear forms over it.
#![tactic(auto)]

mod cell_parts;
mod compare;
mod formula;
mod formula_parts;
mod formula_view;
mod id_forms;
mod id_formula_parts;
mod id_formula_trees;
mod id_parts;
mod leaves;
mod parts;
mod put;
mod replace;
mod replace_ids;
mod scope;
mod table;
mod view;

pub use formula::IdFormula;
pub use leaves::LeafIds;
pub use scope::LeafScope;
pub use table::{TermCell, TermId, TermTable};
pub use term_trees::{
    Bounds, Boxed, Formula, Linear, Place, Scoped, Term, Way, agreeing_numbers_mean_the_same,
    forms as forms, formula_in_scope, formula_nodes, ground, ground_at, ground_under_any_numbers,
    in_scope, nodes, normal, normal_form_has_the_value, replacing_keeps_values,
    sameness_is_equality,
};
