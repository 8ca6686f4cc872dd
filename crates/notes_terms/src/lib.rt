//! Terms, formulas and derivations of notes, each read from a part of a text as the grammar of notes says.
#![tactic(auto)]

mod entry;
mod fields;
mod formulas;
mod kinds;
mod over;
mod size;
mod steps;
mod terms;

pub use entry::{Entry, Lists, entries, entry_field, entry_list};
pub use fields::{
    four_fields, three_fields, two_fields, whole_four, whole_one, whole_three, whole_two,
};
pub use formulas::read_formula;
pub use kinds::{Formulas, References, Rules, Smalls, Terms, Wholes};
pub use steps::read_steps;
pub use terms::read_term;
