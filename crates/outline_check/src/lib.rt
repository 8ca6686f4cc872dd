//! The outline check: whether notes are an accepted proof outline of a module.
#![tactic(auto)]

mod answer;
mod check;
mod derivation;
mod effect;
mod laws;
mod moves;
mod notes;
mod place;
mod state;
mod stop;
mod walk;

pub use answer::{Answer, CheckFault, Reason};
pub use check::check_module;
pub use laws::{derivations_are_exact, derivations_are_sound, outlines_keep_the_invariant};
pub use notes::{
    Assertion, Formula, FuncNotes, Initial, Move, Note, Notes, Ref, Rule, Step, Use, With,
};
