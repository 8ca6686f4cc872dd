// Labels of open blocks, and control that goes to one.

ghost use Rattle.std.specs.Prelude.{◌≡◌, ◌<◌, length, IfOk, IfSome, IsTrue};
ghost use Rattle.std.specs.Option.{option_map};
ghost use Rattle.wasm_values.specs.Answers.{Gives};
ghost use Rattle.term_logic.specs.Table.{tree_at};
ghost use Rattle.notes.specs.WellFormed.{well_formed_with};
ghost use Rattle.outline_rules.specs.Branches.{passed, reaches};
ghost use Rattle.symbolic_state.specs.Refused.{refusal_of};
ghost use Rattle.symbolic_state.specs.Growth.{Grown};
ghost use Rattle.symbolic_branches.specs.Labels.{label_of_entry};

use crate::entailing::entails_with;
use notes::{Assertion, With};
use std::alloc::Global;
use symbolic_state::{Refused, TrackedState};
use term_logic::TermId;
use wasm_values::{OutOfMemory, ValType};

/// The label of an open block: the type that a branch to it takes, and its assertion, lent by the notes.
#[derive(Clone, Copy)]
pub struct Label<'a> {
    pub takes: Option<ValType>,
    pub assertion: &'a Assertion,
}

/// The term of the result that is passed on, where there is one: the top operand.
pub(crate) fn passed(
    state: &mut TrackedState,
    takes: Option<ValType>,
) -> Result<Option<TermId>, OutOfMemory>
    ensures term { IfOk result (λ t. option_map (tree_at state.new.terms) t ≡ passed takes state.old.state) }
    ensures within { IfOk result (λ t. IfSome t (λ id. id < length state.new.terms)) }
    ensures state { IfOk result (λ _. state.new.state ≡ state.old.state) }
    ensures kept { IfOk result (λ _. Grown state.old state.new) }
{
    match takes {
        Some(_) => {
            let (_, id) = state.entry(0)?;
            Ok(Some(id))
        }
        None => Ok(None),
    }
}

/// Control goes to a label: the state entails its assertion.
#[tactic(auto, using(symbolic_state::proofs::Grows::grown, symbolic_state::proofs::Grows::grown_ids))]
pub fn reaches(
    alloc: Global,
    state: &mut TrackedState,
    label: &Label<'_>,
    with: &With,
) -> Result<(), Refused>
    requires { IsTrue (well_formed_with with.now) }
    ensures done { Gives refusal_of (λ _. tt) result (reaches (label_of_entry label.now) with.now state.old.state) }
    ensures state { IfOk result (λ _. state.new.state ≡ state.old.state) }
    ensures kept { IfOk result (λ _. Grown state.old state.new) }
{
    let passed_on = passed(state, label.takes)?;
    entails_with(alloc, state, label.assertion, &[], passed_on, &[], with)
}
