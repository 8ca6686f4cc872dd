// When a state entails an assertion.

ghost use Rattle.std.specs.Prelude.{◌≡◌, ◌<◌, length, map, IfOk, IsTrue};
ghost use Rattle.std.specs.List.{All};
ghost use Rattle.wasm_values.specs.Answers.{Gives};
ghost use Rattle.term_logic.specs.Table.{tree_at};
ghost use Rattle.notes.specs.WellFormed.{well_formed_with};
ghost use Rattle.outline_rules.specs.Entailment.{entailed, chunks_besides};
ghost use Rattle.symbolic_state.specs.Refused.{refusal_of};
ghost use Rattle.symbolic_state.specs.Growth.{Grown};
ghost use Rattle.symbolic_assertions.specs.Wanting.{wanted_of, WantedWithin, entails};

use crate::stages::{parts_of, terms_wanted};
use crate::wanting::Wanted;
use notes::With;
use std::alloc::Global;
use symbolic_state::{Refused, TrackedState};
use term_logic::TermId;
use wasm_values::List;

/// The terms of a `with` by which the state entails what is wanted. The chunks that it doesn't use are left.
#[tactic(auto, using(crate::proofs::InStages::entailing))]
pub fn entail(
    alloc: Global,
    state: &mut TrackedState,
    wanted: &Wanted<'_>,
    with: &With,
) -> Result<List<TermId>, Refused>
    requires with { IsTrue (well_formed_with with.now) }
    requires within { WantedWithin (length state.old.terms) wanted.now }
    ensures done { Gives refusal_of (λ ids. record { terms = map (tree_at state.new.terms) ids; left = chunks_besides with.now.chunks 0 state.old.state.chunks }) result (entailed state.old.state (wanted_of state.old.terms wanted.now) with.now) }
    ensures within { IfOk result (λ ids. All (λ id. id < length state.new.terms) ids) }
    ensures state { IfOk result (λ _. state.new.state ≡ state.old.state) }
    ensures kept { IfOk result (λ _. Grown state.old state.new) }
{
    let terms = terms_wanted(state, wanted.assertion, with)?;
    parts_of(alloc, state, wanted, with, terms.as_slice())?;
    Ok(terms)
}

/// The state has to entail what is wanted.
pub fn entails(
    alloc: Global,
    state: &mut TrackedState,
    wanted: &Wanted<'_>,
    with: &With,
) -> Result<(), Refused>
    requires with { IsTrue (well_formed_with with.now) }
    requires within { WantedWithin (length state.old.terms) wanted.now }
    ensures done { Gives refusal_of (λ _. tt) result (entails state.old.state (wanted_of state.old.terms wanted.now) with.now) }
    ensures state { IfOk result (λ _. state.new.state ≡ state.old.state) }
    ensures kept { IfOk result (λ _. Grown state.old state.new) }
{
    match entail(alloc, state, wanted, with) {
        Ok(_) => Ok(()),
        Err(refused) => Err(refused),
    }
}
