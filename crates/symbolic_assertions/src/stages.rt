// What an entailment tests, stage by stage.

ghost use Rattle.std.specs.Prelude.{◌≡◌, ◌<◌, ◌++◌, length, map, IfOk, IsTrue};
ghost use Rattle.std.specs.List.{All};
ghost use Rattle.wasm_values.specs.Answers.{Gives};
ghost use Rattle.term_logic.specs.Table.{tree_at};
ghost use Rattle.term_logic.specs.Leaves.{LeavesWithin, leaves_of};
ghost use Rattle.notes.specs.WellFormed.{well_formed_with};
ghost use Rattle.outline_rules.specs.Entailment.{fits};
ghost use Rattle.symbolic_state.specs.Refused.{refusal_of};
ghost use Rattle.symbolic_state.specs.Growth.{Grown};
ghost use Rattle.symbolic_assertions.specs.Wanting.{wanted_of, WantedWithin};
ghost use Rattle.symbolic_assertions.specs.words.Stages.{terms_wanted, parts_wanted, parts_of};

use crate::chunks::are_chunks;
use crate::facts::are_facts;
use crate::wanting::Wanted;
use notes::{Assertion, Reason, With};
use std::alloc::Global;
use symbolic_state::{Refused, TrackedState};
use term_logic::{LeafIds, TermId};
use wasm_values::{List, OutOfMemory};

/// Whether a `with` has a term for each own variable, a fact for each formula and a chunk for each chunk.
fn fits(assertion: &Assertion, with: &With) -> bool
    ensures { result ≡ fits assertion.now with.now }
{
    with.terms.len() == assertion.own as usize
        && (with.facts.len() == assertion.formulas.len()
            && with.chunks.len() == assertion.chunks.len())
}

/// The terms of a `with`, whose lists have to be as long as the assertion's.
pub(crate) fn terms_wanted(
    state: &mut TrackedState,
    assertion: &Assertion,
    with: &With,
) -> Result<List<TermId>, Refused>
    requires { IsTrue (well_formed_with with.now) }
    ensures taken { Gives refusal_of (map (tree_at state.new.terms)) result (terms_wanted state.old.state assertion.now with.now) }
    ensures within { IfOk result (λ ids. All (λ id. id < length state.new.terms) ids) }
    ensures state { IfOk result (λ _. state.new.state ≡ state.old.state) }
    ensures kept { IfOk result (λ _. Grown state.old state.new) }
{
    if !fits(assertion, with) {
        return Err(Refused::Reason(Reason::Use));
    }
    state.all_taken(with.terms.as_slice())
}

/// The facts and the chunks have to be those of an assertion, once its leaves are replaced.
fn parts_wanted(
    state: &TrackedState,
    leaves: &LeafIds<'_>,
    assertion: &Assertion,
    with: &With,
) -> Result<(), Refused>
    requires { LeavesWithin (length state.now.terms) leaves.now }
    ensures { Gives refusal_of (λ _. tt) result (parts_wanted state.now.state (leaves_of state.now.terms leaves.now) assertion.now with.now) }
{
    if !are_facts(
        state,
        leaves,
        with.facts.as_slice(),
        assertion.formulas.as_slice(),
    ) {
        return Err(Refused::Reason(Reason::Fact));
    }
    if !are_chunks(
        state,
        leaves,
        with.chunks.as_slice(),
        assertion.chunks.as_slice(),
    ) {
        return Err(Refused::Reason(Reason::Chunk));
    }
    Ok(())
}

/// Positions, one list behind the other.
fn joined(alloc: Global, first: &[TermId], second: &[TermId]) -> Result<List<TermId>, OutOfMemory>
    ensures { IfOk result (λ ids. ids ≡ first.now ++ second.now) }
{
    let Ok(mut ids) = Vec::from_slice(alloc, first) else {
        return Err(OutOfMemory);
    };
    match ids.extend_from_slice(second) {
        Ok(()) => Ok(List::from_vec(ids)),
        Err(_) => Err(OutOfMemory),
    }
}

/// The facts and the chunks have to be those of what is wanted, where its own variables have these terms.
pub(crate) fn parts_of(
    alloc: Global,
    state: &TrackedState,
    wanted: &Wanted<'_>,
    with: &With,
    terms: &[TermId],
) -> Result<(), Refused>
    requires within { WantedWithin (length state.now.terms) wanted.now }
    requires terms { All (λ id. id < length state.now.terms) terms.now }
    ensures { Gives refusal_of (λ _. tt) result (parts_of state.now.state (wanted_of state.now.terms wanted.now) with.now (map (tree_at state.now.terms) terms.now)) }
{
    let own = joined(alloc, wanted.fixed, terms)?;
    let leaves = state.assertion_slots(own.as_slice(), wanted.args, wanted.result);
    parts_wanted(state, &leaves, wanted.assertion, with)
}
