// Assertions that are known, with fresh variables for their own.

ghost use Rattle.std.specs.Prelude.{◌≡◌, ◌+◌, ◌<◌, ◌≤◌, ◌++◌, [], length, map, option_map, IfOk, IfSome, IsTrue};
ghost use Rattle.std.specs.List.{All, list_all};
ghost use Rattle.wasm_values.specs.Answers.{Gives};
ghost use Rattle.term_trees.specs.Formulas.{well_formed_formula};
ghost use Rattle.term_logic.specs.Table.{tree_at};
ghost use Rattle.notes.specs.WellFormed.{well_formed_chunk, well_formed_assertion};
ghost use Rattle.outline_rules.specs.States.{settled};
ghost use Rattle.outline_rules.specs.Renewal.{variables_from, facts_assumed, chunks_assumed, parts_assumed, assumed};
ghost use Rattle.outline_rules.specs.Initial.{chunks_added};
ghost use Rattle.symbolic_state.specs.Assertions.{leaves_in, TermsWithin};
ghost use Rattle.symbolic_state.specs.Refused.{refusal_of};
ghost use Rattle.symbolic_state.specs.Growth.{Grown};

use notes::{Assertion, Chunk};
use symbolic_state::{AssertionTerms, Refused, TrackedState};
use term_logic::{Formula, TermId};
use wasm_values::{List, OutOfMemory};

/// Terms in a list.
fn listed(state: &TrackedState, ids: &[TermId]) -> Result<List<TermId>, OutOfMemory>
    ensures { IfOk result (λ listed. listed ≡ ids.now) }
{
    let mut listed = List::new(state.allocator());
    for id in ids {
        listed.push(*id)?;
    }
    Ok(listed)
}

/// So many variables, from a number on, behind other terms.
#[tactic(auto, using(crate::proofs::Numbering::numbering))]
fn push_variables(
    state: &mut TrackedState,
    ids: &mut List<TermId>,
    first: u32,
    count: u32,
) -> Result<(), OutOfMemory>
    requires ids { All (λ id. id < length state.old.terms) ids.old }
    requires numbers { first + count ≤ 1000000 }
    ensures terms { IfOk result (λ _. map (tree_at state.new.terms) ids.new ≡ map (tree_at state.old.terms) ids.old ++ variables_from first count) }
    ensures within { IfOk result (λ _. All (λ id. id < length state.new.terms) ids.new) }
    ensures state { IfOk result (λ _. state.new.state ≡ state.old.state) }
    ensures kept { IfOk result (λ _. Grown state.old state.new) }
{
    for k in 0..count {
        ids.push(state.variable(first + k)?)?;
    }
    Ok(())
}

/// Terms, and behind them so many variables from a number on.
fn own_terms(
    state: &mut TrackedState,
    fixed: &[TermId],
    first: u32,
    count: u32,
) -> Result<List<TermId>, OutOfMemory>
    requires fixed { All (λ id. id < length state.old.terms) fixed.now }
    requires numbers { first + count ≤ 1000000 }
    ensures terms { IfOk result (λ ids. map (tree_at state.new.terms) ids ≡ map (tree_at state.old.terms) fixed.now ++ variables_from first count) }
    ensures within { IfOk result (λ ids. All (λ id. id < length state.new.terms) ids) }
    ensures state { IfOk result (λ _. state.new.state ≡ state.old.state) }
    ensures kept { IfOk result (λ _. Grown state.old state.new) }
{
    let mut ids = listed(state, fixed)?;
    push_variables(state, &mut ids, first, count)?;
    Ok(ids)
}

/// So many more variables, within the limits. They are as many as the first number of theirs says.
#[tactic(auto, using(crate::proofs::Settled::settled_states))]
fn add_own(state: &mut TrackedState, count: u32) -> Result<u32, Refused>
    ensures done { Gives refusal_of (λ _. state.new.state) result (settled [] (record state.old.state { vars = state.old.state.vars + count })) }
    ensures first { IfOk result (λ first. first ≡ state.old.state.vars) }
    ensures numbers { IfOk result (λ first. first + count ≤ 1000000) }
    ensures terms { IfOk result (λ _. state.new.terms ≡ state.old.terms) }
    ensures kept { IfOk result (λ _. Grown state.old state.new) }
{
    let first = state.variables();
    state.add_own(count)?;
    state.settled();
    Ok(first)
}

/// Fresh variables for an assertion's own past the fixed ones. All of its own are listed.
#[tactic(auto, using(symbolic_state::proofs::Grows::grown))]
fn own_added(
    state: &mut TrackedState,
    fixed: &[TermId],
    count: u32,
) -> Result<List<TermId>, Refused>
    requires { All (λ id. id < length state.old.terms) fixed.now }
    ensures done { Gives refusal_of (λ _. state.new.state) result (settled [] (record state.old.state { vars = state.old.state.vars + count })) }
    ensures terms { IfOk result (λ ids. map (tree_at state.new.terms) ids ≡ map (tree_at state.old.terms) fixed.now ++ variables_from state.old.state.vars count) }
    ensures within { IfOk result (λ ids. All (λ id. id < length state.new.terms) ids) }
    ensures kept { IfOk result (λ _. Grown state.old state.new) }
{
    let first = add_own(state, count)?;
    Ok(own_terms(state, fixed, first, count)?)
}

/// Formulas of an assertion are facts, one after another.
#[tactic(auto, using(crate::proofs::Assumed::facts))]
fn assume_facts(
    state: &mut TrackedState,
    formulas: &[Formula],
    terms: &AssertionTerms<'_>,
) -> Result<(), Refused>
    requires terms { TermsWithin (length state.old.terms) terms.now }
    requires well_formed { IsTrue (list_all well_formed_formula formulas.now) }
    ensures done { Gives refusal_of (λ _. state.new.state) result (facts_assumed (leaves_in state.old terms.now) formulas.now state.old.state) }
    ensures leaves { IfOk result (λ _. leaves_in state.new terms.now ≡ leaves_in state.old terms.now) }
    ensures terms { IfOk result (λ _. TermsWithin (length state.new.terms) terms.now) }
    ensures kept { IfOk result (λ _. Grown state.old state.new) }
{
    for formula in formulas {
        state.add_formula_of(formula, terms)?;
    }
    Ok(())
}

/// Chunks of an assertion are appended, one after another.
#[tactic(auto, using(crate::proofs::Assumed::chunks))]
fn append_chunks(
    state: &mut TrackedState,
    chunks: &[Chunk],
    terms: &AssertionTerms<'_>,
) -> Result<(), Refused>
    requires terms { TermsWithin (length state.old.terms) terms.now }
    requires well_formed { IsTrue (list_all well_formed_chunk chunks.now) }
    ensures done { Gives refusal_of (λ _. state.new.state) result (chunks_assumed (leaves_in state.old terms.now) chunks.now state.old.state) }
    ensures kept { IfOk result (λ _. Grown state.old state.new) }
{
    for chunk in chunks {
        state.add_chunk_of(chunk, terms)?;
    }
    Ok(())
}

/// The formulas and chunks of an assertion are known.
#[tactic(auto, using(symbolic_state::proofs::Grows::grown))]
fn assume_parts(
    state: &mut TrackedState,
    assertion: &Assertion,
    terms: &AssertionTerms<'_>,
) -> Result<(), Refused>
    requires terms { TermsWithin (length state.old.terms) terms.now }
    requires well_formed { IsTrue (well_formed_assertion assertion.now) }
    ensures done { Gives refusal_of (λ _. state.new.state) result (parts_assumed (leaves_in state.old terms.now) assertion.now state.old.state) }
    ensures kept { IfOk result (λ _. Grown state.old state.new) }
{
    assume_facts(state, assertion.formulas.as_slice(), terms)?;
    append_chunks(state, assertion.chunks.as_slice(), terms)
}

/// A fresh variable, without facts, for each own variable of an assertion past the fixed ones; and the assertion is known.
pub fn assume(
    state: &mut TrackedState,
    assertion: &Assertion,
    fixed: &[TermId],
    args: &[TermId],
    answer: Option<TermId>,
) -> Result<(), Refused>
    requires assertion { IsTrue (well_formed_assertion assertion.now) }
    requires fixed { All (λ id. id < length state.old.terms) fixed.now }
    requires args { All (λ id. id < length state.old.terms) args.now }
    requires answer { IfSome answer (λ id. id < length state.old.terms) }
    ensures done { Gives refusal_of (λ _. state.new.state) result (assumed assertion.now (map (tree_at state.old.terms) fixed.now) (map (tree_at state.old.terms) args.now) (option_map (tree_at state.old.terms) answer) state.old.state) }
    ensures kept { IfOk result (λ _. Grown state.old state.new) }
{
    let own = own_added(state, fixed, assertion.own)?;
    let terms = AssertionTerms {
        own: own.as_slice(),
        args,
        result: answer,
    };
    assume_parts(state, assertion, &terms)
}

/// Chunks are added as they stand, one after another.
#[tactic(auto, using(crate::proofs::Assumed::whole_chunks))]
pub fn assume_chunks(state: &mut TrackedState, chunks: &[Chunk]) -> Result<(), Refused>
    requires { IsTrue (list_all well_formed_chunk chunks.now) }
    ensures done { Gives refusal_of (λ _. state.new.state) result (chunks_added chunks.now state.old.state) }
    ensures kept { IfOk result (λ _. Grown state.old state.new) }
{
    for chunk in chunks {
        state.add_whole_chunk(chunk)?;
    }
    Ok(())
}
