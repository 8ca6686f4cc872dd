// What is known of a condition where a branch on it is taken.

ghost use Rattle.std.specs.Prelude.{◌≡◌, ◌<◌, ◌≤◌, length, IfOk};
ghost use Rattle.term_trees.specs.declared.term.Formula.TheVariants as formula;
ghost use Rattle.term_logic.specs.Table.{tree_at};
ghost use Rattle.term_logic.specs.Formulas.{formula_bound, formula_of};
ghost use Rattle.outline_rules.specs.States.{number};
ghost use Rattle.outline_rules.specs.Branches.{is_not_zero};
ghost use Rattle.symbolic_state.specs.Growth.{Grown};

use std::alloc::Global;
use symbolic_state::{TrackedState, at_most, denied, equal};
use term_logic::{IdFormula, TermId};
use wasm_values::OutOfMemory;

/// That a term is a number.
#[tactic(auto, using(symbolic_state::proofs::Grows::grown_ids))]
pub(crate) fn is_number(
    state: &mut TrackedState,
    t: TermId,
    n: u64,
) -> Result<IdFormula, OutOfMemory>
    requires { t < length state.old.terms }
    ensures formula { IfOk result (λ f. formula_of state.new.terms f ≡ formula.Eq (tree_at state.old.terms t) (number n)) }
    ensures within { IfOk result (λ f. formula_bound f ≤ length state.new.terms) }
    ensures state { IfOk result (λ _. state.new.state ≡ state.old.state) }
    ensures kept { IfOk result (λ _. Grown state.old state.new) }
{
    let number = state.number(n)?;
    Ok(equal(t, number))
}

/// That a term isn't 0.
pub(crate) fn is_not_zero(
    alloc: Global,
    state: &mut TrackedState,
    t: TermId,
) -> Result<IdFormula, OutOfMemory>
    requires { t < length state.old.terms }
    ensures formula { IfOk result (λ f. formula_of state.new.terms f ≡ is_not_zero (tree_at state.old.terms t)) }
    ensures within { IfOk result (λ f. formula_bound f ≤ length state.new.terms) }
    ensures state { IfOk result (λ _. state.new.state ≡ state.old.state) }
    ensures kept { IfOk result (λ _. Grown state.old state.new) }
{
    let zero = is_number(state, t, 0)?;
    denied(alloc, zero)
}

/// That a term is at least a number.
#[tactic(auto, using(symbolic_state::proofs::Grows::grown_ids))]
pub(crate) fn is_from(state: &mut TrackedState, t: TermId, n: u64) -> Result<IdFormula, OutOfMemory>
    requires { t < length state.old.terms }
    ensures formula { IfOk result (λ f. formula_of state.new.terms f ≡ formula.Le (number n) (tree_at state.old.terms t)) }
    ensures within { IfOk result (λ f. formula_bound f ≤ length state.new.terms) }
    ensures state { IfOk result (λ _. state.new.state ≡ state.old.state) }
    ensures kept { IfOk result (λ _. Grown state.old state.new) }
{
    let number = state.number(n)?;
    Ok(at_most(number, t))
}
