// Facts by which an operator is defined.

ghost use Rattle.std.specs.Prelude.{◌≡◌, ◌-◌, ◌^◌, ◌<◌, ◌≤◌, [], ◌∷◌, length, IfOk};
ghost use Rattle.wasm_values.specs.Answers.{Gives};
ghost use Rattle.wasm_values.specs.Operators.{width_of};
ghost use Rattle.term_trees.specs.declared.term.Formula.TheVariants as formula;
ghost use Rattle.term_logic.specs.Table.{tree_at};
ghost use Rattle.term_logic.specs.Formulas.{formula_bound, formula_of};
ghost use Rattle.outline_rules.specs.States.{number};
ghost use Rattle.outline_rules.specs.HeapMoves.{is_fact, fact_wanted};
ghost use Rattle.outline_rules.specs.Instructions.{quotient_facts};
ghost use Rattle.symbolic_calls.specs.words.Parts.{facts_wanted};
ghost use Rattle.symbolic_state.specs.Refused.{refusal_of};
ghost use Rattle.symbolic_state.specs.Growth.{Grown};

use crate::guards::{greatest, least_signed};
use notes::Reason;
use std::alloc::Global;
use symbolic_state::{Refused, TrackedState, at_most, both, denied, equal};
use term_logic::{IdFormula, TermId};
use wasm_values::{OutOfMemory, ValType};

/// Whether the fact with a number is this formula.
fn is_fact(state: &TrackedState, k: u32, f: &IdFormula) -> bool
    requires { formula_bound f.now ≤ length state.now.terms }
    ensures { result ≡ is_fact state.now.state k (formula_of state.now.terms f.now) }
{
    match state.fact(k) {
        Some(fact) => state.table().same_formula(fact, f),
        None => false,
    }
}

/// The fact with a number has to be this formula.
fn fact_wanted(state: &TrackedState, k: u32, f: &IdFormula) -> Result<(), Refused>
    requires { formula_bound f.now ≤ length state.now.terms }
    ensures { Gives refusal_of (λ _. tt) result (fact_wanted state.now.state k (formula_of state.now.terms f.now)) }
{
    if is_fact(state, k, f) {
        Ok(())
    } else {
        Err(Refused::Reason(Reason::Fact))
    }
}

/// The only fact that is given has to be this formula.
#[tactic(auto, using(crate::proofs::Known::known))]
fn only_fact(state: &TrackedState, facts: &[u32], f: &IdFormula) -> Result<(), Refused>
    requires { formula_bound f.now ≤ length state.now.terms }
    ensures { Gives refusal_of (λ _. tt) result (facts_wanted facts.now (formula_of state.now.terms f.now ∷ []) state.now.state) }
{
    match facts {
        [k] => fact_wanted(state, *k, f),
        _ => Err(Refused::Reason(Reason::Use)),
    }
}

/// The two facts that are given have to be these formulas.
#[tactic(auto, using(crate::proofs::Known::known))]
fn two_facts(
    state: &TrackedState,
    facts: &[u32],
    f: &IdFormula,
    g: &IdFormula,
) -> Result<(), Refused>
    requires first { formula_bound f.now ≤ length state.now.terms }
    requires second { formula_bound g.now ≤ length state.now.terms }
    ensures { Gives refusal_of (λ _. tt) result (facts_wanted facts.now (formula_of state.now.terms f.now ∷ formula_of state.now.terms g.now ∷ []) state.now.state) }
{
    match facts {
        [k, l] => {
            fact_wanted(state, *k, f)?;
            fact_wanted(state, *l, g)
        }
        _ => Err(Refused::Reason(Reason::Use)),
    }
}

/// The fact that is given has to be that a divisor isn't 0.
pub(crate) fn divisor_known(
    state: &mut TrackedState,
    facts: &[u32],
    b: TermId,
) -> Result<(), Refused>
    requires { b < length state.old.terms }
    ensures done { Gives refusal_of (λ _. tt) result (facts_wanted facts.now (formula.Le (number 1) (tree_at state.old.terms b) ∷ []) state.old.state) }
    ensures state { IfOk result (λ _. state.new.state ≡ state.old.state) }
    ensures kept { IfOk result (λ _. Grown state.old state.new) }
{
    let one = state.number(1)?;
    only_fact(state, facts, &at_most(one, b))
}

/// That a quotient isn't that of the least signed value by -1, of which these are the terms.
fn no_overflow(
    alloc: Global,
    state: &TrackedState,
    operands: (TermId, TermId),
    least: TermId,
    greatest: TermId,
) -> Result<IdFormula, OutOfMemory>
    requires first { operands.0 < length state.now.terms }
    requires second { operands.1 < length state.now.terms }
    requires least { least < length state.now.terms }
    requires greatest { greatest < length state.now.terms }
    ensures formula { IfOk result (λ f. formula_of state.now.terms f ≡ formula.Not (formula.And (formula.Eq (tree_at state.now.terms operands.0) (tree_at state.now.terms least)) (formula.Eq (tree_at state.now.terms operands.1) (tree_at state.now.terms greatest)))) }
    ensures within { IfOk result (λ f. formula_bound f ≤ length state.now.terms) }
{
    let _ = state;
    let overflows = both(alloc, equal(operands.0, least), equal(operands.1, greatest))?;
    denied(alloc, overflows)
}

/// The two numbers of a type that make a signed quotient overflow.
#[tactic(auto, using(symbolic_state::proofs::Grows::grown, symbolic_state::proofs::Grows::grown_ids))]
fn overflowing(state: &mut TrackedState, ty: ValType) -> Result<(TermId, TermId), OutOfMemory>
    ensures least { IfOk result (λ r. tree_at state.new.terms r.0 ≡ number (2 ^ (width_of ty - 1))) }
    ensures greatest { IfOk result (λ r. tree_at state.new.terms r.1 ≡ number (2 ^ width_of ty - 1)) }
    ensures within { IfOk result (λ r. (r.0 < length state.new.terms) × (r.1 < length state.new.terms)) }
    ensures state { IfOk result (λ _. state.new.state ≡ state.old.state) }
    ensures kept { IfOk result (λ _. Grown state.old state.new) }
{
    let least = state.number(least_signed(ty))?;
    let greatest = state.number(greatest(ty))?;
    Ok((least, greatest))
}

/// That a signed quotient of two values of a type is one.
#[tactic(auto, using(symbolic_state::proofs::Grows::grown, symbolic_state::proofs::Grows::grown_ids))]
fn quotient_fits(
    alloc: Global,
    state: &mut TrackedState,
    ty: ValType,
    a: TermId,
    b: TermId,
) -> Result<IdFormula, OutOfMemory>
    requires first { a < length state.old.terms }
    requires second { b < length state.old.terms }
    ensures formula { IfOk result (λ f. formula_of state.new.terms f ≡ formula.Not (formula.And (formula.Eq (tree_at state.old.terms a) (number (2 ^ (width_of ty - 1)))) (formula.Eq (tree_at state.old.terms b) (number (2 ^ width_of ty - 1))))) }
    ensures within { IfOk result (λ f. formula_bound f ≤ length state.new.terms) }
    ensures state { IfOk result (λ _. state.new.state ≡ state.old.state) }
    ensures kept { IfOk result (λ _. Grown state.old state.new) }
{
    let (least, greatest) = overflowing(state, ty)?;
    no_overflow(alloc, state, (a, b), least, greatest)
}

/// The facts that are given have to keep a signed quotient defined.
#[tactic(auto, using(symbolic_state::proofs::Grows::grown, symbolic_state::proofs::Grows::grown_ids))]
pub(crate) fn quotient_known(
    alloc: Global,
    state: &mut TrackedState,
    facts: &[u32],
    ty: ValType,
    a: TermId,
    b: TermId,
) -> Result<(), Refused>
    requires first { a < length state.old.terms }
    requires second { b < length state.old.terms }
    ensures done { Gives refusal_of (λ _. tt) result (facts_wanted facts.now (quotient_facts (width_of ty) (tree_at state.old.terms a) (tree_at state.old.terms b)) state.old.state) }
    ensures state { IfOk result (λ _. state.new.state ≡ state.old.state) }
    ensures kept { IfOk result (λ _. Grown state.old state.new) }
{
    let one = state.number(1)?;
    let fits = quotient_fits(alloc, state, ty, a, b)?;
    two_facts(state, facts, &at_most(one, b), &fits)
}
