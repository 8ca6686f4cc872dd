// Numeric operators, which are defined by facts or may trap.

ghost use Rattle.std.specs.Prelude.{◌≡◌, ◌==◌, ◌<◌, [], ◌∷◌, length, IfOk, IsTrue};
ghost use Rattle.wasm_values.specs.Answers.{Gives};
ghost use Rattle.wasm_values.specs.Operators.{num_operands, width_of};
ghost use Rattle.term_trees.specs.declared.term.Formula.TheVariants as formula;
ghost use Rattle.term_logic.specs.Table.{tree_at};
ghost use Rattle.notes.specs.WellFormed.{well_formed_use, well_formed_notes};
ghost use Rattle.outline_rules.specs.States.{number, operand};
ghost use Rattle.outline_rules.specs.Instructions.{quotient_facts, defined_facts, safe, numeric_two, numeric};
ghost use Rattle.symbolic_calls.specs.words.Guards.{guard_facts};
ghost use Rattle.symbolic_calls.specs.words.Parts.{operated};
ghost use Rattle.symbolic_state.specs.Refused.{refusal_of};
ghost use Rattle.symbolic_state.specs.Growth.{Grown};

use crate::facts::{divisor_known, quotient_known};
use crate::guards::{Guard, guard_of};
use crate::trapping::trap;
use notes::{Reason, Use};
use outline_setting::Setting;
use std::alloc::Global;
use symbolic_state::{Refused, TrackedState};
use symbolic_steps::{numeric_one, push_two, unused};
use term_logic::TermId;
use wasm_values::{NumOp, OutOfMemory, ValType};

/// A division is defined, or may trap.
fn safe_divisor(
    alloc: Global,
    state: &mut TrackedState,
    setting: &Setting<'_>,
    b: TermId,
    used: &Use,
) -> Result<(), Refused>
    requires notes { IsTrue (well_formed_notes setting.now.notes) }
    requires used { IsTrue (well_formed_use used.now) }
    requires divisor { b < length state.old.terms }
    ensures done { Gives refusal_of (λ _. tt) result (safe setting.now (formula.Le (number 1) (tree_at state.old.terms b) ∷ []) used.now state.old.state) }
    ensures state { IfOk result (λ _. state.new.state ≡ state.old.state) }
    ensures kept { IfOk result (λ _. Grown state.old state.new) }
{
    match used {
        Use::Safe(facts) => divisor_known(state, facts.as_slice(), b),
        Use::Trap(with) => trap(alloc, state, setting, with),
        _ => Err(Refused::Reason(Reason::Use)),
    }
}

/// A signed quotient is defined, or may trap.
fn safe_quotient(
    alloc: Global,
    state: &mut TrackedState,
    setting: &Setting<'_>,
    ty: ValType,
    operands: (TermId, TermId),
    used: &Use,
) -> Result<(), Refused>
    requires notes { IsTrue (well_formed_notes setting.now.notes) }
    requires used { IsTrue (well_formed_use used.now) }
    requires first { operands.0 < length state.old.terms }
    requires second { operands.1 < length state.old.terms }
    ensures done { Gives refusal_of (λ _. tt) result (safe setting.now (quotient_facts (width_of ty) (tree_at state.old.terms operands.0) (tree_at state.old.terms operands.1)) used.now state.old.state) }
    ensures state { IfOk result (λ _. state.new.state ≡ state.old.state) }
    ensures kept { IfOk result (λ _. Grown state.old state.new) }
{
    match used {
        Use::Safe(facts) => {
            quotient_known(alloc, state, facts.as_slice(), ty, operands.0, operands.1)
        }
        Use::Trap(with) => trap(alloc, state, setting, with),
        _ => Err(Refused::Reason(Reason::Use)),
    }
}

/// An operator with a guard is defined, or may trap.
fn safe_by(
    alloc: Global,
    state: &mut TrackedState,
    setting: &Setting<'_>,
    guard: Guard,
    operands: (TermId, TermId),
    used: &Use,
) -> Result<(), Refused>
    requires notes { IsTrue (well_formed_notes setting.now.notes) }
    requires used { IsTrue (well_formed_use used.now) }
    requires first { operands.0 < length state.old.terms }
    requires second { operands.1 < length state.old.terms }
    ensures done { Gives refusal_of (λ _. tt) result (safe setting.now (guard_facts guard (tree_at state.old.terms operands.0) (tree_at state.old.terms operands.1)) used.now state.old.state) }
    ensures state { IfOk result (λ _. state.new.state ≡ state.old.state) }
    ensures kept { IfOk result (λ _. Grown state.old state.new) }
{
    match guard {
        Guard::Nothing => unused(used),
        Guard::Divisor => safe_divisor(alloc, state, setting, operands.1, used),
        Guard::Quotient(ty) => safe_quotient(alloc, state, setting, ty, operands, used),
    }
}

/// An operator is defined, or may trap.
fn safe(
    alloc: Global,
    state: &mut TrackedState,
    setting: &Setting<'_>,
    op: NumOp,
    operands: (TermId, TermId),
    used: &Use,
) -> Result<(), Refused>
    requires notes { IsTrue (well_formed_notes setting.now.notes) }
    requires used { IsTrue (well_formed_use used.now) }
    requires first { operands.0 < length state.old.terms }
    requires second { operands.1 < length state.old.terms }
    ensures done { Gives refusal_of (λ _. tt) result (safe setting.now (defined_facts op (tree_at state.old.terms operands.0) (tree_at state.old.terms operands.1)) used.now state.old.state) }
    ensures state { IfOk result (λ _. state.new.state ≡ state.old.state) }
    ensures kept { IfOk result (λ _. Grown state.old state.new) }
{
    safe_by(
        alloc,
        state,
        setting,
        guard_of(op),
        (operands.0, operands.1),
        used,
    )
}

/// An operator of two operands, on the state without them.
#[tactic(auto, using(symbolic_state::proofs::Grows::grown, symbolic_state::proofs::Grows::grown_ids))]
fn operate(
    alloc: Global,
    state: &mut TrackedState,
    setting: &Setting<'_>,
    op: NumOp,
    operands: (TermId, TermId),
    used: &Use,
) -> Result<(), Refused>
    requires notes { IsTrue (well_formed_notes setting.now.notes) }
    requires used { IsTrue (well_formed_use used.now) }
    requires first { operands.0 < length state.old.terms }
    requires second { operands.1 < length state.old.terms }
    requires two { IsTrue (num_operands op == 2) }
    ensures done { Gives refusal_of (λ _. state.new.state) result (operated setting.now op (tree_at state.old.terms operands.0) (tree_at state.old.terms operands.1) used.now state.old.state) }
    ensures kept { IfOk result (λ _. Grown state.old state.new) }
{
    safe(alloc, state, setting, op, (operands.0, operands.1), used)?;
    push_two(state, op, operands.0, operands.1)
}

/// The two topmost operands, of which the second is the top.
#[tactic(auto, using(symbolic_state::proofs::Grows::grown, symbolic_state::proofs::Grows::grown_ids))]
fn two_operands(state: &mut TrackedState) -> Result<(TermId, TermId), OutOfMemory>
    ensures first { IfOk result (λ r. tree_at state.new.terms r.0 ≡ operand state.old.state 1) }
    ensures second { IfOk result (λ r. tree_at state.new.terms r.1 ≡ operand state.old.state 0) }
    ensures within { IfOk result (λ r. (r.0 < length state.new.terms) × (r.1 < length state.new.terms)) }
    ensures state { IfOk result (λ _. state.new.state ≡ state.old.state) }
    ensures kept { IfOk result (λ _. Grown state.old state.new) }
{
    let (_, a) = state.entry(1)?;
    let (_, b) = state.entry(0)?;
    Ok((a, b))
}

/// An operator of two operands.
#[tactic(auto, using(symbolic_state::proofs::Grows::grown))]
fn numeric_two(
    alloc: Global,
    state: &mut TrackedState,
    setting: &Setting<'_>,
    op: NumOp,
    used: &Use,
) -> Result<(), Refused>
    requires notes { IsTrue (well_formed_notes setting.now.notes) }
    requires used { IsTrue (well_formed_use used.now) }
    requires two { IsTrue (num_operands op == 2) }
    ensures done { Gives refusal_of (λ _. state.new.state) result (numeric_two setting.now op used.now state.old.state) }
    ensures kept { IfOk result (λ _. Grown state.old state.new) }
{
    let (a, b) = two_operands(state)?;
    state.pop(2);
    operate(alloc, state, setting, op, (a, b), used)
}

/// A numeric operator pushes its term.
#[tactic(auto, using(crate::proofs::Known::arities))]
pub fn numeric(
    alloc: Global,
    state: &mut TrackedState,
    setting: &Setting<'_>,
    op: NumOp,
    used: &Use,
) -> Result<(), Refused>
    requires notes { IsTrue (well_formed_notes setting.now.notes) }
    requires used { IsTrue (well_formed_use used.now) }
    ensures done { Gives refusal_of (λ _. state.new.state) result (numeric setting.now op used.now state.old.state) }
    ensures kept { IfOk result (λ _. Grown state.old state.new) }
{
    if op.is_unary() {
        numeric_one(state, used, op)
    } else {
        numeric_two(alloc, state, setting, op, used)
    }
}
