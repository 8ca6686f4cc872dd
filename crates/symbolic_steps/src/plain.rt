// Instructions without immediates, and constants.

ghost use Rattle.std.specs.Prelude.{◌≡◌, ◌<◌, length, IfOk};
ghost use Rattle.wasm_values.specs.Answers.{Gives};
ghost use Rattle.outline_rules.specs.Instructions.{nop, drop, const, chosen, select};
ghost use Rattle.symbolic_steps.specs.words.Parts.{choice_pushed};
ghost use Rattle.outline_rules.specs.States.{entry_of, operand, fact_added};
ghost use Rattle.term_logic.specs.Table.{tree_at};
ghost use Rattle.symbolic_state.specs.Refused.{refusal_of};
ghost use Rattle.symbolic_state.specs.Growth.{Grown};

use crate::forms::unused;
use crate::formulas::chosen;
use notes::Use;
use std::alloc::Global;
use symbolic_state::{Refused, TrackedState};
use term_logic::TermId;
use wasm_values::{OutOfMemory, Val, ValType};

/// `nop`.
pub fn nop(state: &mut TrackedState, used: &Use) -> Result<(), Refused>
    ensures done { Gives refusal_of (λ _. state.new.state) result (nop used.now state.old.state) }
    ensures kept { IfOk result (λ _. Grown state.old state.new) }
{
    let _ = &state;
    unused(used)
}

/// A constant: its unsigned number.
pub fn constant(state: &mut TrackedState, used: &Use, value: Val) -> Result<(), Refused>
    ensures done { Gives refusal_of (λ _. state.new.state) result (const value used.now state.old.state) }
    ensures kept { IfOk result (λ _. Grown state.old state.new) }
{
    unused(used)?;
    let id = state.number(value.number())?;
    state.push(value.ty(), id)
}

/// `drop`.
pub fn drop_operand(state: &mut TrackedState, used: &Use) -> Result<(), Refused>
    ensures done { Gives refusal_of (λ _. state.new.state) result (drop used.now state.old.state) }
    ensures kept { IfOk result (λ _. Grown state.old state.new) }
{
    unused(used)?;
    state.pop(1);
    Ok(())
}

/// The operands of `select`: the type, the two choices, and the condition on top.
fn operands_of_select(
    state: &mut TrackedState,
) -> Result<(ValType, (TermId, TermId), TermId), OutOfMemory>
    ensures ty { IfOk result (λ r. r.0 ≡ (entry_of state.old.state 2).0) }
    ensures first { IfOk result (λ r. tree_at state.new.terms r.1.0 ≡ operand state.old.state 2) }
    ensures second { IfOk result (λ r. tree_at state.new.terms r.1.1 ≡ operand state.old.state 1) }
    ensures condition { IfOk result (λ r. tree_at state.new.terms r.2 ≡ operand state.old.state 0) }
    ensures within { IfOk result (λ r. (r.1.0 < length state.new.terms) × (r.1.1 < length state.new.terms) × (r.2 < length state.new.terms)) }
    ensures state { IfOk result (λ _. state.new.state ≡ state.old.state) }
    ensures kept { IfOk result (λ _. Grown state.old state.new) }
{
    let (ty, first) = state.entry(2)?;
    let (_, second) = state.entry(1)?;
    let (_, condition) = state.entry(0)?;
    Ok((ty, (first, second), condition))
}

/// What is known of the outcome of `select` is one more fact.
fn know_choice(
    alloc: Global,
    state: &mut TrackedState,
    outcome: TermId,
    choices: (TermId, TermId),
    condition: TermId,
) -> Result<(), Refused>
    requires outcome { outcome < length state.old.terms }
    requires first { choices.0 < length state.old.terms }
    requires second { choices.1 < length state.old.terms }
    requires condition { condition < length state.old.terms }
    ensures done { Gives refusal_of (λ _. state.new.state) result (fact_added (chosen (tree_at state.old.terms outcome) (tree_at state.old.terms choices.0) (tree_at state.old.terms choices.1) (tree_at state.old.terms condition)) state.old.state) }
    ensures kept { IfOk result (λ _. Grown state.old state.new) }
{
    let zero = state.number(0)?;
    let fact = chosen(alloc, state.table(), outcome, choices, condition, zero)?;
    state.add_fact(fact)
}

/// The outcome of `select`: a typed variable, and what is known of it.
#[tactic(auto, using(symbolic_state::proofs::Grows::grown, symbolic_state::proofs::Grows::grown_ids))]
fn push_choice(
    alloc: Global,
    state: &mut TrackedState,
    ty: ValType,
    choices: (TermId, TermId),
    condition: TermId,
) -> Result<(), Refused>
    requires first { choices.0 < length state.old.terms }
    requires second { choices.1 < length state.old.terms }
    requires condition { condition < length state.old.terms }
    ensures done { Gives refusal_of (λ _. state.new.state) result (choice_pushed ty (tree_at state.old.terms choices.0) (tree_at state.old.terms choices.1) (tree_at state.old.terms condition) state.old.state) }
    ensures kept { IfOk result (λ _. Grown state.old state.new) }
{
    let outcome = state.push_typed(ty)?;
    know_choice(alloc, state, outcome, choices, condition)
}

/// `select`.
pub fn select(alloc: Global, state: &mut TrackedState, used: &Use) -> Result<(), Refused>
    ensures done { Gives refusal_of (λ _. state.new.state) result (select used.now state.old.state) }
    ensures kept { IfOk result (λ _. Grown state.old state.new) }
{
    unused(used)?;
    let (ty, choices, condition) = operands_of_select(state)?;
    state.pop(3);
    push_choice(alloc, state, ty, choices, condition)
}
