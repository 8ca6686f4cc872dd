ghost use Rattle.std.specs.Prelude.{◌≡◌, length};
ghost use Rattle.std.specs.Option.{option_copied};
ghost use Rattle.std.specs.List.{list_all};
ghost use Rattle.wasm_syntax.specs.Items.{instr_seen};
ghost use Rattle.outline_check.specs.Refusals.{HasMemory, IsSaid};
ghost use Rattle.outline_check.specs.Outlines.{in_scope, had, moved, are_facts, entailed, facts_of, stepped, ended};

use crate::answer::Reason;
use crate::derivation::{fact_of, first_bad, is_at};
use crate::effect::{after, with_fact};
use crate::notes::{Formula, Move, Note, Step, Use};
use crate::state::State;
use crate::stop::Why;
use std::alloc::Global;
use wasm_syntax::Simple;
use wasm_values::OrMemory;

fn in_scope(globals: usize, formula: Formula) -> bool
    ensures { result ≡ in_scope globals formula }
{
    (formula.global as usize) < globals
}

/// Whether all formulas speak of globals that exist.
pub fn are_in_scope(globals: usize, formulas: &[Formula]) -> bool
    ensures { result ≡ list_all (in_scope globals) formulas.now }
{
    formulas.iter().all(|formula| in_scope(globals, *formula))
}

fn are_steps_in_scope(globals: usize, steps: &[Step]) -> bool
    ensures { result ≡ list_all (λ step. in_scope globals step.formula) steps.now }
{
    steps.iter().all(|step| in_scope(globals, step.formula))
}

/// The move `have`.
fn had(
    alloc: Global,
    formula: Formula,
    steps: &[Step],
    state: State,
) -> Result<State, OrMemory<Why>>
    ensures { IsSaid result (had formula steps.now state) }
{
    let globals = state.globals.as_slice();
    if !(in_scope(globals.len(), formula) && are_steps_in_scope(globals.len(), steps)) {
        return Err(OrMemory::Fault(Why::Reason(Reason::Scope)));
    }
    let goal = fact_of(globals, formula);
    match first_bad(alloc, globals, state.facts.as_slice(), goal, steps)? {
        Some(k) => Err(OrMemory::Fault(Why::Reason(Reason::Derivation(k)))),
        None => with_fact(goal, state),
    }
}

/// The state after moves.
pub fn moved(alloc: Global, moves: &[Move], mut state: State) -> Result<State, OrMemory<Why>>
    ensures { IsSaid result (moved moves.now state) }
{
    for step in moves {
        let Move::Have(formula, steps) = step;
        state = had(alloc, *formula, steps.as_slice(), state)?;
    }
    Ok(state)
}

fn are_facts(state: &State, numbers: &[u32], formulas: &[Formula]) -> bool
    requires { length numbers.now ≡ length formulas.now }
    ensures { result ≡ are_facts state.now numbers.now formulas.now }
{
    for i in 0..formulas.len() {
        let wanted = fact_of(state.globals.as_slice(), formulas[i]);
        if !is_at(state.facts.as_slice(), numbers[i] as usize, wanted) {
            return false;
        }
    }
    true
}

/// Whether the state entails the formulas by the facts of these numbers.
pub fn entailed(formulas: &[Formula], numbers: &[u32], state: &State) -> Result<(), OrMemory<Why>>
    ensures said { IsSaid result (entailed formulas.now numbers.now state.now) }
    ensures memory { HasMemory result }
{
    if numbers.len() != formulas.len() {
        Err(OrMemory::Fault(Why::Reason(Reason::Use)))
    } else if !are_facts(state, numbers, formulas) {
        Err(OrMemory::Fault(Why::Reason(Reason::Fact)))
    } else {
        Ok(())
    }
}

fn facts_of(used: &Use) -> &[u32]
    ensures { result.now ≡ facts_of used.now }
{
    match used {
        Use::Nothing => &[],
        Use::With(with) => with.facts.as_slice(),
    }
}

/// The state after an instruction with its note.
pub fn stepped(
    alloc: Global,
    note: Option<&Note>,
    instr: Simple<'_>,
    state: State,
) -> Result<State, OrMemory<Why>>
    ensures { IsSaid result (stepped (option_copied note.entry) (instr_seen instr.entry) state) }
{
    match note {
        None => after(instr, state),
        Some(note) => {
            let state = moved(alloc, note.moves.as_slice(), state)?;
            match note.used {
                Use::Nothing => after(instr, state),
                Use::With(_) => Err(OrMemory::Fault(Why::Reason(Reason::Use))),
            }
        }
    }
}

/// The end of a function.
pub fn ended(
    alloc: Global,
    invariant: &[Formula],
    note: Option<&Note>,
    state: State,
) -> Result<(), OrMemory<Why>>
    ensures { IsSaid result (ended invariant.now (option_copied note.entry) state) }
{
    match note {
        None => entailed(invariant, &[], &state),
        Some(note) => {
            let state = moved(alloc, note.moves.as_slice(), state)?;
            entailed(invariant, facts_of(&note.used), &state)
        }
    }
}
