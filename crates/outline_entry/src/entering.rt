// The state at a function's entry, and the initial state.

ghost use Rattle.std.specs.Prelude.{IsTrue};
ghost use Rattle.wasm_values.specs.Answers.{Gives};
ghost use Rattle.notes.specs.WellFormed.{well_formed_notes};
ghost use Rattle.outline_rules.specs.Entry.{pages_entered, pages_begun, entry_state, initial_state};
ghost use Rattle.symbolic_state.specs.Refused.{refusal_of};
ghost use Rattle.outline_entry.specs.words.Parts.{after_globals, after_locals, after_params, entered, begun};

use crate::globals::begin_globals;
use crate::locals::{enter_declared, enter_params};
use crate::precondition::know_precondition;
use outline_setting::Setting;
use std::alloc::Global;
use symbolic_state::{Refused, TrackedState};

/// At a function's entry the page count of a private memory is added, to the memory's minimum.
fn enter_pages(state: &mut TrackedState, setting: &Setting<'_>) -> Result<(), Refused>
    ensures { Gives refusal_of (λ _. state.new.state) result (pages_entered setting.now state.old.state) }
{
    if !setting.is_memory_private() {
        return Ok(());
    }
    let least = state.number(setting.least_pages() as u64)?;
    state.add_pages(least)?;
    Ok(())
}

/// Initially the page count of a private memory is its minimum.
fn begin_pages(state: &mut TrackedState, setting: &Setting<'_>) -> Result<(), Refused>
    ensures { Gives refusal_of (λ _. state.new.state) result (pages_begun setting.now state.old.state) }
{
    if !setting.is_memory_private() {
        return Ok(());
    }
    let least = state.number(setting.least_pages() as u64)?;
    state.set_pages(least)
}

/// The page count, and the precondition.
fn enter_after_globals(
    alloc: Global,
    state: &mut TrackedState,
    setting: &Setting<'_>,
    func: u32,
) -> Result<(), Refused>
    requires { IsTrue (well_formed_notes setting.now.notes) }
    ensures { Gives refusal_of (λ _. state.new.state) result (after_globals setting.now func state.old.state) }
{
    enter_pages(state, setting)?;
    know_precondition(alloc, state, setting, func)
}

/// The globals, and all behind them.
fn enter_after_locals(
    alloc: Global,
    state: &mut TrackedState,
    setting: &Setting<'_>,
    func: u32,
) -> Result<(), Refused>
    requires { IsTrue (well_formed_notes setting.now.notes) }
    ensures { Gives refusal_of (λ _. state.new.state) result (after_locals setting.now func state.old.state) }
{
    begin_globals(state, setting, true)?;
    enter_after_globals(alloc, state, setting, func)
}

/// The locals that the function declares, and all behind them.
fn enter_after_params(
    alloc: Global,
    state: &mut TrackedState,
    setting: &Setting<'_>,
    func: u32,
) -> Result<(), Refused>
    requires { IsTrue (well_formed_notes setting.now.notes) }
    ensures { Gives refusal_of (λ _. state.new.state) result (after_params setting.now func state.old.state) }
{
    state.remember_args()?;
    enter_declared(state, setting, func)?;
    enter_after_locals(alloc, state, setting, func)
}

/// All that is known at a function's entry.
fn enter(
    alloc: Global,
    state: &mut TrackedState,
    setting: &Setting<'_>,
    func: u32,
) -> Result<(), Refused>
    requires { IsTrue (well_formed_notes setting.now.notes) }
    ensures { Gives refusal_of (λ _. state.new.state) result (entered setting.now func state.old.state) }
{
    enter_params(state, setting.func_type(func).params.as_slice())?;
    enter_after_params(alloc, state, setting, func)
}

/// The state at a function's entry: the parameters, the other locals, the globals, the page count, and the precondition.
pub fn entry_state(alloc: Global, setting: &Setting<'_>, func: u32) -> Result<TrackedState, Refused>
    requires notes { IsTrue (well_formed_notes setting.now.notes) }
    ensures { Gives refusal_of (λ t. t.state) result (entry_state setting.now func) }
{
    let mut state = TrackedState::blank(alloc);
    enter(alloc, &mut state, setting, func)?;
    Ok(state)
}

/// All that begins with an instance.
fn begin(state: &mut TrackedState, setting: &Setting<'_>) -> Result<(), Refused>
    ensures { Gives refusal_of (λ _. state.new.state) result (begun setting.now state.old.state) }
{
    begin_globals(state, setting, false)?;
    begin_pages(state, setting)
}

/// The initial state of an instance, before its chunks.
pub fn initial_state(alloc: Global, setting: &Setting<'_>) -> Result<TrackedState, Refused>
    ensures { Gives refusal_of (λ t. t.state) result (initial_state setting.now) }
{
    let mut state = TrackedState::blank(alloc);
    begin(&mut state, setting)?;
    Ok(state)
}
