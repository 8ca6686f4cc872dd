// The globals at a function's entry, and initially.

ghost use Rattle.std.specs.Prelude.{◌≡◌, ◌-◌, ◌<◌, length, slice_get, None, IfOk, Ok, unwrap_or};
ghost use Rattle.std.specs.Option.{option_map};
ghost use Rattle.wasm_values.specs.Answers.{Gives};
ghost use Rattle.wasm_typing.specs.Valid.{globals_of, imported_globals_of};
ghost use Rattle.term_logic.specs.Table.{tree_at};
ghost use Rattle.outline_rules.specs.States.{number};
ghost use Rattle.outline_rules.specs.Instructions.{global_of};
ghost use Rattle.outline_rules.specs.Entry.{value_term, init_of, with_new_global, global_known, global_begun, globals_begun};
ghost use Rattle.symbolic_state.specs.Refused.{refusal_of};
ghost use Rattle.outline_entry.specs.words.Parts.{instruction_term, immutable_begun, private_begun, global_at};

use escape_analysis::Stability;
use outline_setting::Setting;
use symbolic_state::{Refused, TrackedState};
use term_logic::TermId;
use wasm_syntax::{Global, Instr};
use wasm_values::{OutOfMemory, ValType};

/// How many globals a 32-bit number can count.
const MOST_GLOBALS: usize = 4_294_967_295;

/// The term of a global, or 0 where it has none.
fn read_global(state: &mut TrackedState, x: u32) -> Result<TermId, OutOfMemory>
    ensures tree { IfOk result (λ id. tree_at state.new.terms id ≡ unwrap_or (global_of state.old.state x) (number 0)) }
    ensures within { IfOk result (λ id. id < length state.new.terms) }
    ensures state { IfOk result (λ _. state.new.state ≡ state.old.state) }
{
    match state.global(x) {
        Some(id) => Ok(id),
        None => state.number(0),
    }
}

/// The value of a constant instruction.
fn instruction_term(state: &mut TrackedState, instr: &Instr) -> Result<TermId, OutOfMemory>
    ensures tree { IfOk result (λ id. tree_at state.new.terms id ≡ instruction_term state.old.state instr.now) }
    ensures within { IfOk result (λ id. id < length state.new.terms) }
    ensures state { IfOk result (λ _. state.new.state ≡ state.old.state) }
{
    match instr {
        Instr::Const(value) => state.number(value.number()),
        Instr::GlobalGet(x) => read_global(state, *x),
        _ => state.number(0),
    }
}

/// The value of a constant expression.
fn value_term(state: &mut TrackedState, init: &[Instr]) -> Result<TermId, OutOfMemory>
    ensures tree { IfOk result (λ id. tree_at state.new.terms id ≡ value_term state.old.state init.now) }
    ensures within { IfOk result (λ id. id < length state.new.terms) }
    ensures state { IfOk result (λ _. state.new.state ≡ state.old.state) }
{
    match init {
        [instr] => instruction_term(state, instr),
        _ => state.number(0),
    }
}

/// The global with a number, where the module defines it.
fn defined_global<'a>(setting: &Setting<'a>, k: u32) -> Option<&'a Global>
    ensures { option_map (λ g. g.now) result ≡ slice_get setting.now.code.globals (k - length (imported_globals_of setting.now.code)) }
{
    let place = (k as usize).saturating_sub(setting.imported_globals());
    setting.module().globals.as_slice().get(place)
}

/// The first value of a global that the module defines.
fn first_term(
    state: &mut TrackedState,
    setting: &Setting<'_>,
    k: u32,
) -> Result<TermId, OutOfMemory>
    ensures tree { IfOk result (λ id. tree_at state.new.terms id ≡ value_term state.old.state (init_of setting.now k)) }
    ensures within { IfOk result (λ id. id < length state.new.terms) }
    ensures state { IfOk result (λ _. state.new.state ≡ state.old.state) }
{
    match defined_global(setting, k) {
        Some(global) => value_term(state, global.init.as_slice()),
        None => state.number(0),
    }
}

/// One more global, that the module defines, with its value.
fn add_known(state: &mut TrackedState, setting: &Setting<'_>, k: u32) -> Result<(), Refused>
    ensures { Gives refusal_of (λ _. state.new.state) result (global_known setting.now k state.old.state) }
{
    let id = first_term(state, setting, k)?;
    state.add_global(id)
}

/// One more global, that is immutable: one that is imported is unknown.
fn begin_immutable(
    state: &mut TrackedState,
    setting: &Setting<'_>,
    k: u32,
    ty: ValType,
) -> Result<(), Refused>
    ensures { Gives refusal_of (λ _. state.new.state) result (immutable_begun setting.now k ty state.old.state) }
{
    if (k as usize) < setting.imported_globals() {
        state.add_typed_global(ty)
    } else {
        add_known(state, setting, k)
    }
}

/// One more global, that is private: at a function's entry it is unknown.
fn begin_private(
    state: &mut TrackedState,
    setting: &Setting<'_>,
    at_entry: bool,
    k: u32,
    ty: ValType,
) -> Result<(), Refused>
    ensures { Gives refusal_of (λ _. state.new.state) result (private_begun setting.now at_entry k ty state.old.state) }
{
    if at_entry {
        state.add_typed_global(ty)
    } else {
        add_known(state, setting, k)
    }
}

/// One more global, that others can write: it has no term.
fn begin_unstable(state: &mut TrackedState) -> Result<(), Refused>
    ensures { Gives refusal_of (λ _. state.new.state) result (Ok (with_new_global None state.old.state)) }
{
    state.add_unstable()?;
    Ok(())
}

/// One more global, by its stability.
fn begin_global(
    state: &mut TrackedState,
    setting: &Setting<'_>,
    at_entry: bool,
    k: u32,
    ty: ValType,
    stability: Stability,
) -> Result<(), Refused>
    ensures { Gives refusal_of (λ _. state.new.state) result (global_begun setting.now at_entry k ty stability state.old.state) }
{
    match stability {
        Stability::Unstable => begin_unstable(state),
        Stability::Immutable => begin_immutable(state, setting, k, ty),
        Stability::Private => begin_private(state, setting, at_entry, k, ty),
    }
}

/// The global with a number, where there is one.
fn begin_numbered(
    state: &mut TrackedState,
    setting: &Setting<'_>,
    at_entry: bool,
    k: u32,
) -> Result<(), Refused>
    ensures { Gives refusal_of (λ _. state.new.state) result (global_at setting.now at_entry k (slice_get (globals_of setting.now.code) k) state.old.state) }
{
    match setting.stability_of(k) {
        Some(stability) => {
            begin_global(
                state,
                setting,
                at_entry,
                k,
                setting.global_type(k),
                stability,
            )
        }
        None => Ok(()),
    }
}

/// The globals, in index order, at a function's entry or initially.
pub(crate) fn begin_globals(
    state: &mut TrackedState,
    setting: &Setting<'_>,
    at_entry: bool,
) -> Result<(), Refused>
    ensures { Gives refusal_of (λ _. state.new.state) result (globals_begun setting.now at_entry 0 (globals_of setting.now.code) state.old.state) }
{
    let count = setting.globals().len();
    if count > MOST_GLOBALS {
        return Err(Refused::OutOfMemory);
    }
    for k in 0..count as u32 {
        begin_numbered(state, setting, at_entry, k)?;
    }
    Ok(())
}
