// Calls through the table.

ghost use Rattle.std.specs.Prelude.{◌≡◌, ◌&&◌, ◌<◌, length, map, Some, None, option_map, IfOk, IsTrue};
ghost use Rattle.std.specs.List.{All};
ghost use Rattle.wasm_values.specs.Answers.{Gives};
ghost use Rattle.term_logic.specs.Table.{tree_at};
ghost use Rattle.notes.specs.WellFormed.{where_there, well_formed_contract, well_formed_with, well_formed_use, well_formed_notes};
ghost use Rattle.outline_rules.specs.Calls.{judged, called_by, call_indirect};
ghost use Rattle.symbolic_calls.specs.words.Parts.{trap_or_enter, inner_or_trap};
ghost use Rattle.symbolic_state.specs.Refused.{refusal_of};
ghost use Rattle.symbolic_state.specs.Growth.{Grown};

use crate::arguments::{argument_count, arguments};
use crate::calling::{call_outside, enter};
use crate::forms::{both_of, no_with, with_of};
use crate::trapping::trap;
use crate::types::{no_type, type_at};
use notes::{Contract, Use, With};
use outline_setting::Setting;
use std::alloc::Global;
use symbolic_state::{Refused, TrackedState};
use term_logic::TermId;
use wasm_syntax::FuncType;

/// What an indirect call at a type is judged by.
#[tactic(auto, using(crate::proofs::WellFormed::judgements))]
fn judged<'a>(setting: &Setting<'a>, ty: &FuncType) -> Result<Option<&'a Contract>, Refused>
    requires { IsTrue (well_formed_notes setting.now.notes) }
    ensures judged { Gives refusal_of (λ o. option_map (λ c. c.now) o) result (judged setting.now ty.now) }
    ensures well_formed { IfOk result (λ o. IsTrue (where_there well_formed_contract (option_map (λ c. c.now) o))) }
{
    match outline_setting::judged(setting, ty) {
        Ok(contract) => Ok(contract),
        Err(why) => Err(Refused::Reason(why)),
    }
}

/// A leaving call through the table, on the state without the index.
fn outside(
    alloc: Global,
    state: &mut TrackedState,
    setting: &Setting<'_>,
    ty: &FuncType,
    used: &Use,
) -> Result<(), Refused>
    requires notes { IsTrue (well_formed_notes setting.now.notes) }
    requires used { IsTrue (well_formed_use used.now) }
    ensures done { Gives refusal_of (λ _. state.new.state) result (called_by setting.now ty.now None used.now state.old.state) }
    ensures kept { IfOk result (λ _. Grown state.old state.new) }
{
    let nothing = no_with(alloc);
    let with = with_of(used, &nothing)?;
    call_outside(alloc, state, setting, ty, with)
}

/// An inner call that may trap, on the state without its arguments.
#[tactic(auto, using(symbolic_state::proofs::Grows::grown, crate::proofs::Listed::listed))]
fn trap_or_enter(
    alloc: Global,
    state: &mut TrackedState,
    setting: &Setting<'_>,
    contract: &Contract,
    ty: &FuncType,
    args: &[TermId],
    withs: (&With, &With),
) -> Result<(), Refused>
    requires notes { IsTrue (well_formed_notes setting.now.notes) }
    requires contract { IsTrue (well_formed_contract contract.now) }
    requires args { All (λ id. id < length state.old.terms) args.now }
    requires withs { IsTrue (well_formed_with withs.0.now && well_formed_with withs.1.now) }
    ensures done { Gives refusal_of (λ _. state.new.state) result (trap_or_enter setting.now contract.now ty.now (map (tree_at state.old.terms) args.now) withs.entry.0.now withs.entry.1.now state.old.state) }
    ensures kept { IfOk result (λ _. Grown state.old state.new) }
{
    trap(alloc, state, setting, withs.0)?;
    enter(alloc, state, setting, contract, ty, args, withs.1)
}

/// An inner call that may trap, on the state without the index.
#[tactic(auto, using(symbolic_state::proofs::Grows::grown))]
fn inner_or_trap(
    alloc: Global,
    state: &mut TrackedState,
    setting: &Setting<'_>,
    contract: &Contract,
    ty: &FuncType,
    withs: (&With, &With),
) -> Result<(), Refused>
    requires notes { IsTrue (well_formed_notes setting.now.notes) }
    requires contract { IsTrue (well_formed_contract contract.now) }
    requires withs { IsTrue (well_formed_with withs.0.now && well_formed_with withs.1.now) }
    ensures done { Gives refusal_of (λ _. state.new.state) result (inner_or_trap setting.now contract.now ty.now withs.entry.0.now withs.entry.1.now state.old.state) }
    ensures kept { IfOk result (λ _. Grown state.old state.new) }
{
    let count = argument_count(ty)?;
    let args = arguments(alloc, state, ty, count)?;
    state.pop(count);
    trap_or_enter(alloc, state, setting, contract, ty, args.as_slice(), withs)
}

/// An inner call through the table, on the state without the index.
fn inside(
    alloc: Global,
    state: &mut TrackedState,
    setting: &Setting<'_>,
    contract: &Contract,
    ty: &FuncType,
    used: &Use,
) -> Result<(), Refused>
    requires notes { IsTrue (well_formed_notes setting.now.notes) }
    requires contract { IsTrue (well_formed_contract contract.now) }
    requires used { IsTrue (well_formed_use used.now) }
    ensures done { Gives refusal_of (λ _. state.new.state) result (called_by setting.now ty.now (Some contract.now) used.now state.old.state) }
    ensures kept { IfOk result (λ _. Grown state.old state.new) }
{
    let withs = both_of(used)?;
    inner_or_trap(alloc, state, setting, contract, ty, withs)
}

/// An indirect call by what it is judged by, on the state without the index.
fn called_by(
    alloc: Global,
    state: &mut TrackedState,
    setting: &Setting<'_>,
    ty: &FuncType,
    contract: Option<&Contract>,
    used: &Use,
) -> Result<(), Refused>
    requires notes { IsTrue (well_formed_notes setting.now.notes) }
    requires contract { IsTrue (where_there well_formed_contract (option_map (λ c. c.now) contract)) }
    requires used { IsTrue (well_formed_use used.now) }
    ensures done { Gives refusal_of (λ _. state.new.state) result (called_by setting.now ty.now (option_map (λ c. c.now) contract.entry) used.now state.old.state) }
    ensures kept { IfOk result (λ _. Grown state.old state.new) }
{
    match contract {
        Some(contract) => inside(alloc, state, setting, contract, ty, used),
        None => outside(alloc, state, setting, ty, used),
    }
}

/// `call_indirect` at the type with a number.
#[tactic(auto, using(symbolic_state::proofs::Grows::grown))]
pub fn call_indirect(
    alloc: Global,
    state: &mut TrackedState,
    setting: &Setting<'_>,
    x: u32,
    used: &Use,
) -> Result<(), Refused>
    requires notes { IsTrue (well_formed_notes setting.now.notes) }
    requires used { IsTrue (well_formed_use used.now) }
    ensures done { Gives refusal_of (λ _. state.new.state) result (call_indirect setting.now x used.now state.old.state) }
    ensures kept { IfOk result (λ _. Grown state.old state.new) }
{
    let nothing = no_type(alloc);
    let ty = type_at(setting.module().types.as_slice(), x, &nothing);
    let contract = judged(setting, ty)?;
    state.pop(1);
    called_by(alloc, state, setting, ty, contract, used)
}
