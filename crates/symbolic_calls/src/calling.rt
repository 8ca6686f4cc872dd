// Calls of functions, and what comes back from them.

ghost use Rattle.std.specs.Prelude.{◌≡◌, ◌<◌, [], length, map, Some, None, option_map, IfOk, IsTrue};
ghost use Rattle.std.specs.List.{All};
ghost use Rattle.wasm_values.specs.Answers.{Gives};
ghost use Rattle.term_logic.specs.Table.{tree_at};
ghost use Rattle.notes.specs.WellFormed.{where_there, well_formed_contract, well_formed_with, well_formed_use, well_formed_notes};
ghost use Rattle.outline_rules.specs.Calls.{leaving, comes_back, inner, called, call};
ghost use Rattle.symbolic_calls.specs.words.Parts.{left_by, back_from_outside};
ghost use Rattle.symbolic_state.specs.Refused.{refusal_of};
ghost use Rattle.symbolic_state.specs.Growth.{Grown};

use crate::arguments::{argument_count, arguments};
use crate::forms::{no_with, with_of};
use crate::trapping::trap;
use crate::types::result_type_of;
use notes::{Contract, Use, With};
use outline_setting::Setting;
use std::alloc::Global;
use symbolic_assertions::{Wanted, entail};
use symbolic_renewal::{Renewing, renew};
use symbolic_state::{Refused, TrackedState};
use term_logic::TermId;
use wasm_syntax::FuncType;

/// What comes back from a leaving call: no chunks, and the invariant.
fn back_from_outside(
    state: &mut TrackedState,
    setting: &Setting<'_>,
    ty: &FuncType,
) -> Result<(), Refused>
    requires { IsTrue (well_formed_notes setting.now.notes) }
    ensures done { Gives refusal_of (λ _. state.new.state) result (back_from_outside setting.now ty.now state.old.state) }
    ensures kept { IfOk result (λ _. Grown state.old state.new) }
{
    state.clear_chunks();
    let returning = Renewing {
        globals: setting.private_globals(),
        pages: true,
        result: result_type_of(ty),
        fixed: &[],
        args: &[],
    };
    renew(state, &returning, setting.invariant_of())
}

/// A leaving call, on the state without its arguments.
#[tactic(auto, using(symbolic_state::proofs::Grows::grown))]
fn leave(
    alloc: Global,
    state: &mut TrackedState,
    setting: &Setting<'_>,
    ty: &FuncType,
    with: &With,
) -> Result<(), Refused>
    requires notes { IsTrue (well_formed_notes setting.now.notes) }
    requires with { IsTrue (well_formed_with with.now) }
    ensures done { Gives refusal_of (λ _. state.new.state) result (leaving setting.now ty.now with.now state.old.state) }
    ensures kept { IfOk result (λ _. Grown state.old state.new) }
{
    trap(alloc, state, setting, with)?;
    back_from_outside(state, setting, ty)
}

/// A leaving call.
#[tactic(auto, using(symbolic_state::proofs::Grows::grown))]
pub(crate) fn call_outside(
    alloc: Global,
    state: &mut TrackedState,
    setting: &Setting<'_>,
    ty: &FuncType,
    with: &With,
) -> Result<(), Refused>
    requires notes { IsTrue (well_formed_notes setting.now.notes) }
    requires with { IsTrue (well_formed_with with.now) }
    ensures done { Gives refusal_of (λ _. state.new.state) result (called setting.now ty.now None with.now state.old.state) }
    ensures kept { IfOk result (λ _. Grown state.old state.new) }
{
    let count = argument_count(ty)?;
    state.pop(count);
    leave(alloc, state, setting, ty, with)
}

/// What comes back from an inner call whose precondition was entailed with these terms and chunks.
#[tactic(auto, using(symbolic_state::proofs::Grows::grown))]
pub fn come_back(
    state: &mut TrackedState,
    setting: &Setting<'_>,
    contract: &Contract,
    ty: &FuncType,
    args: &[TermId],
    terms: &[TermId],
    chunks: &[u32],
) -> Result<(), Refused>
    requires contract { IsTrue (well_formed_contract contract.now) }
    requires args { All (λ id. id < length state.old.terms) args.now }
    requires terms { All (λ id. id < length state.old.terms) terms.now }
    ensures done { Gives refusal_of (λ _. state.new.state) result (comes_back setting.now contract.now ty.now (map (tree_at state.old.terms) args.now) state.old.state (left_by (map (tree_at state.old.terms) terms.now) chunks.now state.old.state)) }
    ensures kept { IfOk result (λ _. Grown state.old state.new) }
{
    state.keep_chunks(chunks)?;
    let returning = Renewing {
        globals: setting.private_globals(),
        pages: true,
        result: result_type_of(ty),
        fixed: terms,
        args,
    };
    renew(state, &returning, &contract.post)
}

/// An inner call, on the state without its arguments.
#[tactic(auto, using(symbolic_state::proofs::Grows::grown, crate::proofs::Listed::listed))]
pub(crate) fn enter(
    alloc: Global,
    state: &mut TrackedState,
    setting: &Setting<'_>,
    contract: &Contract,
    ty: &FuncType,
    args: &[TermId],
    with: &With,
) -> Result<(), Refused>
    requires contract { IsTrue (well_formed_contract contract.now) }
    requires args { All (λ id. id < length state.old.terms) args.now }
    requires with { IsTrue (well_formed_with with.now) }
    ensures done { Gives refusal_of (λ _. state.new.state) result (inner setting.now contract.now ty.now (map (tree_at state.old.terms) args.now) with.now state.old.state) }
    ensures kept { IfOk result (λ _. Grown state.old state.new) }
{
    let before = Wanted {
        assertion: &contract.pre,
        args,
        result: None,
        fixed: &[],
    };
    let terms = entail(alloc, state, &before, with)?;
    come_back(
        state,
        setting,
        contract,
        ty,
        args,
        terms.as_slice(),
        with.chunks.as_slice(),
    )
}

/// An inner call.
#[tactic(auto, using(symbolic_state::proofs::Grows::grown))]
fn call_inside(
    alloc: Global,
    state: &mut TrackedState,
    setting: &Setting<'_>,
    contract: &Contract,
    ty: &FuncType,
    with: &With,
) -> Result<(), Refused>
    requires contract { IsTrue (well_formed_contract contract.now) }
    requires with { IsTrue (well_formed_with with.now) }
    ensures done { Gives refusal_of (λ _. state.new.state) result (called setting.now ty.now (Some contract.now) with.now state.old.state) }
    ensures kept { IfOk result (λ _. Grown state.old state.new) }
{
    let count = argument_count(ty)?;
    let args = arguments(alloc, state, ty, count)?;
    state.pop(count);
    enter(alloc, state, setting, contract, ty, args.as_slice(), with)
}

/// A direct call: inner where the callee has a contract, and leaving otherwise.
fn called(
    alloc: Global,
    state: &mut TrackedState,
    setting: &Setting<'_>,
    ty: &FuncType,
    contract: Option<&Contract>,
    with: &With,
) -> Result<(), Refused>
    requires notes { IsTrue (well_formed_notes setting.now.notes) }
    requires contract { IsTrue (where_there well_formed_contract (option_map (λ c. c.now) contract)) }
    requires with { IsTrue (well_formed_with with.now) }
    ensures done { Gives refusal_of (λ _. state.new.state) result (called setting.now ty.now (option_map (λ c. c.now) contract.entry) with.now state.old.state) }
    ensures kept { IfOk result (λ _. Grown state.old state.new) }
{
    match contract {
        Some(contract) => call_inside(alloc, state, setting, contract, ty, with),
        None => call_outside(alloc, state, setting, ty, with),
    }
}

/// `call`.
#[tactic(auto, using(crate::proofs::WellFormed::contracts))]
pub fn call(
    alloc: Global,
    state: &mut TrackedState,
    setting: &Setting<'_>,
    f: u32,
    used: &Use,
) -> Result<(), Refused>
    requires notes { IsTrue (well_formed_notes setting.now.notes) }
    requires used { IsTrue (well_formed_use used.now) }
    ensures done { Gives refusal_of (λ _. state.new.state) result (call setting.now f used.now state.old.state) }
    ensures kept { IfOk result (λ _. Grown state.old state.new) }
{
    let nothing = no_with(alloc);
    let with = with_of(used, &nothing)?;
    let contract = setting.contract_of(f);
    called(alloc, state, setting, setting.func_type(f), contract, with)
}
