// Loads and stores: of the private memory by a cell, of another they may trap.

ghost use Rattle.std.specs.Prelude.{◌≡◌, IfOk, IsTrue};
ghost use Rattle.wasm_values.specs.Answers.{Gives};
ghost use Rattle.notes.specs.WellFormed.{well_formed_with, well_formed_use, well_formed_notes};
ghost use Rattle.outline_rules.specs.Memory.{load_other, load, store_other, store};
ghost use Rattle.symbolic_calls.specs.words.Parts.{trap_or_typed};
ghost use Rattle.symbolic_state.specs.Refused.{refusal_of};
ghost use Rattle.symbolic_state.specs.Growth.{Grown};

use crate::trapping::{trap, trap_with};
use notes::{Use, With};
use outline_setting::Setting;
use std::alloc::Global;
use symbolic_state::{Refused, TrackedState};
use symbolic_steps::{load_private, store_private};
use wasm_syntax::{LoadOp, StoreOp, loaded_type};
use wasm_values::ValType;

/// A typed variable is pushed, where a trap is allowed.
#[tactic(auto, using(symbolic_state::proofs::Grows::grown))]
fn trap_or_typed(
    alloc: Global,
    state: &mut TrackedState,
    setting: &Setting<'_>,
    ty: ValType,
    with: &With,
) -> Result<(), Refused>
    requires notes { IsTrue (well_formed_notes setting.now.notes) }
    requires with { IsTrue (well_formed_with with.now) }
    ensures done { Gives refusal_of (λ _. state.new.state) result (trap_or_typed setting.now ty with.now state.old.state) }
    ensures kept { IfOk result (λ _. Grown state.old state.new) }
{
    trap(alloc, state, setting, with)?;
    let _ = state.push_typed(ty)?;
    Ok(())
}

/// A load from a memory that isn't private: it may trap, and gives a typed variable.
#[tactic(auto, using(symbolic_state::proofs::Grows::grown))]
fn load_other(
    alloc: Global,
    state: &mut TrackedState,
    setting: &Setting<'_>,
    op: LoadOp,
    used: &Use,
) -> Result<(), Refused>
    requires notes { IsTrue (well_formed_notes setting.now.notes) }
    requires used { IsTrue (well_formed_use used.now) }
    ensures done { Gives refusal_of (λ _. state.new.state) result (load_other setting.now op used.now state.old.state) }
    ensures kept { IfOk result (λ _. Grown state.old state.new) }
{
    let with = trap_with(used)?;
    state.pop(1);
    trap_or_typed(alloc, state, setting, loaded_type(op), with)
}

/// A load.
pub fn load(
    alloc: Global,
    state: &mut TrackedState,
    setting: &Setting<'_>,
    op: LoadOp,
    offset: u32,
    used: &Use,
) -> Result<(), Refused>
    requires notes { IsTrue (well_formed_notes setting.now.notes) }
    requires used { IsTrue (well_formed_use used.now) }
    ensures done { Gives refusal_of (λ _. state.new.state) result (load setting.now op offset used.now state.old.state) }
    ensures kept { IfOk result (λ _. Grown state.old state.new) }
{
    if setting.is_memory_private() {
        load_private(state, used, op, offset)
    } else {
        load_other(alloc, state, setting, op, used)
    }
}

/// A store in a memory that isn't private: it may trap.
#[tactic(auto, using(symbolic_state::proofs::Grows::grown))]
fn store_other(
    alloc: Global,
    state: &mut TrackedState,
    setting: &Setting<'_>,
    used: &Use,
) -> Result<(), Refused>
    requires notes { IsTrue (well_formed_notes setting.now.notes) }
    requires used { IsTrue (well_formed_use used.now) }
    ensures done { Gives refusal_of (λ _. state.new.state) result (store_other setting.now used.now state.old.state) }
    ensures kept { IfOk result (λ _. Grown state.old state.new) }
{
    let with = trap_with(used)?;
    state.pop(2);
    trap(alloc, state, setting, with)
}

/// A store.
pub fn store(
    alloc: Global,
    state: &mut TrackedState,
    setting: &Setting<'_>,
    op: StoreOp,
    offset: u32,
    used: &Use,
) -> Result<(), Refused>
    requires notes { IsTrue (well_formed_notes setting.now.notes) }
    requires used { IsTrue (well_formed_use used.now) }
    ensures done { Gives refusal_of (λ _. state.new.state) result (store setting.now op offset used.now state.old.state) }
    ensures kept { IfOk result (λ _. Grown state.old state.new) }
{
    if setting.is_memory_private() {
        store_private(state, used, op, offset)
    } else {
        store_other(alloc, state, setting, used)
    }
}
