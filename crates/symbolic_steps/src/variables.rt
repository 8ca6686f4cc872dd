// Instructions on locals and globals.

ghost use Rattle.std.specs.Prelude.{◌≡◌, IfOk};
ghost use Rattle.wasm_values.specs.Answers.{Gives};
ghost use Rattle.outline_rules.specs.Settings.{Setting, global_type};
ghost use Rattle.outline_rules.specs.Instructions.{local_get, local_set, local_tee, global_get, global_set};
ghost use Rattle.symbolic_state.specs.Refused.{refusal_of};
ghost use Rattle.symbolic_state.specs.Growth.{Grown};

use crate::entries::local;
use crate::forms::unused;
use notes::Use;
use symbolic_state::{Refused, TrackedState};
use wasm_values::ValType;

/// `local.get`.
pub fn local_get(state: &mut TrackedState, used: &Use, x: u32) -> Result<(), Refused>
    ensures done { Gives refusal_of (λ _. state.new.state) result (local_get x used.now state.old.state) }
    ensures kept { IfOk result (λ _. Grown state.old state.new) }
{
    unused(used)?;
    let (ty, id) = local(state, x)?;
    state.push(ty, id)
}

/// `local.tee`.
pub fn local_tee(state: &mut TrackedState, used: &Use, x: u32) -> Result<(), Refused>
    ensures done { Gives refusal_of (λ _. state.new.state) result (local_tee x used.now state.old.state) }
    ensures kept { IfOk result (λ _. Grown state.old state.new) }
{
    unused(used)?;
    let (_, id) = state.entry(0)?;
    state.set_local(x, id)
}

/// `local.set`.
pub fn local_set(state: &mut TrackedState, used: &Use, x: u32) -> Result<(), Refused>
    ensures done { Gives refusal_of (λ _. state.new.state) result (local_set x used.now state.old.state) }
    ensures kept { IfOk result (λ _. Grown state.old state.new) }
{
    unused(used)?;
    let (_, id) = state.entry(0)?;
    state.pop(1);
    state.set_local(x, id)
}

/// `global.get` of a global of a type.
pub fn global_get(state: &mut TrackedState, used: &Use, x: u32, ty: ValType) -> Result<(), Refused>
    ensures done { (c : Setting) → global_type c x ≡ ty → Gives refusal_of (λ _. state.new.state) result (global_get c x used.now state.old.state) }
    ensures kept { IfOk result (λ _. Grown state.old state.new) }
{
    unused(used)?;
    match state.global(x) {
        Some(id) => state.push(ty, id),
        None => {
            let _ = state.push_typed(ty)?;
            Ok(())
        }
    }
}

/// `global.set`: of one that has no term nothing changes.
pub fn global_set(state: &mut TrackedState, used: &Use, x: u32) -> Result<(), Refused>
    ensures done { Gives refusal_of (λ _. state.new.state) result (global_set x used.now state.old.state) }
    ensures kept { IfOk result (λ _. Grown state.old state.new) }
{
    unused(used)?;
    let (_, id) = state.entry(0)?;
    state.pop(1);
    match state.global(x) {
        Some(_) => state.set_global(x, id),
        None => {
            state.settled();
            Ok(())
        }
    }
}
