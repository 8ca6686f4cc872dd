// The locals that code sets, as typed variables again.

ghost use Rattle.std.specs.Prelude.{◌≡◌, slice_get, option_map, IfOk};
ghost use Rattle.wasm_values.specs.Answers.{Gives};
ghost use Rattle.outline_rules.specs.Blocks.{locals_renewed};
ghost use Rattle.symbolic_state.specs.Refused.{refusal_of};
ghost use Rattle.symbolic_state.specs.Growth.{Grown};
ghost use Rattle.block_changes.specs.Seen.{changes_seen};
ghost use Rattle.renewed_locals.specs.words.Locals.{local_taken, local_changed, types_of};

use block_changes::ChangeSet;
use symbolic_state::{Refused, TrackedState};
use wasm_values::ValType;

/// The type of the local at a place, if there is one.
fn local_type(state: &TrackedState, k: usize) -> Option<ValType>
    ensures { result ≡ option_map (λ e. e.0) (slice_get state.now.state.locals k) }
{
    match state.local_at(k) {
        Some((ty, _)) => Some(ty),
        None => None,
    }
}

/// A local is a typed variable again, where it takes part.
#[tactic(auto, using(crate::proofs::Types::same, crate::proofs::Types::kept))]
fn renew_taken(
    state: &mut TrackedState,
    takes_part: bool,
    k: usize,
    ty: ValType,
) -> Result<(), Refused>
    ensures done { Gives refusal_of (λ _. state.new.state) result (local_taken takes_part k ty state.old.state) }
    ensures types { IfOk result (λ _. types_of state.new.state ≡ types_of state.old.state) }
    ensures kept { IfOk result (λ _. Grown state.old state.new) }
{
    if takes_part {
        state.renew_local(k, ty)
    } else {
        Ok(())
    }
}

/// The local at a place is a typed variable again, if there is one and it takes part.
#[tactic(auto, using(crate::proofs::Types::same))]
fn renew_at(state: &mut TrackedState, takes_part: bool, k: usize) -> Result<(), Refused>
    ensures done { Gives refusal_of (λ _. state.new.state) result (local_changed takes_part k (option_map (λ e. e.0) (slice_get state.old.state.locals k)) state.old.state) }
    ensures types { IfOk result (λ _. types_of state.new.state ≡ types_of state.old.state) }
    ensures kept { IfOk result (λ _. Grown state.old state.new) }
{
    match local_type(state, k) {
        Some(ty) => renew_taken(state, takes_part, k, ty),
        None => Ok(()),
    }
}

/// The locals that may change are typed variables again.
#[tactic(auto, using(crate::proofs::Types::renewing))]
pub(crate) fn renew_locals(state: &mut TrackedState, changes: &ChangeSet) -> Result<(), Refused>
    ensures done { Gives refusal_of (λ _. state.new.state) result (locals_renewed (changes_seen changes.now).locals 0 state.old.state.locals state.old.state) }
    ensures kept { IfOk result (λ _. Grown state.old state.new) }
{
    let count = state.local_count();
    for k in 0..count {
        renew_at(state, changes.sets_local(k), k)?;
    }
    Ok(())
}
