// A state after a block or at the start of a loop's body.

ghost use Rattle.std.specs.Prelude.{◌≡◌, filter, IfOk, IsTrue};
ghost use Rattle.wasm_values.specs.Answers.{Gives};
ghost use Rattle.notes.specs.WellFormed.{well_formed_assertion};
ghost use Rattle.outline_rules.specs.Renewal.{renewed};
ghost use Rattle.outline_rules.specs.Blocks.{block_renewing, resumed};
ghost use Rattle.symbolic_state.specs.Refused.{refusal_of};
ghost use Rattle.symbolic_state.specs.Growth.{Grown};
ghost use Rattle.block_changes.specs.Seen.{changes_seen};
ghost use Rattle.renewed_locals.specs.words.Locals.{locals_left};

use crate::locals::renew_locals;
use block_changes::ChangeSet;
use notes::Assertion;
use outline_setting::Setting;
use std::alloc::Global;
use symbolic_renewal::{Renewing, renew};
use symbolic_state::{Refused, TrackedState};
use wasm_values::{List, OutOfMemory, ValType};

/// Those of these globals that may change.
fn changed_globals(
    alloc: Global,
    globals: &[(usize, ValType)],
    changes: &ChangeSet,
) -> Result<List<(usize, ValType)>, OutOfMemory>
    ensures { IfOk result (λ changed. changed ≡ filter (λ g. (changes_seen changes.now).globals g.0) globals.now) }
{
    let mut changed = List::new(alloc);
    for global in globals {
        if changes.sets_global(global.0) {
            changed.push((global.0, global.1))?;
        }
    }
    Ok(changed)
}

/// The locals that may change are typed variables again, and no chunk is left.
#[tactic(auto, using(symbolic_state::proofs::Grows::grown))]
fn leave_locals(state: &mut TrackedState, changes: &ChangeSet) -> Result<(), Refused>
    ensures done { Gives refusal_of (λ _. state.new.state) result (locals_left (changes_seen changes.now).locals state.old.state) }
    ensures kept { IfOk result (λ _. Grown state.old state.new) }
{
    renew_locals(state, changes)?;
    state.clear_chunks();
    Ok(())
}

/// Renewal after a block by its label's assertion.
fn renew_block(
    alloc: Global,
    state: &mut TrackedState,
    setting: &Setting<'_>,
    changes: &ChangeSet,
    takes: Option<ValType>,
    assertion: &Assertion,
) -> Result<(), Refused>
    requires { IsTrue (well_formed_assertion assertion.now) }
    ensures done { Gives refusal_of (λ _. state.new.state) result (renewed (block_renewing setting.now (changes_seen changes.now) takes) assertion.now state.old.state) }
    ensures kept { IfOk result (λ _. Grown state.old state.new) }
{
    let globals = changed_globals(alloc, setting.private_globals(), changes)?;
    let renewing = Renewing {
        globals: globals.as_slice(),
        pages: changes.may_grow(),
        result: takes,
        fixed: &[],
        args: &[],
    };
    renew(state, &renewing, assertion)
}

/// The state after a block or `if`, and at the start of a loop's body, from that at the block's entry: the locals that its code
/// sets are typed variables, no chunk is left, and a renewal by the label's assertion follows.
#[tactic(auto, using(symbolic_state::proofs::Grows::grown))]
pub fn resume(
    alloc: Global,
    state: &mut TrackedState,
    setting: &Setting<'_>,
    changes: &ChangeSet,
    takes: Option<ValType>,
    assertion: &Assertion,
) -> Result<(), Refused>
    requires { IsTrue (well_formed_assertion assertion.now) }
    ensures done { Gives refusal_of (λ _. state.new.state) result (resumed setting.now (changes_seen changes.now) (record { takes = takes; assertion = assertion.now }) state.old.state) }
    ensures kept { IfOk result (λ _. Grown state.old state.new) }
{
    leave_locals(state, changes)?;
    renew_block(alloc, state, setting, changes, takes, assertion)
}
