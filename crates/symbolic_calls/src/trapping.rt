// Traps: the invariant is entailed, since control is outside once a call has ended in a trap.

ghost use Rattle.std.specs.Prelude.{◌≡◌, IfOk, IsTrue};
ghost use Rattle.wasm_values.specs.Answers.{Gives};
ghost use Rattle.notes.specs.WellFormed.{well_formed_with, well_formed_use, well_formed_notes};
ghost use Rattle.outline_rules.specs.Uses.{trap_of};
ghost use Rattle.outline_rules.specs.Calls.{trapping};
ghost use Rattle.symbolic_calls.specs.words.Parts.{trapped};
ghost use Rattle.symbolic_state.specs.Refused.{refusal_of};
ghost use Rattle.symbolic_state.specs.Growth.{Grown};

use notes::{Use, With};
use outline_setting::Setting;
use std::alloc::Global;
use symbolic_assertions::{Wanted, entails};
use symbolic_state::{Refused, TrackedState};
use symbolic_steps::trap_of;

/// A trap is allowed: the state entails the invariant.
#[tactic(auto, using(crate::proofs::WellFormed::invariants))]
pub fn trap(
    alloc: Global,
    state: &mut TrackedState,
    setting: &Setting<'_>,
    with: &With,
) -> Result<(), Refused>
    requires notes { IsTrue (well_formed_notes setting.now.notes) }
    requires with { IsTrue (well_formed_with with.now) }
    ensures done { Gives refusal_of (λ _. tt) result (trapping setting.now with.now state.old.state) }
    ensures state { IfOk result (λ _. state.new.state ≡ state.old.state) }
    ensures kept { IfOk result (λ _. Grown state.old state.new) }
{
    let invariant = Wanted {
        assertion: setting.invariant_of(),
        args: &[],
        result: None,
        fixed: &[],
    };
    entails(alloc, state, &invariant, with)
}

/// A `trap`: the `with` for the invariant.
#[tactic(auto, using(crate::proofs::WellFormed::traps))]
pub(crate) fn trap_with(used: &Use) -> Result<&With, Refused>
    requires { IsTrue (well_formed_use used.now) }
    ensures taken { Gives refusal_of (λ w. w.now) result (trap_of used.now) }
    ensures well_formed { IfOk result (λ w. IsTrue (well_formed_with w.now)) }
{
    trap_of(used)
}

/// `unreachable`: a trap, after which the code doesn't go on.
pub fn unreachable(
    alloc: Global,
    state: &mut TrackedState,
    setting: &Setting<'_>,
    used: &Use,
) -> Result<(), Refused>
    requires notes { IsTrue (well_formed_notes setting.now.notes) }
    requires used { IsTrue (well_formed_use used.now) }
    ensures done { Gives refusal_of (λ _. tt) result (trapped setting.now used.now state.old.state) }
    ensures state { IfOk result (λ _. state.new.state ≡ state.old.state) }
    ensures kept { IfOk result (λ _. Grown state.old state.new) }
{
    let with = trap_with(used)?;
    trap(alloc, state, setting, with)
}
