// The initial part of notes.

ghost use Rattle.std.specs.Prelude.{IsTrue};
ghost use Rattle.wasm_values.specs.Answers.{Gives};
ghost use Rattle.notes.specs.WellFormed.{well_formed_initial, well_formed_notes};
ghost use Rattle.outline_rules.specs.Initial.{initial_outlined};
ghost use Rattle.symbolic_state.specs.Refused.{refusal_of};
ghost use Rattle.outline_initial.specs.words.Parts.{moved_and_started};

use crate::chunks::initial_with_chunks;
use crate::starting::started;
use notes::Initial;
use outline_setting::Setting;
use std::alloc::Global;
use symbolic_moves::make_moves;
use symbolic_state::{Refused, TrackedState};

/// The moves of the initial part, and the start.
fn move_and_start(
    alloc: Global,
    state: &mut TrackedState,
    setting: &Setting<'_>,
    initial: &Initial,
) -> Result<(), Refused>
    requires notes { IsTrue (well_formed_notes setting.now.notes) }
    requires initial { IsTrue (well_formed_initial initial.now) }
    ensures { Gives refusal_of (λ _. tt) result (moved_and_started setting.now initial.now state.old.state) }
{
    make_moves(alloc, state, setting, initial.moves.as_slice())?;
    started(alloc, state, setting, initial)
}

/// The initial state, its chunks, its moves, and what they entail.
fn outlined(alloc: Global, setting: &Setting<'_>, initial: &Initial) -> Result<(), Refused>
    requires notes { IsTrue (well_formed_notes setting.now.notes) }
    requires initial { IsTrue (well_formed_initial initial.now) }
    ensures { Gives refusal_of (λ _. tt) result (initial_outlined setting.now initial.now) }
{
    let mut state = initial_with_chunks(alloc, setting, initial.chunks.as_slice())?;
    move_and_start(alloc, &mut state, setting, initial)
}

/// The initial part of the notes: the initial state with its chunks meets the invariant after its moves, or the precondition of
/// an inner start function.
pub fn initial_outlined(alloc: Global, setting: &Setting<'_>) -> Result<(), Refused>
    requires notes { IsTrue (well_formed_notes setting.now.notes) }
    ensures { Gives refusal_of (λ _. tt) result (initial_outlined setting.now setting.now.notes.initial) }
{
    outlined(alloc, setting, &setting.notes().initial)
}
