// The initial state with its chunks.

ghost use Rattle.std.specs.Prelude.{IsTrue};
ghost use Rattle.std.specs.List.{list_all};
ghost use Rattle.wasm_values.specs.Answers.{Gives};
ghost use Rattle.notes.specs.WellFormed.{well_formed_chunk};
ghost use Rattle.outline_rules.specs.Initial.{initial_with_chunks};
ghost use Rattle.symbolic_state.specs.Refused.{refusal_of};
ghost use Rattle.outline_initial.specs.words.Parts.{chunks_checked, chunks_wanted};

use initial_memory::are_chunks_right;
use notes::{Chunk, Reason};
use outline_entry::initial_state;
use outline_setting::Setting;
use std::alloc::Global;
use symbolic_renewal::assume_chunks;
use symbolic_state::{Refused, TrackedState};

/// The chunks have to keep the rules.
fn chunks_wanted(alloc: Global, setting: &Setting<'_>, chunks: &[Chunk]) -> Result<(), Refused>
    requires { IsTrue (list_all well_formed_chunk chunks.now) }
    ensures { Gives refusal_of (λ _. tt) result (chunks_wanted setting.now chunks.now) }
{
    if are_chunks_right(alloc, setting, chunks)? {
        Ok(())
    } else {
        Err(Refused::Reason(Reason::Initial))
    }
}

/// Chunks that keep the rules are added.
fn add_chunks(
    alloc: Global,
    state: &mut TrackedState,
    setting: &Setting<'_>,
    chunks: &[Chunk],
) -> Result<(), Refused>
    requires { IsTrue (list_all well_formed_chunk chunks.now) }
    ensures { Gives refusal_of (λ _. state.new.state) result (chunks_checked setting.now chunks.now state.old.state) }
{
    chunks_wanted(alloc, setting, chunks)?;
    assume_chunks(state, chunks)
}

/// The initial state with its chunks.
pub(crate) fn initial_with_chunks(
    alloc: Global,
    setting: &Setting<'_>,
    chunks: &[Chunk],
) -> Result<TrackedState, Refused>
    requires { IsTrue (list_all well_formed_chunk chunks.now) }
    ensures { Gives refusal_of (λ t. t.state) result (initial_with_chunks setting.now chunks.now) }
{
    let mut state = initial_state(alloc, setting)?;
    add_chunks(alloc, &mut state, setting, chunks)?;
    Ok(state)
}
