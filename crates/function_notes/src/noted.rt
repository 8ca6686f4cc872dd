// Where the note of an instruction stands.

ghost use Rattle.std.specs.Prelude.{IfOk, nat_eq};
ghost use Rattle.std.specs.HashMap.{get};
ghost use Rattle.function_notes.specs.words.Kept.{IsNoted};

use notes::Note;
use std::alloc::Global;
use std::collections::HashMap;
use wasm_values::OutOfMemory;

/// For each instruction that has a note, the place of the first.
pub(crate) fn places_of(alloc: Global, notes: &[Note]) -> Result<HashMap<u32, usize>, OutOfMemory>
    ensures { IfOk result (λ places. IsNoted notes.now (get nat_eq places)) }
{
    let mut places = HashMap::new(alloc);
    for place in (0..notes.len()).rev() {
        places.insert(notes[place].at, place)?;
    }
    Ok(places)
}
