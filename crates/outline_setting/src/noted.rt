//! Where the notes of functions stand.

ghost use Rattle.std.specs.Prelude.{IfOk, nat_eq};
ghost use Rattle.std.specs.HashMap.{get};
ghost use Rattle.outline_setting.specs.words.Kept.{IsNoted};

use notes::FuncNotes;
use std::alloc::Global;
use std::collections::HashMap;
use wasm_values::OutOfMemory;

/// For each function that has notes, the place of the first.
pub(crate) fn places_of(
    alloc: Global,
    funcs: &[FuncNotes],
) -> Result<HashMap<u32, usize>, OutOfMemory>
    ensures { IfOk result (λ places. IsNoted funcs.now (get nat_eq places)) }
{
    let mut places = HashMap::new(alloc);
    for place in (0..funcs.len()).rev() {
        places.insert(funcs[place].func, place)?;
    }
    Ok(places)
}
