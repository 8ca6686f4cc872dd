ghost use Rattle.std.specs.Prelude.{◌≡◌, IfOk};

use heap_logic::IdChunk;
use std::alloc::Global;
use wasm_values::{List, OutOfMemory};

/// A list of equal items.
pub(crate) fn copied<T: Copy + Drop>(alloc: Global, items: &[T]) -> Result<List<T>, OutOfMemory>
    ensures { IfOk result (λ list. list ≡ items.now) }
{
    let mut list = List::new(alloc);
    for item in items {
        list.push(*item)?;
    }
    Ok(list)
}

/// A chunk that equals this one.
pub(crate) fn copied_chunk(alloc: Global, chunk: &IdChunk) -> Result<IdChunk, OutOfMemory>
    ensures { IfOk result (λ c. c ≡ chunk.now) }
{
    match chunk {
        IdChunk::Cell { width, at, value } => Ok(IdChunk::Cell {
            width: *width,
            at: *at,
            value: *value,
        }),
        IdChunk::Region { at, len } => Ok(IdChunk::Region { at: *at, len: *len }),
        IdChunk::Row {
            width,
            at,
            count,
            each,
        } => Ok(IdChunk::Row {
            width: *width,
            at: *at,
            count: *count,
            each: each.copy(alloc)?,
        }),
    }
}

/// A list of equal chunks.
pub(crate) fn copied_chunks(alloc: Global, chunks: &[IdChunk]) -> Result<List<IdChunk>, OutOfMemory>
    ensures { IfOk result (λ list. list ≡ chunks.now) }
{
    let mut list = List::new(alloc);
    for chunk in chunks {
        list.push(copied_chunk(alloc, chunk)?)?;
    }
    Ok(list)
}
