ghost use Rattle.std.specs.Prelude.{◌≡◌, ◌<◌, length, IfOk};
ghost use Rattle.wasm_values.specs.Answers.{Gives};
ghost use Rattle.term_logic.specs.Table.{tree_at};
ghost use Rattle.term_logic.specs.Extends.{Extends};
ghost use Rattle.outline_rules.specs.HeapMoves.{address_of, with_address, extent_of, with_extent, forgotten};
ghost use Rattle.heap_logic.specs.Faults.{refusal_of};
ghost use Rattle.heap_logic.specs.Heaps.{chunk_of, ChunkWithin, HasWidth, HeapWithin};
ghost use Rattle.heap_logic.specs.words.Effects.{bare, effect_of, ChangeWithin};
ghost use Rattle.heap_logic.specs.words.Plans.{readdr_plan, reval_plan, relen_plan};

use crate::change::Change;
use crate::facts::says_equal;
use crate::fault::MoveFault;
use crate::heap::{IdChunk, SymHeap};
use crate::wanted::{cell_at, chunk_at, wanted};
use notes::Reason;
use std::alloc::Global;
use term_logic::{TermId, TermTable};
use wasm_values::OutOfMemory;

/// The address of a chunk.
fn address_of(table: &TermTable, chunk: &IdChunk) -> TermId
    requires { ChunkWithin (length table.now) chunk.now }
    ensures address { tree_at table.now result ≡ address_of (chunk_of table.now chunk.now) }
    ensures within { result < length table.now }
{
    let _ = table;
    match chunk {
        IdChunk::Cell {
            width: _,
            at,
            value: _,
        } => *at,
        IdChunk::Region { at, len: _ } => *at,
        IdChunk::Row {
            width: _,
            at,
            count: _,
            each: _,
        } => *at,
    }
}

/// The chunk with another address.
fn with_address(
    alloc: Global,
    table: &TermTable,
    chunk: &IdChunk,
    address: TermId,
) -> Result<IdChunk, OutOfMemory>
    requires chunk { ChunkWithin (length table.now) chunk.now }
    requires address { address < length table.now }
    ensures chunk { IfOk result (λ c. chunk_of table.now c ≡ with_address (tree_at table.now address) (chunk_of table.now chunk.now)) }
    ensures within { IfOk result (λ c. ChunkWithin (length table.now) c) }
    ensures width { HasWidth chunk.now → IfOk result (λ c. HasWidth c) }
{
    let _ = table;
    match chunk {
        IdChunk::Cell {
            width,
            at: _,
            value,
        } => Ok(IdChunk::Cell {
            width: *width,
            at: address,
            value: *value,
        }),
        IdChunk::Region { at: _, len } => Ok(IdChunk::Region {
            at: address,
            len: *len,
        }),
        IdChunk::Row {
            width,
            at: _,
            count,
            each,
        } => Ok(IdChunk::Row {
            width: *width,
            at: address,
            count: *count,
            each: each.copy(alloc)?,
        }),
    }
}

/// The length of a region, or the count of a row.
fn extent_of(table: &TermTable, chunk: &IdChunk) -> Result<TermId, MoveFault>
    requires { ChunkWithin (length table.now) chunk.now }
    ensures extent { Gives refusal_of (tree_at table.now) result (extent_of (chunk_of table.now chunk.now)) }
    ensures within { IfOk result (λ id. id < length table.now) }
{
    let _ = table;
    match chunk {
        IdChunk::Cell {
            width: _,
            at: _,
            value: _,
        } => Err(MoveFault::NoMove(Reason::Chunk)),
        IdChunk::Region { at: _, len } => Ok(*len),
        IdChunk::Row {
            width: _,
            at: _,
            count,
            each: _,
        } => Ok(*count),
    }
}

/// The region with another length, or the row with another count. A cell stays.
fn with_extent(
    alloc: Global,
    table: &TermTable,
    chunk: &IdChunk,
    extent: TermId,
) -> Result<IdChunk, OutOfMemory>
    requires chunk { ChunkWithin (length table.now) chunk.now }
    requires extent { extent < length table.now }
    ensures chunk { IfOk result (λ c. chunk_of table.now c ≡ with_extent (tree_at table.now extent) (chunk_of table.now chunk.now)) }
    ensures within { IfOk result (λ c. ChunkWithin (length table.now) c) }
    ensures width { HasWidth chunk.now → IfOk result (λ c. HasWidth c) }
{
    let _ = table;
    match chunk {
        IdChunk::Cell { width, at, value } => Ok(IdChunk::Cell {
            width: *width,
            at: *at,
            value: *value,
        }),
        IdChunk::Region { at, len: _ } => Ok(IdChunk::Region {
            at: *at,
            len: extent,
        }),
        IdChunk::Row {
            width,
            at,
            count: _,
            each,
        } => Ok(IdChunk::Row {
            width: *width,
            at: *at,
            count: extent,
            each: each.copy(alloc)?,
        }),
    }
}

/// `readdr` with a term that is taken.
pub(crate) fn readdr(
    alloc: Global,
    table: &TermTable,
    heap: &SymHeap,
    c: u32,
    address: TermId,
    f: u32,
) -> Result<Change, MoveFault>
    requires heap { HeapWithin (length table.now) heap.now }
    requires address { address < length table.now }
    ensures planned { Gives refusal_of (effect_of table.now) result (readdr_plan c (tree_at table.now address) f (bare table.now heap.now)) }
    ensures within { IfOk result (λ change. ChangeWithin (length table.now) heap.now change) }
{
    let chunk = chunk_at(table, heap, c)?;
    wanted(
        Reason::Fact,
        says_equal(table, heap, f, address_of(table, chunk), address),
    )?;
    let becomes = with_address(alloc, table, chunk, address)?;
    Ok(Change::turned(alloc, c, becomes))
}

/// `reval` with a term that is taken.
pub(crate) fn reval(
    alloc: Global,
    table: &TermTable,
    heap: &SymHeap,
    c: u32,
    value: TermId,
    f: u32,
) -> Result<Change, MoveFault>
    requires heap { HeapWithin (length table.now) heap.now }
    requires value { value < length table.now }
    ensures planned { Gives refusal_of (effect_of table.now) result (reval_plan c (tree_at table.now value) f (bare table.now heap.now)) }
    ensures within { IfOk result (λ change. ChangeWithin (length table.now) heap.now change) }
{
    let (width, at, before) = cell_at(table, heap, c)?;
    wanted(Reason::Fact, says_equal(table, heap, f, before, value))?;
    Ok(Change::turned(alloc, c, IdChunk::Cell { width, at, value }))
}

/// `relen` with a term that is taken.
pub(crate) fn relen(
    alloc: Global,
    table: &TermTable,
    heap: &SymHeap,
    c: u32,
    extent: TermId,
    f: u32,
) -> Result<Change, MoveFault>
    requires heap { HeapWithin (length table.now) heap.now }
    requires extent { extent < length table.now }
    ensures planned { Gives refusal_of (effect_of table.now) result (relen_plan c (tree_at table.now extent) f (bare table.now heap.now)) }
    ensures within { IfOk result (λ change. ChangeWithin (length table.now) heap.now change) }
{
    let chunk = chunk_at(table, heap, c)?;
    let before = extent_of(table, chunk)?;
    wanted(Reason::Fact, says_equal(table, heap, f, before, extent))?;
    let becomes = with_extent(alloc, table, chunk, extent)?;
    Ok(Change::turned(alloc, c, becomes))
}
