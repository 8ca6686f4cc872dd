ghost use Rattle.std.specs.Prelude.{◌≡◌, ◌<◌, ◌≤◌, map, length, IfOk, IfSome, IsTrue};
ghost use Rattle.std.specs.Option.{option_map};
ghost use Rattle.wasm_values.specs.Answers.{Gives};
ghost use Rattle.term_logic.specs.Table.{tree_at};
ghost use Rattle.term_logic.specs.Formulas.{formula_bound, formula_of};
ghost use Rattle.notes.specs.declared.reason.Reason.TheVariants as reason;
ghost use Rattle.notes.specs.WellFormed.{is_width};
ghost use Rattle.outline_rules.specs.Refusals.{wanted, found};
ghost use Rattle.outline_rules.specs.HeapMoves.{chunk_at, region_at, cell_at, row_at};
ghost use Rattle.heap_logic.specs.Faults.{refusal_of};
ghost use Rattle.heap_logic.specs.Heaps.{chunk_of, ChunkWithin, HasWidth, HasWidths, HeapWithin};
ghost use Rattle.heap_logic.specs.words.Effects.{bare};
ghost use Rattle.heap_logic.specs.words.Wanted.{equation_in, bound_in, order_in};

use crate::fault::MoveFault;
use crate::heap::{IdChunk, SymHeap};
use notes::Reason;
use term_logic::{IdFormula, TermId, TermTable};

/// A test that is wanted, and the reason where it isn't met.
pub(crate) fn wanted(reason: Reason, met: bool) -> Result<(), MoveFault>
    ensures { Gives refusal_of (λ _. tt) result (wanted reason met) }
{
    if met {
        Ok(())
    } else {
        Err(MoveFault::NoMove(reason))
    }
}

/// The sides of the fact with a number, where it is an equation.
pub(crate) fn equation_in(table: &TermTable, heap: &SymHeap, fact: u32) -> Option<(TermId, TermId)>
    requires { HeapWithin (length table.now) heap.now }
    ensures sides { option_map (λ p. (tree_at table.now p.0, tree_at table.now p.1)) result ≡ equation_in (map (formula_of table.now) heap.now.facts) fact }
    ensures within { IfSome result (λ p. (p.0 < length table.now) × (p.1 < length table.now)) }
{
    match heap.facts.as_slice().get(fact as usize) {
        Some(f) => f.eq_of(table),
        None => None,
    }
}

/// The sides of the fact with a number, where it is `a <= b`.
pub(crate) fn bound_in(table: &TermTable, heap: &SymHeap, fact: u32) -> Option<(TermId, TermId)>
    requires { HeapWithin (length table.now) heap.now }
    ensures sides { option_map (λ p. (tree_at table.now p.0, tree_at table.now p.1)) result ≡ bound_in (map (formula_of table.now) heap.now.facts) fact }
    ensures within { IfSome result (λ p. (p.0 < length table.now) × (p.1 < length table.now)) }
{
    match heap.facts.as_slice().get(fact as usize) {
        Some(f) => f.le_of(table),
        None => None,
    }
}

/// The sides of the fact with a number, where it is `a < b`.
pub(crate) fn order_in(table: &TermTable, heap: &SymHeap, fact: u32) -> Option<(TermId, TermId)>
    requires { HeapWithin (length table.now) heap.now }
    ensures sides { option_map (λ p. (tree_at table.now p.0, tree_at table.now p.1)) result ≡ order_in (map (formula_of table.now) heap.now.facts) fact }
    ensures within { IfSome result (λ p. (p.0 < length table.now) × (p.1 < length table.now)) }
{
    match heap.facts.as_slice().get(fact as usize) {
        Some(f) => f.lt_of(table),
        None => None,
    }
}

/// The chunk with a number.
pub(crate) fn chunk_at<'h>(
    table: &TermTable,
    heap: &'h SymHeap,
    chunk: u32,
) -> Result<&'h IdChunk, MoveFault>
    requires { HeapWithin (length table.now) heap.now }
    ensures chunk { Gives refusal_of (λ c. chunk_of table.now c.now) result (chunk_at (bare table.now heap.now) chunk) }
    ensures within { IfOk result (λ c. ChunkWithin (length table.now) c.now) }
    ensures place { IfOk result (λ _. chunk < length heap.now.chunks) }
    ensures width { HasWidths heap.now → IfOk result (λ c. HasWidth c.now) }
{
    let _ = table;
    match heap.chunks.as_slice().get(chunk as usize) {
        Some(found) => Ok(found),
        None => Err(MoveFault::NoMove(Reason::Chunk)),
    }
}

/// The address and the length of the region with a number.
pub(crate) fn region_at(
    table: &TermTable,
    heap: &SymHeap,
    chunk: u32,
) -> Result<(TermId, TermId), MoveFault>
    requires { HeapWithin (length table.now) heap.now }
    ensures region { Gives refusal_of (λ p. (tree_at table.now p.0, tree_at table.now p.1)) result (region_at (bare table.now heap.now) chunk) }
    ensures within { IfOk result (λ p. (p.0 < length table.now) × (p.1 < length table.now)) }
    ensures place { IfOk result (λ _. chunk < length heap.now.chunks) }
{
    let _ = table;
    match heap.chunks.as_slice().get(chunk as usize) {
        Some(IdChunk::Region { at, len }) => Ok((*at, *len)),
        _ => Err(MoveFault::NoMove(Reason::Chunk)),
    }
}

/// The width, the address and the value of the cell with a number.
pub(crate) fn cell_at(
    table: &TermTable,
    heap: &SymHeap,
    chunk: u32,
) -> Result<(u32, TermId, TermId), MoveFault>
    requires { HeapWithin (length table.now) heap.now }
    ensures cell { Gives refusal_of (λ p. (p.0, tree_at table.now p.1, tree_at table.now p.2)) result (cell_at (bare table.now heap.now) chunk) }
    ensures within { IfOk result (λ p. (p.1 < length table.now) × (p.2 < length table.now)) }
    ensures place { IfOk result (λ _. chunk < length heap.now.chunks) }
    ensures width { HasWidths heap.now → IfOk result (λ p. IsTrue (is_width p.0)) }
{
    let _ = table;
    match heap.chunks.as_slice().get(chunk as usize) {
        Some(IdChunk::Cell { width, at, value }) => Ok((*width, *at, *value)),
        _ => Err(MoveFault::NoMove(Reason::Chunk)),
    }
}

/// The parts of a row.
#[derive(Clone, Copy)]
pub(crate) struct RowParts<'h> {
    pub(crate) width: u32,
    pub(crate) at: TermId,
    pub(crate) count: TermId,
    pub(crate) each: &'h IdFormula,
}

/// The row with a number.
pub(crate) fn row_at<'h>(
    table: &TermTable,
    heap: &'h SymHeap,
    chunk: u32,
) -> Result<RowParts<'h>, MoveFault>
    requires { HeapWithin (length table.now) heap.now }
    ensures row { Gives refusal_of (λ r. (r.width, tree_at table.now r.at, tree_at table.now r.count, formula_of table.now r.each.now)) result (row_at (bare table.now heap.now) chunk) }
    ensures within { IfOk result (λ r. (r.at < length table.now) × (r.count < length table.now) × (formula_bound r.each.now ≤ length table.now)) }
    ensures place { IfOk result (λ _. chunk < length heap.now.chunks) }
    ensures width { HasWidths heap.now → IfOk result (λ r. IsTrue (is_width r.width)) }
{
    let _ = table;
    match heap.chunks.as_slice().get(chunk as usize) {
        Some(
            IdChunk::Row {
                width,
                at,
                count,
                each,
            },
        ) => Ok(RowParts {
            width: *width,
            at: *at,
            count: *count,
            each,
        }),
        _ => Err(MoveFault::NoMove(Reason::Chunk)),
    }
}
