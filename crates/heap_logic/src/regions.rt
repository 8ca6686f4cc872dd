ghost use Rattle.std.specs.Prelude.{◌≡◌, ◌+◌, ◌<◌, ◌≤◌, length, nat_le, IfOk, IsTrue};
ghost use Rattle.wasm_values.specs.Answers.{Gives};
ghost use Rattle.term_logic.specs.Table.{tree_at};
ghost use Rattle.term_logic.specs.Extends.{Extends};
ghost use Rattle.wasm_values.specs.declared.limit.LimitWord.TheVariants as limit;
ghost use Rattle.notes.specs.WellFormed.{is_width};
ghost use Rattle.outline_rules.specs.Refusals.{within};
ghost use Rattle.heap_logic.specs.Faults.{refusal_of};
ghost use Rattle.heap_logic.specs.Heaps.{chunk_of, ChunkWithin, HeapWithin};
ghost use Rattle.heap_logic.specs.words.Effects.{bare, effect_of, ChangeWithin};
ghost use Rattle.heap_logic.specs.words.Plans.{split_wanted, split_plan, merge_wanted, merge_plan, forgotten_made, forget_plan, view_wanted, view_plan};

use crate::change::Change;
use crate::commit::{at_most, limited};
use crate::facts::{says_at_most, says_natural, says_sum};
use crate::fault::MoveFault;
use crate::heap::{IdChunk, SymHeap};
use crate::ranges::cell_range;
use crate::terms::{difference, number, scaled, sum, variable};
use crate::wanted::{chunk_at, region_at, wanted};
use crate::widths::width_by;
use notes::Reason;
use std::alloc::Global;
use term_logic::{TermId, TermTable};
use wasm_values::LimitWord;

/// What `split` wants at a position, and the address and the length of the region.
fn split_wanted(
    table: &TermTable,
    heap: &SymHeap,
    c: u32,
    k: TermId,
    f: u32,
    g: u32,
) -> Result<(TermId, TermId), MoveFault>
    requires heap { HeapWithin (length table.now) heap.now }
    requires position { k < length table.now }
    ensures wanted { Gives refusal_of (λ p. (tree_at table.now p.0, tree_at table.now p.1)) result (split_wanted c (tree_at table.now k) f g (bare table.now heap.now)) }
    ensures within { IfOk result (λ p. (p.0 < length table.now) × (p.1 < length table.now)) }
    ensures place { IfOk result (λ _. c < length heap.now.chunks) }
{
    let (at, len) = region_at(table, heap, c)?;
    wanted(Reason::Fact, says_natural(table, heap, f, k))?;
    wanted(Reason::Fact, says_at_most(table, heap, g, k, len))?;
    Ok((at, len))
}

/// `split` at a position that is taken.
pub(crate) fn split(
    alloc: Global,
    table: &mut TermTable,
    heap: &SymHeap,
    c: u32,
    k: TermId,
    f: u32,
    g: u32,
) -> Result<Change, MoveFault>
    requires heap { HeapWithin (length table.old) heap.now }
    requires position { k < length table.old }
    ensures planned { Gives refusal_of (effect_of table.new) result (split_plan c (tree_at table.old k) f g (bare table.old heap.now)) }
    ensures within { IfOk result (λ change. ChangeWithin (length table.new) heap.now change) }
    ensures kept { Extends table.old table.new }
{
    let (at, len) = split_wanted(table, heap, c, k, f, g)?;
    let next = sum(table, at, k)?;
    let rest = difference(table, len, k)?;
    let mut change = Change::turned(alloc, c, IdChunk::Region { at, len: k });
    change.more.push(IdChunk::Region {
        at: next,
        len: rest,
    })?;
    Ok(change)
}

/// What `merge` wants, and the address and the lengths of the regions.
fn merge_wanted(
    table: &TermTable,
    heap: &SymHeap,
    c: u32,
    d: u32,
    f: u32,
) -> Result<(TermId, TermId, TermId), MoveFault>
    requires { HeapWithin (length table.now) heap.now }
    ensures wanted { Gives refusal_of (λ p. (tree_at table.now p.0, tree_at table.now p.1, tree_at table.now p.2)) result (merge_wanted c d f (bare table.now heap.now)) }
    ensures within { IfOk result (λ p. (p.0 < length table.now) × (p.1 < length table.now) × (p.2 < length table.now)) }
    ensures places { IfOk result (λ _. (c < length heap.now.chunks) × (d < length heap.now.chunks) × (d ≡ c → ⊥)) }
{
    let (at, first) = region_at(table, heap, c)?;
    let (next, second) = region_at(table, heap, d)?;
    wanted(Reason::Chunk, !(c == d))?;
    wanted(Reason::Fact, says_sum(table, heap, f, next, at, first))?;
    Ok((at, first, second))
}

/// `merge`.
pub(crate) fn merge(
    alloc: Global,
    table: &mut TermTable,
    heap: &SymHeap,
    c: u32,
    d: u32,
    f: u32,
) -> Result<Change, MoveFault>
    requires { HeapWithin (length table.old) heap.now }
    ensures planned { Gives refusal_of (effect_of table.new) result (merge_plan c d f (bare table.old heap.now)) }
    ensures within { IfOk result (λ change. ChangeWithin (length table.new) heap.now change) }
    ensures kept { Extends table.old table.new }
{
    let (at, first, second) = merge_wanted(table, heap, c, d, f)?;
    let len = sum(table, first, second)?;
    Ok(Change {
        gone: Some(d),
        ..Change::turned(alloc, c, IdChunk::Region { at, len })
    })
}

/// The address and the length of the bytes of a cell or a row, within the limit.
#[tactic(auto, using(crate::proofs::Takings::makings))]
fn forgotten(table: &mut TermTable, chunk: &IdChunk) -> Result<(TermId, TermId), MoveFault>
    requires { ChunkWithin (length table.old) chunk.now }
    ensures made { Gives refusal_of (λ p. (tree_at table.new p.0, tree_at table.new p.1)) result (forgotten_made (chunk_of table.old chunk.now)) }
    ensures within { IfOk result (λ p. (p.0 < length table.new) × (p.1 < length table.new)) }
    ensures kept { Extends table.old table.new }
{
    match chunk {
        IdChunk::Cell {
            width,
            at,
            value: _,
        } => {
            let len = number(table, *width as u64)?;
            Ok((*at, len))
        }
        IdChunk::Row {
            width,
            at,
            count,
            each: _,
        } => {
            let len = scaled(table, *width as u64, *count)?;
            Ok((*at, len))
        }
        IdChunk::Region { at: _, len: _ } => Err(MoveFault::NoMove(Reason::Chunk)),
    }
}

/// `forget`.
pub(crate) fn forget(
    alloc: Global,
    table: &mut TermTable,
    heap: &SymHeap,
    c: u32,
) -> Result<Change, MoveFault>
    requires { HeapWithin (length table.old) heap.now }
    ensures planned { Gives refusal_of (effect_of table.new) result (forget_plan c (bare table.old heap.now)) }
    ensures within { IfOk result (λ change. ChangeWithin (length table.new) heap.now change) }
    ensures kept { Extends table.old table.new }
{
    let chunk = chunk_at(table, heap, c)?;
    let (at, len) = forgotten(table, chunk)?;
    Ok(Change::turned(alloc, c, IdChunk::Region { at, len }))
}

/// What `view` wants, and the width and the address.
fn view_wanted(table: &TermTable, heap: &SymHeap, c: u32) -> Result<(u32, TermId), MoveFault>
    requires { HeapWithin (length table.now) heap.now }
    ensures wanted { Gives refusal_of (λ p. (p.0, tree_at table.now p.1)) result (view_wanted c (bare table.now heap.now)) }
    ensures width { IfOk result (λ p. IsTrue (is_width p.0)) }
    ensures within { IfOk result (λ p. p.1 < length table.now) }
    ensures place { IfOk result (λ _. c < length heap.now.chunks) }
{
    let (at, len) = region_at(table, heap, c)?;
    let width = width_by(table.num_of(len))?;
    Ok((width, at))
}

/// The limit of variables with so many more.
pub(crate) fn room(heap: &SymHeap, more: usize) -> Result<(), MoveFault>
    ensures room { Gives refusal_of (λ _. tt) result (within limit.Variables 1000000 (heap.now.vars + more)) }
    ensures small { IfOk result (λ _. heap.now.vars + more ≤ 1000000) }
{
    limited(
        LimitWord::Variables,
        at_most(1_000_000, heap.vars as usize, more),
    )
}

/// `view`.
#[tactic(auto, using(crate::proofs::Growing::growths))]
pub(crate) fn view(
    alloc: Global,
    table: &mut TermTable,
    heap: &SymHeap,
    c: u32,
) -> Result<Change, MoveFault>
    requires { HeapWithin (length table.old) heap.now }
    ensures planned { Gives refusal_of (effect_of table.new) result (view_plan c (bare table.old heap.now)) }
    ensures within { IfOk result (λ change. ChangeWithin (length table.new) heap.now change) }
    ensures kept { Extends table.old table.new }
{
    let (width, at) = view_wanted(table, heap, c)?;
    room(heap, 1)?;
    let value = variable(table, heap.vars)?;
    let facts = cell_range(alloc, table, width, value)?;
    Ok(Change {
        variables: 1,
        facts,
        ..Change::turned(alloc, c, IdChunk::Cell { width, at, value })
    })
}
