ghost use Rattle.std.specs.Prelude.{◌≡◌, ◌+◌, ◌≤◌, map, min, sum_by, length};
ghost use Rattle.std.specs.List.{All};
ghost use Rattle.std.specs.Option.{option_map_or};
ghost use Rattle.term_trees.specs.Formulas.{formula_nodes};
ghost use Rattle.term_logic.specs.Formulas.{formula_bound, formula_of};
ghost use Rattle.outline_rules.specs.Chunks.{chunk_nodes};
ghost use Rattle.outline_rules.specs.States.{nodes_of};
ghost use Rattle.heap_logic.specs.Heaps.{chunk_of, seen, ChunkWithin, HeapWithin};
ghost use Rattle.heap_logic.specs.words.Effects.{effect_of, new_nodes, nodes_at, rest_nodes, ChangeWithin};

use crate::change::Change;
use crate::heap::{IdChunk, SymHeap};
use term_logic::{IdFormula, LeafIds, TermTable};

/// The nodes of a chunk, or the last `usize` where there are more.
fn chunk_nodes(table: &TermTable, chunk: &IdChunk) -> usize
    requires { ChunkWithin (length table.now) chunk.now }
    ensures { result ≡ min (chunk_nodes (chunk_of table.now chunk.now)) usize.MAX }
{
    match chunk {
        IdChunk::Cell {
            width: _,
            at,
            value,
        } => table.nodes_of(*at) as usize + table.nodes_of(*value) as usize,
        IdChunk::Region { at, len } => table.nodes_of(*at) as usize + table.nodes_of(*len) as usize,
        IdChunk::Row {
            width: _,
            at,
            count,
            each,
        } => {
            let terms = table.nodes_of(*at) as usize + table.nodes_of(*count) as usize;
            terms.saturating_add(table.formula_nodes(each))
        }
    }
}

/// The nodes of chunks, or the last `usize` where there are more.
fn chunks_nodes(table: &TermTable, chunks: &[IdChunk]) -> usize
    requires { All (λ c. ChunkWithin (length table.now) c) chunks.now }
    ensures { result ≡ min (sum_by chunk_nodes (map (chunk_of table.now) chunks.now)) usize.MAX }
{
    let mut nodes: usize = 0;
    for chunk in chunks {
        nodes = nodes.saturating_add(chunk_nodes(table, chunk));
    }
    nodes
}

/// The nodes of facts, or the last `usize` where there are more.
fn facts_nodes(table: &TermTable, facts: &[IdFormula]) -> usize
    requires { All (λ f. formula_bound f ≤ length table.now) facts.now }
    ensures { result ≡ min (sum_by formula_nodes (map (formula_of table.now) facts.now)) usize.MAX }
{
    let mut nodes: usize = 0;
    for fact in facts {
        nodes = nodes.saturating_add(table.formula_nodes(fact));
    }
    nodes
}

/// The nodes of what is new, or the last `usize` where there are more.
pub(crate) fn new_nodes(table: &TermTable, heap: &SymHeap, change: &Change) -> usize
    requires { ChangeWithin (length table.now) heap.now change.now }
    ensures { result ≡ min (new_nodes (effect_of table.now change.now)) usize.MAX }
{
    let _ = heap;
    let facts = facts_nodes(table, change.facts.as_slice());
    let chunk = chunk_nodes(table, &change.becomes);
    let more = chunks_nodes(table, change.more.as_slice());
    facts.saturating_add(chunk).saturating_add(more)
}

/// The nodes of the chunk with a number, if there is one, or the last `usize` where there are more.
fn nodes_at(table: &TermTable, heap: &SymHeap, chunk: u32) -> usize
    requires { HeapWithin (length table.now) heap.now }
    ensures { result ≡ min (nodes_at (map (chunk_of table.now) heap.now.chunks) chunk) usize.MAX }
{
    match heap.chunks.as_slice().get(chunk as usize) {
        Some(found) => chunk_nodes(table, found),
        None => 0,
    }
}

/// The nodes of a state but for those of a chunk and of one that goes, where it has so many.
pub(crate) fn rest_nodes(
    table: &TermTable,
    heap: &SymHeap,
    slots: &LeafIds<'_>,
    chunk: u32,
    gone: Option<u32>,
    nodes: usize,
) -> usize
    requires heap { HeapWithin (length table.now) heap.now }
    requires nodes { nodes ≡ nodes_of (seen table.now heap.now slots.now) }
    ensures { result ≡ min (rest_nodes chunk gone (seen table.now heap.now slots.now)) usize.MAX }
{
    let _ = slots;
    let less = nodes.saturating_sub(nodes_at(table, heap, chunk));
    match gone {
        Some(d) => less.saturating_sub(nodes_at(table, heap, d)),
        None => less,
    }
}
