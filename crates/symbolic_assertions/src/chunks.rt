// Chunks that are those of an assertion.

ghost use Rattle.std.specs.Prelude.{◌≡◌, ◌<◌, ◌≤◌, ◌&&◌, not, [], length, map};
ghost use Rattle.term_trees.specs.Leaves.{replaced};
ghost use Rattle.term_trees.specs.Same.{same};
ghost use Rattle.notes.specs.declared.chunk.Chunk.TheVariants as tree;
ghost use Rattle.term_logic.specs.Table.{tree_at};
ghost use Rattle.term_logic.specs.Formulas.{formula_bound, formula_of};
ghost use Rattle.term_logic.specs.Leaves.{LeavesWithin, leaves_of};
ghost use Rattle.heap_logic.specs.Heaps.{chunk_of, ChunkWithin};
ghost use Rattle.outline_rules.specs.Chunks.{same_chunk, replaced_chunk};
ghost use Rattle.outline_rules.specs.Entailment.{is_among, is_chunk, are_chunks};

use crate::facts::is_formula;
use heap_logic::IdChunk;
use notes::Chunk;
use symbolic_state::{TrackedState, is_among};
use term_logic::{IdFormula, LeafIds, Term, TermId, TermTable};

/// Whether the term at a position is this one, once the leaves of this one are replaced.
fn is_term(table: &TermTable, leaves: &LeafIds<'_>, t: &Term, id: TermId) -> bool
    requires leaves { LeavesWithin (length table.now) leaves.now }
    requires term { id < length table.now }
    ensures { result ≡ same (tree_at table.now id) (replaced (leaves_of table.now leaves.now) t.now) }
{
    table.is_replaced(t, leaves, id)
}

/// Whether a chunk is the cell of this width with the terms at these positions, once its leaves are replaced.
fn is_cell(
    table: &TermTable,
    leaves: &LeafIds<'_>,
    chunk: &Chunk,
    width: u32,
    at: TermId,
    value: TermId,
) -> bool
    requires leaves { LeavesWithin (length table.now) leaves.now }
    requires at { at < length table.now }
    requires value { value < length table.now }
    ensures { result ≡ same_chunk (tree.Cell width (tree_at table.now at) (tree_at table.now value)) (replaced_chunk (leaves_of table.now leaves.now) chunk.now) }
{
    match chunk {
        Chunk::Cell {
            width: other,
            at: a,
            value: v,
        } => width == *other && (is_term(table, leaves, a, at) && is_term(table, leaves, v, value)),
        Chunk::Region { .. } => false,
        Chunk::Row { .. } => false,
    }
}

/// Whether a chunk is the region with the terms at these positions, once its leaves are replaced.
fn is_region(
    table: &TermTable,
    leaves: &LeafIds<'_>,
    chunk: &Chunk,
    at: TermId,
    len: TermId,
) -> bool
    requires leaves { LeavesWithin (length table.now) leaves.now }
    requires at { at < length table.now }
    requires len { len < length table.now }
    ensures { result ≡ same_chunk (tree.Region (tree_at table.now at) (tree_at table.now len)) (replaced_chunk (leaves_of table.now leaves.now) chunk.now) }
{
    match chunk {
        Chunk::Cell { .. } => false,
        Chunk::Region { at: a, len: n } => {
            is_term(table, leaves, a, at) && is_term(table, leaves, n, len)
        }
        Chunk::Row { .. } => false,
    }
}

/// Whether a chunk is the row of this width with the terms at these positions and this formula, once its leaves are replaced.
fn is_row(
    table: &TermTable,
    leaves: &LeafIds<'_>,
    chunk: &Chunk,
    width: u32,
    at: TermId,
    count: TermId,
    each: &IdFormula,
) -> bool
    requires leaves { LeavesWithin (length table.now) leaves.now }
    requires at { at < length table.now }
    requires count { count < length table.now }
    requires each { formula_bound each.now ≤ length table.now }
    ensures { result ≡ same_chunk (tree.Row width (tree_at table.now at) (tree_at table.now count) (formula_of table.now each.now)) (replaced_chunk (leaves_of table.now leaves.now) chunk.now) }
{
    match chunk {
        Chunk::Cell { .. } => false,
        Chunk::Region { .. } => false,
        Chunk::Row {
            width: other,
            at: a,
            count: n,
            each: f,
        } => width == *other
            && (is_term(table, leaves, a, at)
                && (is_term(table, leaves, n, count) && is_formula(table, leaves, f, each))),
    }
}

/// Whether a chunk over a table is this one, once the leaves of this one are replaced.
fn is_owned(table: &TermTable, leaves: &LeafIds<'_>, chunk: &Chunk, owned: &IdChunk) -> bool
    requires leaves { LeavesWithin (length table.now) leaves.now }
    requires owned { ChunkWithin (length table.now) owned.now }
    ensures { result ≡ same_chunk (chunk_of table.now owned.now) (replaced_chunk (leaves_of table.now leaves.now) chunk.now) }
{
    match owned {
        IdChunk::Cell { width, at, value } => is_cell(table, leaves, chunk, *width, *at, *value),
        IdChunk::Region { at, len } => is_region(table, leaves, chunk, *at, *len),
        IdChunk::Row {
            width,
            at,
            count,
            each,
        } => is_row(table, leaves, chunk, *width, *at, *count, each),
    }
}

/// Whether the chunk with a number is this one, once the leaves of this one are replaced.
fn is_chunk(state: &TrackedState, leaves: &LeafIds<'_>, k: u32, chunk: &Chunk) -> bool
    requires { LeavesWithin (length state.now.terms) leaves.now }
    ensures { result ≡ is_chunk state.now.state k (replaced_chunk (leaves_of state.now.terms leaves.now) chunk.now) }
{
    match state.chunk(k) {
        Some(owned) => is_owned(state.table(), leaves, chunk, owned),
        None => false,
    }
}

/// Whether the chunk with a number is this one, once the leaves of this one are replaced, and the number isn't among those before.
fn is_unused_chunk(
    state: &TrackedState,
    leaves: &LeafIds<'_>,
    before: &[u32],
    k: u32,
    chunk: &Chunk,
) -> bool
    requires { LeavesWithin (length state.now.terms) leaves.now }
    ensures { result ≡ (not (is_among before.now k) && is_chunk state.now.state k (replaced_chunk (leaves_of state.now.terms leaves.now) chunk.now)) }
{
    !is_among(before, k) && is_chunk(state, leaves, k, chunk)
}

/// Whether the chunks with these numbers are these, one by one, once the leaves of these are replaced; no number comes twice.
#[tactic(auto, using(crate::proofs::Using::using_chunks))]
pub(crate) fn are_chunks(
    state: &TrackedState,
    leaves: &LeafIds<'_>,
    numbers: &[u32],
    chunks: &[Chunk],
) -> bool
    requires { LeavesWithin (length state.now.terms) leaves.now }
    ensures { result ≡ are_chunks state.now.state [] numbers.now (map (replaced_chunk (leaves_of state.now.terms leaves.now)) chunks.now) }
{
    let mut rest = chunks;
    for i in 0..numbers.len() {
        let k = numbers[i];
        let Some((chunk, more)) = rest.split_first() else {
            return false;
        };
        if !is_unused_chunk(state, leaves, &numbers[..i], k, chunk) {
            return false;
        }
        rest = more;
    }
    rest.is_empty()
}
