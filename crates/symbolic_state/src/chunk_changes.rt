ghost use Rattle.std.specs.Prelude.{◌≡◌, ◌+◌, ◌<◌, ◌≤◌, [], ◌∷◌, length, map, min, sum_by, slice_set, IfOk};
ghost use Rattle.std.specs.List.{All};
ghost use Rattle.wasm_values.specs.Answers.{Gives};
ghost use Rattle.notes.specs.declared.chunk.Chunk.{Chunk};
ghost use Rattle.outline_rules.specs.Chunks.{chunk_nodes};
ghost use Rattle.outline_rules.specs.States.{nodes_of, settled, with_chunk, with_chunks};
ghost use Rattle.heap_logic.specs.Heaps.{chunk_of, ChunkWithin, HasWidth};
ghost use Rattle.symbolic_state.specs.Refused.{refusal_of};
ghost use Rattle.symbolic_state.specs.Growth.{Grown};
ghost use Rattle.symbolic_state.specs.Chunks.{SmallRow};

use crate::refused::Refused;
use crate::tracked::TrackedState;
use heap_logic::IdChunk;
use term_logic::TermTable;
use wasm_values::List;

/// The nodes of a chunk, or the last `usize` where there are more.
pub(crate) fn chunk_size(table: &TermTable, chunk: &IdChunk) -> usize
    requires { ChunkWithin (length table.now) chunk.now }
    ensures { result ≡ min (chunk_nodes (chunk_of table.now chunk.now)) usize.MAX }
{
    match chunk {
        IdChunk::Cell {
            width: _,
            at,
            value,
        } => table.nodes_of(*at) as usize + table.nodes_of(*value) as usize,
        IdChunk::Region { at, len } => table.nodes_of(*at) as usize + table.nodes_of(*len) as usize,
        IdChunk::Row {
            width: _,
            at,
            count,
            each,
        } => {
            let terms = table.nodes_of(*at) as usize + table.nodes_of(*count) as usize;
            terms.saturating_add(table.formula_nodes(each))
        }
    }
}

/// The nodes of chunks, or the last `usize` where there are more.
pub(crate) fn chunks_size(table: &TermTable, chunks: &[IdChunk]) -> usize
    requires { All (λ c. ChunkWithin (length table.now) c) chunks.now }
    ensures { result ≡ min (sum_by chunk_nodes (map (chunk_of table.now) chunks.now)) usize.MAX }
{
    let mut nodes: usize = 0;
    for chunk in chunks {
        nodes = nodes.saturating_add(chunk_size(table, chunk));
    }
    nodes
}

/// A chunk in the place of the one with a number, if there is one.
#[tactic(auto, using(crate::proofs::Lists::global_sets))]
fn put_chunk(chunks: &mut List<IdChunk>, k: usize, chunk: IdChunk)
    ensures { chunks.new ≡ slice_set chunks.old k chunk }
{
    if k < chunks.len() {
        chunks.set(k, chunk);
    }
}

impl TrackedState {
    /// The nodes of a chunk whose parts are within the limit.
    fn small_size(&self, chunk: &IdChunk) -> usize
        requires within { ChunkWithin (length self.now.terms) chunk.now }
        requires small { SmallRow (chunk_of self.now.terms chunk.now) }
        ensures nodes { chunk_nodes (chunk_of self.now.terms chunk.now) ≡ result }
        ensures small { result ≤ 1000000 }
    {
        match chunk {
            IdChunk::Cell {
                width: _,
                at,
                value,
            } => self.two_nodes(*at, *value),
            IdChunk::Region { at, len } => self.two_nodes(*at, *len),
            IdChunk::Row {
                width: _,
                at,
                count,
                each,
            } => self.two_nodes(*at, *count) + self.table.formula_nodes(each),
        }
    }

    /// The nodes of the state with a chunk of so many nodes in the place of the one with a number.
    #[tactic(auto, using(crate::proofs::Chunked::chunk_nodes_changed))]
    fn nodes_with_chunk(&self, k: u32, size: usize) -> usize
        requires { size ≤ 1000000 }
        ensures nodes { (c : Chunk) → chunk_nodes c ≡ size → result ≡ nodes_of (with_chunk k c self.now.state) }
        ensures small { result ≤ 2000000 }
    {
        match self.chunk(k) {
            Some(before) => (self.nodes + size).saturating_sub(chunk_size(&self.table, before)),
            None => self.nodes,
        }
    }

    /// A chunk in the place of the one with a number, if there is one. The state has so many nodes then.
    fn replace_chunk(&mut self, k: u32, chunk: IdChunk, nodes: usize)
        requires within { ChunkWithin (length self.old.terms) chunk }
        requires width { HasWidth chunk }
        requires nodes { nodes ≡ nodes_of (with_chunk k (chunk_of self.old.terms chunk) self.old.state) }
        requires room { nodes ≤ 1000000 }
        ensures state { self.new ≡ record self.old { state = with_chunk k (chunk_of self.old.terms chunk) self.old.state } }
        ensures kept { Grown self.old self.new }
    {
        put_chunk(&mut self.state.heap.chunks, k as usize, chunk);
        self.nodes = nodes;
    }

    /// The nodes of the state with another chunk, which there is room for.
    #[tactic(auto, using(crate::proofs::Chunked::set_chunks))]
    fn room_for_change(&self, k: u32, chunk: &IdChunk) -> Result<usize, Refused>
        requires within { ChunkWithin (length self.now.terms) chunk.now }
        requires small { SmallRow (chunk_of self.now.terms chunk.now) }
        ensures done { Gives refusal_of (λ _. with_chunk k (chunk_of self.now.terms chunk.now) self.now.state) result (settled [] (with_chunk k (chunk_of self.now.terms chunk.now) self.now.state)) }
        ensures nodes { IfOk result (λ n. n ≡ nodes_of (with_chunk k (chunk_of self.now.terms chunk.now) self.now.state)) }
        ensures room { IfOk result (λ n. n ≤ 1000000) }
    {
        let size = self.small_size(chunk);
        let nodes = self.nodes_with_chunk(k, size);
        self.room(true, 0, 0, 0, nodes)?;
        Ok(nodes)
    }

    /// A chunk in the place of the one with a number, if there is one.
    pub fn set_chunk(&mut self, k: u32, chunk: IdChunk) -> Result<(), Refused>
        requires within { ChunkWithin (length self.old.terms) chunk }
        requires width { HasWidth chunk }
        requires small { SmallRow (chunk_of self.old.terms chunk) }
        ensures done { Gives refusal_of (λ _. self.new.state) result (settled [] (with_chunk k (chunk_of self.old.terms chunk) self.old.state)) }
        ensures terms { IfOk result (λ _. self.new.terms ≡ self.old.terms) }
        ensures kept { IfOk result (λ _. Grown self.old self.new) }
    {
        let nodes = self.room_for_change(k, &chunk)?;
        self.replace_chunk(k, chunk, nodes);
        Ok(())
    }

    /// The state without chunks.
    #[tactic(auto, using(crate::proofs::Chunked::no_chunks))]
    pub fn clear_chunks(&mut self)
        ensures state { self.new ≡ record self.old { state = with_chunks [] self.old.state } }
        ensures kept { Grown self.old self.new }
    {
        let size = chunks_size(&self.table, self.state.heap.chunks.as_slice());
        self.state.heap.chunks = List::new(self.alloc);
        self.nodes -= size;
    }
}
