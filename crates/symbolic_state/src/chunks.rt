ghost use Rattle.std.specs.Prelude.{◌≡◌, ◌+◌, ◌<◌, ◌≤◌, nat_le, ◌∷◌, [], length, map, min, sum_by, IfOk};
ghost use Rattle.std.specs.List.{All, list_all};
ghost use Rattle.wasm_values.specs.Answers.{Gives};
ghost use Rattle.wasm_values.specs.declared.limit.LimitWord.TheVariants as limit;
ghost use Rattle.term_trees.specs.Terms.{node_count};
ghost use Rattle.term_logic.specs.Table.{tree_at};
ghost use Rattle.outline_rules.specs.Refusals.{limited};
ghost use Rattle.outline_rules.specs.Chunks.{chunk_nodes};
ghost use Rattle.outline_rules.specs.States.{nodes_of, with_chunks, with_more_chunks, without_chunk};
ghost use Rattle.outline_rules.specs.HeapMoves.{parts_nodes};
ghost use Rattle.outline_rules.specs.Renewal.{chunk_added};
ghost use Rattle.heap_logic.specs.Heaps.{chunk_of, ChunkWithin, HasWidth};
ghost use Rattle.symbolic_state.specs.Refused.{refusal_of};
ghost use Rattle.symbolic_state.specs.Growth.{Grown};

use crate::refused::Refused;
use crate::tracked::TrackedState;
use heap_logic::IdChunk;
use term_logic::TermId;
use wasm_values::{List, OutOfMemory};

impl TrackedState {
    /// The nodes of two terms.
    pub(crate) fn two_nodes(&self, a: TermId, b: TermId) -> usize
        requires first { a < length self.now.terms }
        requires second { b < length self.now.terms }
        ensures nodes { result ≡ node_count (tree_at self.now.terms a) + node_count (tree_at self.now.terms b) }
        ensures first { node_count (tree_at self.now.terms a) ≤ 4096 }
        ensures second { node_count (tree_at self.now.terms b) ≤ 4096 }
        ensures small { result ≤ 8192 }
    {
        self.table.nodes_of(a) as usize + self.table.nodes_of(b) as usize
    }

    /// The nodes of a chunk, each part of which is within the limit.
    #[tactic(auto, using(crate::proofs::Chunked::parts))]
    fn chunk_count_within(&self, chunk: &IdChunk) -> Result<usize, Refused>
        requires { ChunkWithin (length self.now.terms) chunk.now }
        ensures done { Gives refusal_of (λ _. tt) result (limited limit.Nodes (list_all (λ n. nat_le n 4096) (parts_nodes (chunk_of self.now.terms chunk.now)))) }
        ensures nodes { IfOk result (λ n. n ≡ chunk_nodes (chunk_of self.now.terms chunk.now)) }
        ensures small { IfOk result (λ n. n ≤ 12288) }
    {
        match chunk {
            IdChunk::Cell {
                width: _,
                at,
                value,
            } => Ok(self.two_nodes(*at, *value)),
            IdChunk::Region { at, len } => Ok(self.two_nodes(*at, *len)),
            IdChunk::Row {
                width: _,
                at,
                count,
                each,
            } => {
                let terms = self.two_nodes(*at, *count);
                let nodes = self.formula_count(each)?;
                Ok(terms + nodes)
            }
        }
    }

    /// One more chunk, of so many nodes.
    pub(crate) fn append_chunk(&mut self, chunk: IdChunk, nodes: usize) -> Result<(), OutOfMemory>
        requires within { ChunkWithin (length self.old.terms) chunk }
        requires width { HasWidth chunk }
        requires nodes { nodes ≡ chunk_nodes (chunk_of self.old.terms chunk) }
        requires count { length self.old.state.chunks < 1024 }
        requires room { nodes_of self.old.state + nodes ≤ 1000000 }
        ensures state { IfOk result (λ _. self.new ≡ record self.old { state = with_more_chunks (chunk_of self.old.terms chunk ∷ []) self.old.state }) }
    {
        self.state.heap.chunks.push(chunk)?;
        self.nodes += nodes;
        Ok(())
    }

    /// The nodes of a chunk that there is room for.
    #[tactic(auto, using(crate::proofs::Chunked::chunk_settlings))]
    fn room_for_chunk(&self, chunk: &IdChunk) -> Result<usize, Refused>
        requires { ChunkWithin (length self.now.terms) chunk.now }
        ensures done { Gives refusal_of (λ _. with_more_chunks (chunk_of self.now.terms chunk.now ∷ []) self.now.state) result (chunk_added (chunk_of self.now.terms chunk.now) self.now.state) }
        ensures nodes { IfOk result (λ n. n ≡ chunk_nodes (chunk_of self.now.terms chunk.now)) }
        ensures count { IfOk result (λ _. length self.now.state.chunks < 1024) }
        ensures room { IfOk result (λ n. nodes_of self.now.state + n ≤ 1000000) }
    {
        let nodes = self.chunk_count_within(chunk)?;
        self.room(true, 0, 0, 1, self.nodes + nodes)?;
        Ok(nodes)
    }

    /// One more chunk.
    pub fn add_chunk(&mut self, chunk: IdChunk) -> Result<(), Refused>
        requires within { ChunkWithin (length self.old.terms) chunk }
        requires width { HasWidth chunk }
        ensures done { Gives refusal_of (λ _. self.new.state) result (chunk_added (chunk_of self.old.terms chunk) self.old.state) }
        ensures terms { IfOk result (λ _. self.new.terms ≡ self.old.terms) }
        ensures kept { IfOk result (λ _. Grown self.old self.new) }
    {
        let nodes = self.room_for_chunk(&chunk)?;
        self.append_chunk(chunk, nodes)?;
        Ok(())
    }
}
