// The chunks that are left where some go.

ghost use Rattle.std.specs.Prelude.{◌≡◌, ◌≤◌, [], length, map, IfOk};
ghost use Rattle.std.specs.List.{All};
ghost use Rattle.outline_rules.specs.Entailment.{is_among, chunks_besides};
ghost use Rattle.outline_rules.specs.States.{nodes_of, with_chunks};
ghost use Rattle.heap_logic.specs.Heaps.{chunk_of, ChunkWithin, HasWidth};
ghost use Rattle.symbolic_state.specs.Growth.{Grown};
ghost use Rattle.symbolic_state.specs.States.{WithinLimits};
ghost use Rattle.symbolic_state.specs.words.Kept.{items_besides};

use crate::chunk_changes::chunks_size;
use crate::tracked::TrackedState;
use heap_logic::IdChunk;
use std::alloc::Global;
use std::mem;
use wasm_values::{List, OutOfMemory};

/// Whether a number is among these.
pub fn is_among(numbers: &[u32], k: u32) -> bool
    ensures { result ≡ is_among numbers.now k }
{
    numbers.iter().any(|j| *j == k)
}

/// The chunks whose numbers aren't among these, in their order.
#[tactic(auto, using(crate::proofs::LeftOver::keeping))]
fn chunks_left(
    alloc: Global,
    chunks: List<IdChunk>,
    used: &[u32],
) -> Result<List<IdChunk>, OutOfMemory>
    requires { length chunks ≤ 1024 }
    ensures { IfOk result (λ left. left ≡ items_besides used.now 0 chunks) }
{
    let mut left = List::new(alloc);
    let mut number: u32 = 0;
    for chunk in chunks.into_vec() {
        if !is_among(used, number) {
            left.push(chunk)?;
        }
        number += 1;
    }
    Ok(left)
}

impl TrackedState {
    /// The chunks, which the state loses.
    #[tactic(auto, using(crate::proofs::Chunked::no_chunks))]
    fn take_chunks(&mut self) -> List<IdChunk>
        ensures state { self.new ≡ record self.old { state = with_chunks [] self.old.state } }
        ensures chunks { map (chunk_of self.old.terms) result ≡ self.old.state.chunks }
        ensures within { All (λ c. ChunkWithin (length self.old.terms) c) result }
        ensures widths { All HasWidth result }
        ensures limits { WithinLimits self.old.state }
    {
        let size = chunks_size(&self.table, self.state.heap.chunks.as_slice());
        let chunks = mem::replace(&mut self.state.heap.chunks, List::new(self.alloc));
        self.nodes -= size;
        chunks
    }

    /// Chunks, for a state that has none.
    #[tactic(auto, using(crate::proofs::LeftOver::no_more_chunks))]
    fn put_chunks(&mut self, chunks: List<IdChunk>)
        requires within { All (λ c. ChunkWithin (length self.old.terms) c) chunks }
        requires widths { All HasWidth chunks }
        requires count { length chunks ≤ 1024 }
        requires none { self.old.state.chunks ≡ [] }
        requires room { nodes_of (with_chunks (map (chunk_of self.old.terms) chunks) self.old.state) ≤ 1000000 }
        ensures { self.new ≡ record self.old { state = with_chunks (map (chunk_of self.old.terms) chunks) self.old.state } }
    {
        let size = chunks_size(&self.table, chunks.as_slice());
        self.state.heap.chunks = chunks;
        self.nodes += size;
    }

    /// The state without the chunks with these numbers.
    pub fn keep_chunks(&mut self, used: &[u32]) -> Result<(), OutOfMemory>
        ensures state { IfOk result (λ _. self.new ≡ record self.old { state = with_chunks (chunks_besides used.now 0 self.old.state.chunks) self.old.state }) }
        ensures kept { IfOk result (λ _. Grown self.old self.new) }
    {
        let all = self.take_chunks();
        let left = chunks_left(self.alloc, all, used)?;
        self.put_chunks(left);
        Ok(())
    }
}
