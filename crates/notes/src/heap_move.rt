//! Moves on chunks.

ghost use Rattle.std.specs.Prelude.{◌≡◌, IfOk};

use std::alloc::Global;
use term_trees::{Formula, Term};
use wasm_values::OutOfMemory;

/// What is done to the chunks of a state. Chunks and facts are named by their numbers.
#[derive(Drop)]
pub enum HeapMove {
    Split(u32, Term, u32, u32),
    Merge(u32, u32, u32),
    Forget(u32),
    View(u32),
    Halve(u32),
    Unite(u32, u32, u32),
    Readdr(u32, Term, u32),
    Reval(u32, Term, u32),
    Relen(u32, Term, u32),
    Pick(u32, Term, u32, u32),
    Join(u32, u32, u32),
    Enrow(u32, Formula, u32),
    Rows(u32, u32, Formula),
}

impl HeapMove {
    /// A move that equals this one.
    pub fn copy(&self, alloc: Global) -> Result<HeapMove, OutOfMemory>
        ensures { IfOk result (λ copied. copied ≡ self.now) }
    {
        match self {
            HeapMove::Split(c, t, f, g) => Ok(HeapMove::Split(*c, t.copy(alloc)?, *f, *g)),
            HeapMove::Merge(c, d, f) => Ok(HeapMove::Merge(*c, *d, *f)),
            HeapMove::Forget(c) => Ok(HeapMove::Forget(*c)),
            HeapMove::View(c) => Ok(HeapMove::View(*c)),
            HeapMove::Halve(c) => Ok(HeapMove::Halve(*c)),
            HeapMove::Unite(c, d, f) => Ok(HeapMove::Unite(*c, *d, *f)),
            HeapMove::Readdr(c, t, f) => Ok(HeapMove::Readdr(*c, t.copy(alloc)?, *f)),
            HeapMove::Reval(c, t, f) => Ok(HeapMove::Reval(*c, t.copy(alloc)?, *f)),
            HeapMove::Relen(c, t, f) => Ok(HeapMove::Relen(*c, t.copy(alloc)?, *f)),
            HeapMove::Pick(c, t, f, g) => Ok(HeapMove::Pick(*c, t.copy(alloc)?, *f, *g)),
            HeapMove::Join(c, d, f) => Ok(HeapMove::Join(*c, *d, *f)),
            HeapMove::Enrow(c, each, f) => Ok(HeapMove::Enrow(*c, each.copy(alloc)?, *f)),
            HeapMove::Rows(c, width, each) => Ok(HeapMove::Rows(*c, *width, each.copy(alloc)?)),
        }
    }
}
