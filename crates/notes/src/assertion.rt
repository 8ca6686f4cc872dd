//! Assertions and contracts.

ghost use Rattle.std.specs.Prelude.{◌≡◌, IfOk};

use crate::chunk::Chunk;
use std::alloc::Global;
use term_trees::Formula;
use wasm_values::{List, OutOfMemory};

/// What is claimed of a state, for some numbers in place of its own variables.
#[derive(Drop)]
pub struct Assertion {
    pub own: u32,
    pub formulas: List<Formula>,
    pub chunks: List<Chunk>,
}

impl Assertion {
    /// An assertion that equals this one.
    pub fn copy(&self, alloc: Global) -> Result<Assertion, OutOfMemory>
        ensures { IfOk result (λ copied. copied ≡ self.now) }
    {
        Ok(Assertion {
            own: self.own,
            formulas: self.formulas.copy(alloc)?,
            chunks: self.chunks.copy(alloc)?,
        })
    }
}

/// What an inner function wants at its entry, and what it leaves.
#[derive(Drop)]
pub struct Contract {
    pub pre: Assertion,
    pub post: Assertion,
}

impl Contract {
    /// A contract that equals this one.
    pub fn copy(&self, alloc: Global) -> Result<Contract, OutOfMemory>
        ensures { IfOk result (λ copied. copied ≡ self.now) }
    {
        Ok(Contract {
            pre: self.pre.copy(alloc)?,
            post: self.post.copy(alloc)?,
        })
    }
}
