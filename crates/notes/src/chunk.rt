//! Chunks of memory.

ghost use Rattle.std.specs.Prelude.{◌≡◌, IfOk};

use std::alloc::Global;
use term_trees::{Formula, Term};
use wasm_values::{Duplicate, OutOfMemory};

/// A part of the private memory that a state owns.
#[derive(Drop)]
pub enum Chunk {
    /// So many bytes at an address that spell the value, the byte of least worth first.
    Cell {
        width: u32,
        at: Term,
        value: Term,
    },
    /// Bytes of any contents.
    Region {
        at: Term,
        len: Term,
    },
    /// Cells of one width, one after another, each meeting the formula with its position for `(index)` and its value for
    /// `(item)`.
    Row {
        width: u32,
        at: Term,
        count: Term,
        each: Formula,
    },
}

/// Two terms that equal these.
fn copy_terms(alloc: Global, a: &Term, b: &Term) -> Result<(Term, Term), OutOfMemory>
    ensures { IfOk result (λ copied. (copied.0 ≡ a.now) × (copied.1 ≡ b.now)) }
{
    Ok((a.copy(alloc)?, b.copy(alloc)?))
}

/// Two terms and a formula that equal these.
fn copy_row(
    alloc: Global,
    at: &Term,
    count: &Term,
    each: &Formula,
) -> Result<(Term, Term, Formula), OutOfMemory>
    ensures { IfOk result (λ copied. (copied.0 ≡ at.now) × (copied.1 ≡ count.now) × (copied.2 ≡ each.now)) }
{
    let (at, count) = copy_terms(alloc, at, count)?;
    Ok((at, count, each.copy(alloc)?))
}

impl Chunk {
    /// A chunk that equals this one.
    pub fn copy(&self, alloc: Global) -> Result<Chunk, OutOfMemory>
        ensures { IfOk result (λ copied. copied ≡ self.now) }
    {
        match self {
            Chunk::Cell { width, at, value } => {
                let (at, value) = copy_terms(alloc, at, value)?;
                Ok(Chunk::Cell {
                    width: *width,
                    at,
                    value,
                })
            }
            Chunk::Region { at, len } => {
                let (at, len) = copy_terms(alloc, at, len)?;
                Ok(Chunk::Region { at, len })
            }
            Chunk::Row {
                width,
                at,
                count,
                each,
            } => {
                let (at, count, each) = copy_row(alloc, at, count, each)?;
                Ok(Chunk::Row {
                    width: *width,
                    at,
                    count,
                    each,
                })
            }
        }
    }
}

impl Duplicate for Chunk {
    fn duplicate(&self, alloc: Global) -> Result<Chunk, OutOfMemory> {
        self.copy(alloc)
    }
}
