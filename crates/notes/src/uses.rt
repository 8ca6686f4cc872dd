//! What an instruction is given.

ghost use Rattle.std.specs.Prelude.{◌≡◌, IfOk};

use crate::assertion::Assertion;
use crate::moves::Move;
use std::alloc::Global;
use term_trees::Term;
use wasm_values::{Duplicate, List, OutOfMemory};

/// How a state entails an assertion: terms for its own variables, and by their numbers a fact for each formula and a chunk
/// for each chunk.
#[derive(Drop)]
pub struct With {
    pub terms: List<Term>,
    pub facts: List<u32>,
    pub chunks: List<u32>,
}

impl With {
    /// A `with` that equals this one.
    pub fn copy(&self, alloc: Global) -> Result<With, OutOfMemory>
        ensures { IfOk result (λ copied. copied ≡ self.now) }
    {
        Ok(With {
            terms: self.terms.copy(alloc)?,
            facts: self.facts.copy(alloc)?,
            chunks: self.chunks.copy(alloc)?,
        })
    }
}

/// What is done to a state before its assertion is entailed.
#[derive(Drop)]
pub struct Take {
    pub moves: List<Move>,
    pub with: With,
}

impl Take {
    /// A take that equals this one.
    pub fn copy(&self, alloc: Global) -> Result<Take, OutOfMemory>
        ensures { IfOk result (λ copied. copied ≡ self.now) }
    {
        Ok(Take {
            moves: self.moves.copy(alloc)?,
            with: self.with.copy(alloc)?,
        })
    }
}

impl Duplicate for Take {
    fn duplicate(&self, alloc: Global) -> Result<Take, OutOfMemory> {
        self.copy(alloc)
    }
}

/// What an instruction is given.
#[derive(Drop)]
pub enum Use {
    Nothing,
    With(With),
    Cell(u32),
    Safe(List<u32>),
    Trap(With),
    Take(Take),
    Table(List<Take>),
    Both(With, With),
    Label(Assertion),
    Loop(Assertion, With),
    Skip(Assertion, Take),
}

/// Two `with`s that equal these.
fn copy_both(alloc: Global, a: &With, b: &With) -> Result<(With, With), OutOfMemory>
    ensures { IfOk result (λ copied. (copied.0 ≡ a.now) × (copied.1 ≡ b.now)) }
{
    Ok((a.copy(alloc)?, b.copy(alloc)?))
}

/// An assertion and a `with` that equal these.
fn copy_loop(
    alloc: Global,
    assertion: &Assertion,
    with: &With,
) -> Result<(Assertion, With), OutOfMemory>
    ensures { IfOk result (λ copied. (copied.0 ≡ assertion.now) × (copied.1 ≡ with.now)) }
{
    Ok((assertion.copy(alloc)?, with.copy(alloc)?))
}

/// An assertion and a take that equal these.
fn copy_skip(
    alloc: Global,
    assertion: &Assertion,
    take: &Take,
) -> Result<(Assertion, Take), OutOfMemory>
    ensures { IfOk result (λ copied. (copied.0 ≡ assertion.now) × (copied.1 ≡ take.now)) }
{
    Ok((assertion.copy(alloc)?, take.copy(alloc)?))
}

impl Use {
    /// A use that equals this one.
    pub fn copy(&self, alloc: Global) -> Result<Use, OutOfMemory>
        ensures { IfOk result (λ copied. copied ≡ self.now) }
    {
        match self {
            Use::Nothing => Ok(Use::Nothing),
            Use::With(with) => Ok(Use::With(with.copy(alloc)?)),
            Use::Cell(chunk) => Ok(Use::Cell(*chunk)),
            Use::Safe(facts) => Ok(Use::Safe(facts.copy(alloc)?)),
            Use::Trap(with) => Ok(Use::Trap(with.copy(alloc)?)),
            Use::Take(take) => Ok(Use::Take(take.copy(alloc)?)),
            Use::Table(takes) => Ok(Use::Table(takes.copy(alloc)?)),
            Use::Both(invariant, pre) => {
                let (invariant, pre) = copy_both(alloc, invariant, pre)?;
                Ok(Use::Both(invariant, pre))
            }
            Use::Label(assertion) => Ok(Use::Label(assertion.copy(alloc)?)),
            Use::Loop(assertion, with) => {
                let (assertion, with) = copy_loop(alloc, assertion, with)?;
                Ok(Use::Loop(assertion, with))
            }
            Use::Skip(assertion, take) => {
                let (assertion, take) = copy_skip(alloc, assertion, take)?;
                Ok(Use::Skip(assertion, take))
            }
        }
    }
}
