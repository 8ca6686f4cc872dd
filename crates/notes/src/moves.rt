//! Moves on states.

ghost use Rattle.std.specs.Prelude.{◌≡◌, IfOk};
ghost use Rattle.notes.specs.declared.moves.Move.TheVariants.{Lemma};

use crate::heap_move::HeapMove;
use bitvector_rules::Step;
use std::alloc::Global;
use term_trees::{Formula, Place, Term};
use wasm_values::{Duplicate, List, OutOfMemory, Text};

/// What is done to a state before an instruction.
#[derive(Drop)]
pub enum Move {
    Have(Formula, List<Step>),
    Name(Place),
    Let(Term),
    Put(Place, Term, u32),
    Heap(HeapMove),
    Each(u32, Formula, List<Step>),
    Lemma(Text, List<Term>, List<u32>),
}

/// A formula and steps that equal these.
fn copy_derivation(
    alloc: Global,
    formula: &Formula,
    steps: &List<Step>,
) -> Result<(Formula, List<Step>), OutOfMemory>
    ensures { IfOk result (λ copied. (copied.0 ≡ formula.now) × (copied.1 ≡ steps.now)) }
{
    let steps = steps.copy(alloc)?;
    Ok((formula.copy(alloc)?, steps))
}

/// A use of a lemma that equals this one.
fn copy_lemma_use(
    alloc: Global,
    name: &Text,
    terms: &List<Term>,
    facts: &List<u32>,
) -> Result<Move, OutOfMemory>
    ensures { IfOk result (λ copied. copied ≡ Lemma name.now terms.now facts.now) }
{
    Ok(Move::Lemma(name.copy(alloc)?, terms.copy(alloc)?, facts.copy(alloc)?))
}

impl Move {
    /// A move that equals this one.
    pub fn copy(&self, alloc: Global) -> Result<Move, OutOfMemory>
        ensures { IfOk result (λ copied. copied ≡ self.now) }
    {
        match self {
            Move::Have(formula, steps) => {
                let (formula, steps) = copy_derivation(alloc, formula, steps)?;
                Ok(Move::Have(formula, steps))
            }
            Move::Name(place) => Ok(Move::Name(*place)),
            Move::Let(term) => Ok(Move::Let(term.copy(alloc)?)),
            Move::Put(place, term, fact) => Ok(Move::Put(*place, term.copy(alloc)?, *fact)),
            Move::Heap(heap_move) => Ok(Move::Heap(heap_move.copy(alloc)?)),
            Move::Each(chunk, formula, steps) => {
                let (formula, steps) = copy_derivation(alloc, formula, steps)?;
                Ok(Move::Each(*chunk, formula, steps))
            }
            Move::Lemma(name, terms, facts) => copy_lemma_use(alloc, name, terms, facts),
        }
    }
}

impl Duplicate for Move {
    fn duplicate(&self, alloc: Global) -> Result<Move, OutOfMemory> {
        self.copy(alloc)
    }
}
