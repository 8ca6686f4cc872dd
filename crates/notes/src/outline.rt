//! The notes of instructions, functions and modules.

ghost use Rattle.std.specs.Prelude.{◌≡◌, IfOk};

use crate::assertion::{Assertion, Contract};
use crate::chunk::Chunk;
use crate::moves::Move;
use crate::uses::{Take, Use, With};
use bitvector_rules::Step;
use std::alloc::Global;
use term_trees::Formula;
use wasm_values::{Duplicate, List, OutOfMemory, Text};

/// What is said at one instruction, by its number.
#[derive(Drop)]
pub struct Note {
    pub at: u32,
    pub moves: List<Move>,
    pub used: Use,
}

impl Note {
    /// A note that equals this one.
    pub fn copy(&self, alloc: Global) -> Result<Note, OutOfMemory>
        ensures { IfOk result (λ copied. copied ≡ self.now) }
    {
        Ok(Note {
            at: self.at,
            moves: self.moves.copy(alloc)?,
            used: self.used.copy(alloc)?,
        })
    }
}

impl Duplicate for Note {
    fn duplicate(&self, alloc: Global) -> Result<Note, OutOfMemory> {
        self.copy(alloc)
    }
}

/// The notes of one function, by its number.
#[derive(Drop)]
pub struct FuncNotes {
    pub func: u32,
    pub contract: Option<Contract>,
    pub notes: List<Note>,
}

/// A contract that equals this one, where there is one.
fn copy_contract(
    alloc: Global,
    contract: &Option<Contract>,
) -> Result<Option<Contract>, OutOfMemory>
    ensures { IfOk result (λ copied. copied ≡ contract.now) }
{
    match contract {
        None => Ok(None),
        Some(contract) => Ok(Some(contract.copy(alloc)?)),
    }
}

impl FuncNotes {
    /// Notes of a function that equal these.
    pub fn copy(&self, alloc: Global) -> Result<FuncNotes, OutOfMemory>
        ensures { IfOk result (λ copied. copied ≡ self.now) }
    {
        Ok(FuncNotes {
            func: self.func,
            contract: copy_contract(alloc, &self.contract)?,
            notes: self.notes.copy(alloc)?,
        })
    }
}

impl Duplicate for FuncNotes {
    fn duplicate(&self, alloc: Global) -> Result<FuncNotes, OutOfMemory> {
        self.copy(alloc)
    }
}

/// The first chunks, and how the invariant is met initially.
#[derive(Drop)]
pub struct Initial {
    pub chunks: List<Chunk>,
    pub moves: List<Move>,
    pub with: With,
    pub after: Option<Take>,
}

/// A take that equals this one, where there is one.
fn copy_after(alloc: Global, after: &Option<Take>) -> Result<Option<Take>, OutOfMemory>
    ensures { IfOk result (λ copied. copied ≡ after.now) }
{
    match after {
        None => Ok(None),
        Some(take) => Ok(Some(take.copy(alloc)?)),
    }
}

impl Initial {
    /// An initial part that equals this one.
    pub fn copy(&self, alloc: Global) -> Result<Initial, OutOfMemory>
        ensures { IfOk result (λ copied. copied ≡ self.now) }
    {
        Ok(Initial {
            chunks: self.chunks.copy(alloc)?,
            moves: self.moves.copy(alloc)?,
            with: self.with.copy(alloc)?,
            after: copy_after(alloc, &self.after)?,
        })
    }
}

/// A derivation that is checked once and used by its name, for any terms in place of its variables.
#[derive(Drop)]
pub struct Lemma {
    pub name: Text,
    pub vars: u32,
    pub hyps: List<Formula>,
    pub goal: Formula,
    pub steps: List<Step>,
}

impl Lemma {
    /// A lemma that equals this one.
    pub fn copy(&self, alloc: Global) -> Result<Lemma, OutOfMemory>
        ensures { IfOk result (λ copied. copied ≡ self.now) }
    {
        let steps = self.steps.copy(alloc)?;
        Ok(Lemma {
            name: self.name.copy(alloc)?,
            vars: self.vars,
            hyps: self.hyps.copy(alloc)?,
            goal: self.goal.copy(alloc)?,
            steps,
        })
    }
}

impl Duplicate for Lemma {
    fn duplicate(&self, alloc: Global) -> Result<Lemma, OutOfMemory> {
        self.copy(alloc)
    }
}

/// The notes of a module.
#[derive(Drop)]
pub struct Notes {
    pub invariant: Assertion,
    pub initial: Initial,
    pub funcs: List<FuncNotes>,
    pub lemmas: List<Lemma>,
}

impl Notes {
    /// Notes that equal these.
    pub fn copy(&self, alloc: Global) -> Result<Notes, OutOfMemory>
        ensures { IfOk result (λ copied. copied ≡ self.now) }
    {
        let funcs = self.funcs.copy(alloc)?;
        let lemmas = self.lemmas.copy(alloc)?;
        Ok(Notes {
            invariant: self.invariant.copy(alloc)?,
            initial: self.initial.copy(alloc)?,
            funcs,
            lemmas,
        })
    }
}
