// Notes of instructions and functions, lemmas, and whole notes.

ghost use Rattle.std.specs.Prelude.{◌≡◌, ◌++◌, ◌∷◌, [], map, true, OnOk, IfOk};
ghost use Rattle.notes_grammar.specs.Printed.{printed_more, notes_text};
ghost use Rattle.notes_grammar.specs.Shapes.{trees_in, small, note, use_of, contract_of, after_of, chunk, with, listed, lemma, name, formula, step, assertion, rest_of, move};
ghost use Rattle.notes_print.specs.Plain.{plain};

use crate::bytes::{close, open};
use crate::chunks::{Assertions, Chunks, Contracts, Withs};
use crate::formulas::Formulas;
use crate::kinds::{Names, Smalls};
use crate::lists::{
    Lists, Print, more_four, more_items, more_one, more_one_items, more_three, more_two,
};
use crate::moves::{Moves, Takes};
use crate::steps::Steps;
use crate::uses::more_use;
use bitvector_rules::Step;
use notes::{Assertion, Chunk, Contract, FuncNotes, Initial, Lemma, Move, Note, Notes, Take, With};
use std::alloc::Global;
use term_trees::Formula;
use wasm_values::{Bytes, List, OutOfMemory, Text};

/// The parts of a note, with a space before each.
#[tactic(auto, using(crate::proofs::ListLemmas::more_then))]
fn more_note(alloc: Global, out: &mut Bytes, note: &Note) -> Result<(), OutOfMemory>
    ensures { OnOk result (out.new ≡ out.old ++ printed_more (trees_in (small note.now.at ∷ (map (move plain) note.now.moves ++ use_of plain note.now.used)))) }
{
    more_one_items::<u32, Smalls, Move, Moves>(alloc, out, &note.at, note.moves.as_slice())?;
    more_use(alloc, out, &note.used)
}

/// Notes of instructions.
struct InstructionNotes;

#[tactic(auto, using(crate::proofs::ListLemmas::closed), unfolding(notes_grammar::specs::Shapes::note))]
impl Print<Note> for InstructionNotes {
    ghost use Rattle.notes_grammar.specs.Shapes.{note};
    ghost use Rattle.notes_print.specs.Plain.{plain};

    ghost shape = { note plain };

    fn print(alloc: Global, out: &mut Bytes, value: &Note) -> Result<(), OutOfMemory> {
        open(out, "at")?;
        more_note(alloc, out, value)?;
        close(out)
    }
}

/// A space and a contract, if there is one.
#[tactic(auto, unfolding(notes_grammar::specs::Shapes::contract_of))]
fn more_contract(
    alloc: Global,
    out: &mut Bytes,
    contract: &Option<Contract>,
) -> Result<(), OutOfMemory>
    ensures { OnOk result (out.new ≡ out.old ++ printed_more (trees_in (contract_of true contract.now))) }
{
    match contract {
        None => Ok(()),
        Some(contract) => more_one::<Contract, Contracts>(alloc, out, contract),
    }
}

/// A contract, if there is one, and the notes of a function, with a space before each.
#[tactic(auto, using(crate::proofs::ListLemmas::more_then))]
fn more_notes(alloc: Global, out: &mut Bytes, func: &FuncNotes) -> Result<(), OutOfMemory>
    ensures { OnOk result (out.new ≡ out.old ++ printed_more (trees_in (contract_of true func.now.contract ++ map (note plain) func.now.notes))) }
{
    more_contract(alloc, out, &func.contract)?;
    more_items::<Note, InstructionNotes>(alloc, out, func.notes.as_slice())
}

/// The parts of the notes of a function, with a space before each.
#[tactic(auto, using(crate::proofs::ListLemmas::more_then))]
fn more_function(alloc: Global, out: &mut Bytes, func: &FuncNotes) -> Result<(), OutOfMemory>
    ensures { OnOk result (out.new ≡ out.old ++ printed_more (trees_in (small func.now.func ∷ (contract_of true func.now.contract ++ map (note plain) func.now.notes)))) }
{
    more_one::<u32, Smalls>(alloc, out, &func.func)?;
    more_notes(alloc, out, func)
}

/// Notes of functions.
struct Functions;

#[tactic(auto, using(crate::proofs::ListLemmas::closed), unfolding(notes_grammar::specs::Shapes::function))]
impl Print<FuncNotes> for Functions {
    ghost use Rattle.notes_grammar.specs.Shapes.{function};
    ghost use Rattle.notes_print.specs.Plain.{plain};

    ghost shape = { function plain };

    fn print(alloc: Global, out: &mut Bytes, value: &FuncNotes) -> Result<(), OutOfMemory> {
        open(out, "func")?;
        more_function(alloc, out, value)?;
        close(out)
    }
}

/// A space and a take, if there is one.
fn more_after(alloc: Global, out: &mut Bytes, after: &Option<Take>) -> Result<(), OutOfMemory>
    ensures { OnOk result (out.new ≡ out.old ++ printed_more (trees_in (after_of plain after.now))) }
{
    match after {
        None => Ok(()),
        Some(take) => more_one::<Take, Takes>(alloc, out, take),
    }
}

/// The parts of an initial part, with a space before each.
#[tactic(auto, using(crate::proofs::ListLemmas::more_then))]
fn more_initial(alloc: Global, out: &mut Bytes, initial: &Initial) -> Result<(), OutOfMemory>
    ensures { OnOk result (out.new ≡ out.old ++ printed_more (trees_in (listed (map (chunk true) initial.now.chunks) ∷ listed (map (move plain) initial.now.moves) ∷ with true initial.now.with ∷ after_of plain initial.now.after))) }
{
    more_three::<List<Chunk>, Lists<Chunks>, List<Move>, Lists<Moves>, With, Withs>(
        alloc,
        out,
        &initial.chunks,
        &initial.moves,
        &initial.with,
    )?;
    more_after(alloc, out, &initial.after)
}

/// Initial parts.
struct Initials;

#[tactic(auto, using(crate::proofs::ListLemmas::closed), unfolding(notes_grammar::specs::Shapes::initial))]
impl Print<Initial> for Initials {
    ghost use Rattle.notes_grammar.specs.Shapes.{initial};
    ghost use Rattle.notes_print.specs.Plain.{plain};

    ghost shape = { initial plain };

    fn print(alloc: Global, out: &mut Bytes, value: &Initial) -> Result<(), OutOfMemory> {
        open(out, "initial")?;
        more_initial(alloc, out, value)?;
        close(out)
    }
}

/// The parts of a lemma, with a space before each.
#[tactic(auto, using(crate::proofs::ListLemmas::more_then))]
fn more_lemma(alloc: Global, out: &mut Bytes, lemma: &Lemma) -> Result<(), OutOfMemory>
    ensures { OnOk result (out.new ≡ out.old ++ printed_more (trees_in (name lemma.now.name ∷ small lemma.now.vars ∷ listed (map (formula true) lemma.now.hyps) ∷ formula true lemma.now.goal ∷ map (step true 0) lemma.now.steps))) }
{
    more_four::<Text, Names, u32, Smalls, List<Formula>, Lists<Formulas>, Formula, Formulas>(
        alloc,
        out,
        &lemma.name,
        &lemma.vars,
        &lemma.hyps,
        &lemma.goal,
    )?;
    more_items::<Step, Steps>(alloc, out, lemma.steps.as_slice())
}

/// Lemmas.
struct Lemmas;

#[tactic(auto, using(crate::proofs::ListLemmas::closed), unfolding(notes_grammar::specs::Shapes::lemma))]
impl Print<Lemma> for Lemmas {
    ghost use Rattle.notes_grammar.specs.Shapes.{lemma};

    ghost shape = { lemma };

    fn print(alloc: Global, out: &mut Bytes, value: &Lemma) -> Result<(), OutOfMemory> {
        open(out, "lemma")?;
        more_lemma(alloc, out, value)?;
        close(out)
    }
}

/// The parts of notes after their lemmas, with a space before each.
#[tactic(auto, using(crate::proofs::ListLemmas::more_then))]
fn more_rest(alloc: Global, out: &mut Bytes, notes: &Notes) -> Result<(), OutOfMemory>
    ensures { OnOk result (out.new ≡ out.old ++ printed_more (trees_in (rest_of plain notes.now))) }
{
    more_two::<Assertion, Assertions, Initial, Initials>(
        alloc,
        out,
        &notes.invariant,
        &notes.initial,
    )?;
    more_items::<FuncNotes, Functions>(alloc, out, notes.funcs.as_slice())
}

/// The version of notes and their lemmas, with a space before each.
fn more_lemmas(alloc: Global, out: &mut Bytes, notes: &Notes) -> Result<(), OutOfMemory>
    ensures { OnOk result (out.new ≡ out.old ++ printed_more (trees_in (small 2 ∷ map lemma notes.now.lemmas))) }
{
    more_one_items::<u32, Smalls, Lemma, Lemmas>(alloc, out, &2, notes.lemmas.as_slice())
}

/// The parts of notes, with a space before each.
#[tactic(auto, using(crate::proofs::ListLemmas::more_then))]
fn more_parts(alloc: Global, out: &mut Bytes, notes: &Notes) -> Result<(), OutOfMemory>
    ensures { OnOk result (out.new ≡ out.old ++ printed_more (trees_in (small 2 ∷ (map lemma notes.now.lemmas ++ rest_of plain notes.now)))) }
{
    more_lemmas(alloc, out, notes)?;
    more_rest(alloc, out, notes)
}

/// Adds notes at the end.
fn push_notes(alloc: Global, out: &mut Bytes, notes: &Notes) -> Result<(), OutOfMemory>
    ensures { OnOk result (out.new ≡ out.old ++ notes_text notes.now) }
{
    open(out, "notes")?;
    more_parts(alloc, out, notes)?;
    close(out)
}

/// The one text of notes, of version 2, with one space between two parts of a list.
pub fn print_notes(alloc: Global, notes: &Notes) -> Result<Bytes, OutOfMemory>
    ensures { IfOk result (λ text. text ≡ notes_text notes.now) }
{
    let mut out = Bytes::new(alloc);
    push_notes(alloc, &mut out, notes)?;
    Ok(out)
}
