// Notes of instructions and functions, and the initial part.

ghost use Rattle.sexp_text.specs.Reading.{Gives};
ghost use Rattle.notes_grammar.specs.Parts.{part_of, parts_of};
ghost use Rattle.notes_grammar.specs.Reading.{note_in, side_in, contract_in, contract_first, function_in, after_list, initial_in};
ghost use Rattle.notes_parts.specs.Seen.{headed_seen};
ghost use Rattle.annot_text.specs.words.Functions.{noted_headed, noted_in, note_parts, note_read, side_read, contract_read, function_parts, function_read, initial_parts, initial_read};

use crate::uses::{Takes, use_formed, use_kind};
use notes::{Assertion, Chunk, Contract, FuncNotes, Initial, Move, Note, Take, Use, With};
use notes_moves::{Assertions, Chunks, Moves, Withs, joined, read_headed_move};
use notes_parts::{Context, Headed, ended, headed_list, is_tagged, tagged};
use notes_terms::{Entry, Lists, Smalls, entries, entry_field, three_fields, whole_one, whole_two};
use sexp_text::{Sexp, TextFault};
use std::alloc::Global;
use wasm_values::List;

/// A part of a note: a move, or the use that ends it.
#[derive(Drop)]
pub(crate) enum Noted {
    Move(Move),
    Use(Use),
}

/// The move or use of a list that begins with a word.
fn noted_headed(alloc: Global, context: &Context, headed: &Headed<'_>) -> Result<Noted, TextFault>
    ensures { Gives (λ n. n) result (noted_headed context.now (headed_seen headed.now)) }
{
    match use_kind(headed.head) {
        Some(kind) => use_formed(alloc, context, kind, headed).map(Noted::Use),
        None => read_headed_move(alloc, context, headed).map(Noted::Move),
    }
}

/// A move or a use.
fn read_noted(alloc: Global, context: &Context, part: &Sexp) -> Result<Noted, TextFault>
    ensures { Gives (λ n. n) result (noted_in context.now (part_of part.now)) }
{
    let headed = headed_list(part)?;
    noted_headed(alloc, context, &headed)
}

/// Moves, and after them a use, if there is one.
fn note_parts(
    alloc: Global,
    context: &Context,
    parts: &[Sexp],
) -> Result<(List<Move>, Use), TextFault>
    ensures { Gives (λ x. x) result (note_parts context.now (parts_of parts.now)) }
{
    let mut moves = List::new(alloc);
    let mut rest = parts;
    while let [part, more @ ..] = rest {
        match read_noted(alloc, context, part)? {
            Noted::Move(step) => moves.push(step)?,
            Noted::Use(used) => return ended((moves, used), more),
        }
        rest = more;
    }
    Ok((moves, Use::Nothing))
}

/// The note of a list's parts.
fn note_of_parts(alloc: Global, context: &Context, part: &Sexp) -> Result<Note, TextFault>
    ensures { Gives (λ n. n) result (note_read context.now (part_of part.now)) }
{
    let (parts, close) = tagged("at", part)?;
    let (at, rest) = entry_field::<u32, Smalls>(alloc, context, close, parts)?;
    let (moves, used) = note_parts(alloc, context, rest)?;
    Ok(Note { at, moves, used })
}

/// The note of an instruction.
pub(crate) fn read_note(alloc: Global, context: &Context, part: &Sexp) -> Result<Note, TextFault>
    ensures { Gives (λ n. n) result (note_in context.now (part_of part.now)) }
{
    note_of_parts(alloc, context, part)
}

/// Notes of instructions.
pub(crate) struct InstructionNotes;

impl Entry<Note> for InstructionNotes {
    ghost reads = { λ c. note_in c };

    fn read(alloc: Global, context: &Context, part: &Sexp) -> Result<Note, TextFault> {
        read_note(alloc, context, part)
    }
}

/// The assertion in a list that begins with this word.
fn side_of_parts(
    alloc: Global,
    context: &Context,
    tag: &str,
    part: &Sexp,
) -> Result<Assertion, TextFault>
    ensures { Gives (λ a. a) result (side_read tag.now context.now.later (part_of part.now)) }
{
    let (parts, close) = tagged(tag, part)?;
    whole_one::<Assertion, Assertions>(alloc, context, close, parts)
}

/// The assertion in a list that begins with this word.
#[tactic(auto, unfolding(notes_grammar::specs::Reading::side_in))]
fn read_side(
    alloc: Global,
    context: &Context,
    tag: &str,
    part: &Sexp,
) -> Result<Assertion, TextFault>
    ensures { Gives (λ a. a) result (side_in tag.now context.now.later (part_of part.now)) }
{
    side_of_parts(alloc, context, tag, part)
}

/// What inner functions want at their entry.
struct Pres;

impl Entry<Assertion> for Pres {
    ghost use Rattle.std.specs.Prelude.{codes};

    ghost reads = { λ c. side_in (codes "pre") c.later };

    fn read(alloc: Global, context: &Context, part: &Sexp) -> Result<Assertion, TextFault> {
        read_side(alloc, context, "pre", part)
    }
}

/// What inner functions leave.
struct Posts;

impl Entry<Assertion> for Posts {
    ghost use Rattle.std.specs.Prelude.{codes};

    ghost reads = { λ c. side_in (codes "post") c.later };

    fn read(alloc: Global, context: &Context, part: &Sexp) -> Result<Assertion, TextFault> {
        read_side(alloc, context, "post", part)
    }
}

/// The contract of a list's parts.
fn contract_of_parts(alloc: Global, context: &Context, part: &Sexp) -> Result<Contract, TextFault>
    ensures { Gives (λ k. k) result (contract_read context.now.later (part_of part.now)) }
{
    let (parts, close) = tagged("contract", part)?;
    let (pre, post) = whole_two::<Assertion, Pres, Assertion, Posts>(alloc, context, close, parts)?;
    Ok(Contract { pre, post })
}

/// A contract.
fn read_contract(alloc: Global, context: &Context, part: &Sexp) -> Result<Contract, TextFault>
    ensures { Gives (λ k. k) result (contract_in context.now.later (part_of part.now)) }
{
    contract_of_parts(alloc, context, part)
}

/// A contract, if there is one, and the parts after it.
#[tactic(auto, unfolding(notes_grammar::specs::Reading::contract_first))]
fn contract_first<'a>(
    alloc: Global,
    context: &Context,
    parts: &'a [Sexp],
) -> Result<(Option<Contract>, &'a [Sexp]), TextFault>
    ensures { Gives (λ x. (x.0, parts_of x.1.now)) result (contract_first context.now.later (parts_of parts.now)) }
{
    let [first, rest @ ..] = parts else {
        return Ok((None, parts));
    };
    if !is_tagged("contract", first) {
        return Ok((None, parts));
    }
    let contract = read_contract(alloc, context, first)?;
    Ok((Some(contract), rest))
}

/// A contract, if there is one, and notes of instructions.
fn function_parts(
    alloc: Global,
    context: &Context,
    parts: &[Sexp],
) -> Result<(Option<Contract>, List<Note>), TextFault>
    ensures { Gives (λ x. x) result (function_parts context.now (parts_of parts.now)) }
{
    let (contract, rest) = contract_first(alloc, context, parts)?;
    joined(
        contract,
        entries::<Note, InstructionNotes>(alloc, context, rest),
    )
}

/// The notes of a function of a list's parts.
fn function_of_parts(alloc: Global, context: &Context, part: &Sexp) -> Result<FuncNotes, TextFault>
    ensures { Gives (λ f. f) result (function_read context.now (part_of part.now)) }
{
    let (parts, close) = tagged("func", part)?;
    let (func, rest) = entry_field::<u32, Smalls>(alloc, context, close, parts)?;
    let (contract, notes) = function_parts(alloc, context, rest)?;
    Ok(FuncNotes {
        func,
        contract,
        notes,
    })
}

/// The notes of a function.
pub(crate) fn read_function(
    alloc: Global,
    context: &Context,
    part: &Sexp,
) -> Result<FuncNotes, TextFault>
    ensures { Gives (λ f. f) result (function_in context.now (part_of part.now)) }
{
    function_of_parts(alloc, context, part)
}

/// Notes of functions.
pub(crate) struct Functions;

impl Entry<FuncNotes> for Functions {
    ghost reads = { λ c. function_in c };

    fn read(alloc: Global, context: &Context, part: &Sexp) -> Result<FuncNotes, TextFault> {
        read_function(alloc, context, part)
    }
}

/// A take, if there is one, and no more.
#[tactic(auto, unfolding(notes_grammar::specs::Reading::after_list))]
fn after_parts(alloc: Global, context: &Context, parts: &[Sexp]) -> Result<Option<Take>, TextFault>
    ensures { Gives (λ t. t) result (after_list context.now (parts_of parts.now)) }
{
    match parts {
        [] => Ok(None),
        [first, rest @ ..] => {
            let take = Takes::read(alloc, context, first)?;
            ended(Some(take), rest)
        }
    }
}

/// The parts of an initial part.
fn initial_parts(
    alloc: Global,
    context: &Context,
    close: usize,
    parts: &[Sexp],
) -> Result<((List<Chunk>, List<Move>, With), Option<Take>), TextFault>
    ensures { Gives (λ x. x) result (initial_parts context.now close (parts_of parts.now)) }
{
    let (chunks, moves, with, rest) = three_fields::<
        List<Chunk>,
        Lists<Chunks>,
        List<Move>,
        Lists<Moves>,
        With,
        Withs,
    >(alloc, context, close, parts)?;
    joined((chunks, moves, with), after_parts(alloc, context, rest))
}

/// The initial part of a list's parts.
fn initial_of_parts(alloc: Global, context: &Context, part: &Sexp) -> Result<Initial, TextFault>
    ensures { Gives (λ i. i) result (initial_read context.now (part_of part.now)) }
{
    let (parts, close) = tagged("initial", part)?;
    let ((chunks, moves, with), after) = initial_parts(alloc, context, close, parts)?;
    Ok(Initial {
        chunks,
        moves,
        with,
        after,
    })
}

/// An initial part.
pub(crate) fn read_initial(
    alloc: Global,
    context: &Context,
    part: &Sexp,
) -> Result<Initial, TextFault>
    ensures { Gives (λ i. i) result (initial_in context.now (part_of part.now)) }
{
    initial_of_parts(alloc, context, part)
}

/// Initial parts.
pub(crate) struct Initials;

impl Entry<Initial> for Initials {
    ghost reads = { λ c. initial_in c };

    fn read(alloc: Global, context: &Context, part: &Sexp) -> Result<Initial, TextFault> {
        read_initial(alloc, context, part)
    }
}
