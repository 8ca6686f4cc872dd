// Moves on states.

ghost use Rattle.std.specs.Prelude.{◌≡◌};
ghost use Rattle.sexp_text.specs.Reading.{Gives};
ghost use Rattle.notes_grammar.specs.Parts.{part_of, parts_of};
ghost use Rattle.notes_grammar.specs.Reading.{move_at, move_in};
ghost use Rattle.notes_parts.specs.Seen.{headed_seen};
ghost use Rattle.notes_moves.specs.words.Moves.{second, move_kind, derivation_read, put_read, each_read, use_read, move_formed, move_headed, move_read};

use crate::heap_moves::{HeapKind, heap_formed, heap_kind};
use crate::kinds::{Places, joined};
use crate::names::KnownNames;
use bitvector_rules::Step;
use notes::Move;
use notes_grammar::Head;
use notes_parts::{Context, Headed, headed_list};
use notes_terms::{
    Entry, Formulas, Lists, Smalls, Terms, entry_field, read_steps, whole_one, whole_three,
};
use sexp_text::{Sexp, TextFault};
use std::alloc::Global;
use term_trees::{Formula, Place, Term};
use wasm_values::{List, Text};

/// What a list that is a move is made of.
#[derive(Clone, Copy)]
pub(crate) enum MoveKind {
    Have,
    Name,
    Let,
    Put,
    Each,
    Use,
    Heap(HeapKind),
}

/// A kind in version 2 alone.
fn second(later: bool, kind: MoveKind) -> MoveKind
    ensures { result ≡ second later kind }
{
    if later {
        kind
    } else {
        MoveKind::Heap(HeapKind::Other)
    }
}

/// The kind of a move whose list begins with this head.
fn move_kind(later: bool, head: Head) -> MoveKind
    ensures { result ≡ move_kind later head }
{
    match head {
        Head::Have => MoveKind::Have,
        Head::Name => MoveKind::Name,
        Head::Let => MoveKind::Let,
        Head::Put => MoveKind::Put,
        Head::Each => second(later, MoveKind::Each),
        Head::Use => second(later, MoveKind::Use),
        _ => MoveKind::Heap(heap_kind(later, head)),
    }
}

/// A formula, and the steps that derive it.
fn read_derivation(
    alloc: Global,
    context: &Context,
    close: usize,
    parts: &[Sexp],
) -> Result<(Formula, List<Step>), TextFault>
    ensures { Gives (λ x. x) result (derivation_read context.now.later close (parts_of parts.now)) }
{
    let (formula, rest) = entry_field::<Formula, Formulas>(alloc, context, close, parts)?;
    joined(formula, read_steps(alloc, context, rest))
}

/// The `put` of these parts.
fn read_put(
    alloc: Global,
    context: &Context,
    close: usize,
    parts: &[Sexp],
) -> Result<Move, TextFault>
    ensures { Gives (λ m. m) result (put_read context.now.later close (parts_of parts.now)) }
{
    let (place, term, fact) = whole_three::<Place, Places, Term, Terms, u32, Smalls>(
        alloc, context, close, parts,
    )?;
    Ok(Move::Put(place, term, fact))
}

/// The `each` of these parts.
fn read_each(
    alloc: Global,
    context: &Context,
    close: usize,
    parts: &[Sexp],
) -> Result<Move, TextFault>
    ensures { Gives (λ m. m) result (each_read context.now.later close (parts_of parts.now)) }
{
    let (chunk, rest) = entry_field::<u32, Smalls>(alloc, context, close, parts)?;
    let (formula, steps) = read_derivation(alloc, context, close, rest)?;
    Ok(Move::Each(chunk, formula, steps))
}

/// The use of a lemma of these parts.
fn read_use(
    alloc: Global,
    context: &Context,
    close: usize,
    parts: &[Sexp],
) -> Result<Move, TextFault>
    ensures { Gives (λ m. m) result (use_read context.now close (parts_of parts.now)) }
{
    let (name, terms, facts) = whole_three::<
        Text,
        KnownNames,
        List<Term>,
        Lists<Terms>,
        List<u32>,
        Lists<Smalls>,
    >(alloc, context, close, parts)?;
    Ok(Move::Lemma(name, terms, facts))
}

/// The move of a list of this kind.
fn move_formed(
    alloc: Global,
    context: &Context,
    kind: MoveKind,
    headed: &Headed<'_>,
) -> Result<Move, TextFault>
    ensures { Gives (λ m. m) result (move_formed context.now kind (headed_seen headed.now)) }
{
    let close = headed.close;
    let rest = headed.rest;
    match kind {
        MoveKind::Have => {
            let (formula, steps) = read_derivation(alloc, context, close, rest)?;
            Ok(Move::Have(formula, steps))
        }
        MoveKind::Name => {
            let place = whole_one::<Place, Places>(alloc, context, close, rest)?;
            Ok(Move::Name(place))
        }
        MoveKind::Let => {
            let term = whole_one::<Term, Terms>(alloc, context, close, rest)?;
            Ok(Move::Let(term))
        }
        MoveKind::Put => read_put(alloc, context, close, rest),
        MoveKind::Each => read_each(alloc, context, close, rest),
        MoveKind::Use => read_use(alloc, context, close, rest),
        MoveKind::Heap(kind) => {
            let heap_move = heap_formed(alloc, context, kind, headed)?;
            Ok(Move::Heap(heap_move))
        }
    }
}

/// The move of a list that begins with a word, by the kind of the list.
fn move_headed(alloc: Global, context: &Context, headed: &Headed<'_>) -> Result<Move, TextFault>
    ensures { Gives (λ m. m) result (move_headed context.now (headed_seen headed.now)) }
{
    let kind = move_kind(context.is_later(), headed.head);
    move_formed(alloc, context, kind, headed)
}

/// The move of a list that begins with a word.
pub fn read_headed_move(
    alloc: Global,
    context: &Context,
    headed: &Headed<'_>,
) -> Result<Move, TextFault>
    ensures { Gives (λ m. m) result (move_at context.now (headed_seen headed.now) headed.now.head) }
{
    move_headed(alloc, context, headed)
}

/// A move, by the kind of its list.
fn move_of_kind(alloc: Global, context: &Context, part: &Sexp) -> Result<Move, TextFault>
    ensures { Gives (λ m. m) result (move_read context.now (part_of part.now)) }
{
    let headed = headed_list(part)?;
    move_headed(alloc, context, &headed)
}

/// A move.
pub fn read_move(alloc: Global, context: &Context, part: &Sexp) -> Result<Move, TextFault>
    ensures { Gives (λ m. m) result (move_in context.now (part_of part.now)) }
{
    move_of_kind(alloc, context, part)
}

/// Moves.
pub struct Moves;

impl Entry<Move> for Moves {
    ghost reads = { λ c. move_in c };

    fn read(alloc: Global, context: &Context, part: &Sexp) -> Result<Move, TextFault> {
        read_move(alloc, context, part)
    }
}
