// Moves on chunks.

ghost use Rattle.std.specs.Prelude.{◌≡◌};
ghost use Rattle.sexp_text.specs.Reading.{Gives};
ghost use Rattle.notes_grammar.specs.Parts.{parts_of};
ghost use Rattle.notes_parts.specs.Seen.{headed_seen};
ghost use Rattle.notes_moves.specs.words.HeapMoves.{second, heap_kind, one_move, two_move, term_move, part_move, enrow_read, rows_read, heap_formed};

use notes::HeapMove;
use notes_grammar::Head;
use notes_parts::{Context, Headed, form, width_field};
use notes_terms::{Formulas, Smalls, Terms, entry_field, whole_four, whole_one, whole_three};
use sexp_text::{Sexp, TextFault};
use std::alloc::Global;
use term_trees::{Formula, Term};

/// What is done to one chunk.
#[derive(Clone, Copy)]
pub(crate) enum OnOne {
    Forget,
    View,
    Halve,
}

/// What is done to two chunks, by a fact.
#[derive(Clone, Copy)]
pub(crate) enum OnTwo {
    Merge,
    Unite,
    Join,
}

/// What is done to a chunk with a term, by a fact.
#[derive(Clone, Copy)]
pub(crate) enum OnTerm {
    Readdr,
    Reval,
    Relen,
}

/// What is done to a chunk at a term, by two facts.
#[derive(Clone, Copy)]
pub(crate) enum OnPart {
    Split,
    Pick,
}

/// What a list that is a move on chunks is made of.
#[derive(Clone, Copy)]
pub(crate) enum HeapKind {
    One(OnOne),
    Two(OnTwo),
    Term(OnTerm),
    Part(OnPart),
    Enrow,
    Rows,
    Other,
}

/// A kind in version 2 alone.
fn second(later: bool, kind: HeapKind) -> HeapKind
    ensures { result ≡ second later kind }
{
    if later { kind } else { HeapKind::Other }
}

/// The kind of a move on chunks whose list begins with this head.
pub(crate) fn heap_kind(later: bool, head: Head) -> HeapKind
    ensures { result ≡ heap_kind later head }
{
    match head {
        Head::Split => HeapKind::Part(OnPart::Split),
        Head::Merge => HeapKind::Two(OnTwo::Merge),
        Head::Forget => HeapKind::One(OnOne::Forget),
        Head::View => HeapKind::One(OnOne::View),
        Head::Halve => HeapKind::One(OnOne::Halve),
        Head::Unite => HeapKind::Two(OnTwo::Unite),
        Head::Readdr => HeapKind::Term(OnTerm::Readdr),
        Head::Reval => HeapKind::Term(OnTerm::Reval),
        Head::Relen => HeapKind::Term(OnTerm::Relen),
        Head::Pick => second(later, HeapKind::Part(OnPart::Pick)),
        Head::Join => second(later, HeapKind::Two(OnTwo::Join)),
        Head::Enrow => second(later, HeapKind::Enrow),
        Head::Rows => second(later, HeapKind::Rows),
        _ => HeapKind::Other,
    }
}

/// The move on one chunk.
fn one_move(kind: OnOne, chunk: u32) -> HeapMove
    ensures { result ≡ one_move kind chunk }
{
    match kind {
        OnOne::Forget => HeapMove::Forget(chunk),
        OnOne::View => HeapMove::View(chunk),
        OnOne::Halve => HeapMove::Halve(chunk),
    }
}

/// The move on two chunks.
fn two_move(kind: OnTwo, numbers: (u32, u32, u32)) -> HeapMove
    ensures { result ≡ two_move kind numbers }
{
    let (first, second, fact) = numbers;
    match kind {
        OnTwo::Merge => HeapMove::Merge(first, second, fact),
        OnTwo::Unite => HeapMove::Unite(first, second, fact),
        OnTwo::Join => HeapMove::Join(first, second, fact),
    }
}

/// The move on a chunk with a term.
fn term_move(kind: OnTerm, parts: (u32, Term, u32)) -> HeapMove
    ensures { result ≡ term_move kind parts }
{
    let (chunk, term, fact) = parts;
    match kind {
        OnTerm::Readdr => HeapMove::Readdr(chunk, term, fact),
        OnTerm::Reval => HeapMove::Reval(chunk, term, fact),
        OnTerm::Relen => HeapMove::Relen(chunk, term, fact),
    }
}

/// The move on a chunk at a term.
fn part_move(kind: OnPart, parts: (u32, Term, u32, u32)) -> HeapMove
    ensures { result ≡ part_move kind parts }
{
    let (chunk, term, first, second) = parts;
    match kind {
        OnPart::Split => HeapMove::Split(chunk, term, first, second),
        OnPart::Pick => HeapMove::Pick(chunk, term, first, second),
    }
}

/// The `enrow` of these parts.
fn read_enrow(
    alloc: Global,
    context: &Context,
    close: usize,
    parts: &[Sexp],
) -> Result<HeapMove, TextFault>
    ensures { Gives (λ m. m) result (enrow_read context.now.later close (parts_of parts.now)) }
{
    let (chunk, each, fact) = whole_three::<u32, Smalls, Formula, Formulas, u32, Smalls>(
        alloc, context, close, parts,
    )?;
    Ok(HeapMove::Enrow(chunk, each, fact))
}

/// The `rows` of these parts.
fn read_rows(
    alloc: Global,
    context: &Context,
    close: usize,
    parts: &[Sexp],
) -> Result<HeapMove, TextFault>
    ensures { Gives (λ m. m) result (rows_read context.now.later close (parts_of parts.now)) }
{
    let (chunk, rest) = entry_field::<u32, Smalls>(alloc, context, close, parts)?;
    let (width, rest) = width_field(close, rest)?;
    let each = whole_one::<Formula, Formulas>(alloc, context, close, rest)?;
    Ok(HeapMove::Rows(chunk, width, each))
}

/// The move on chunks of a list of this kind.
pub(crate) fn heap_formed(
    alloc: Global,
    context: &Context,
    kind: HeapKind,
    headed: &Headed<'_>,
) -> Result<HeapMove, TextFault>
    ensures { Gives (λ m. m) result (heap_formed context.now.later kind (headed_seen headed.now)) }
{
    let close = headed.close;
    let rest = headed.rest;
    match kind {
        HeapKind::One(kind) => {
            let chunk = whole_one::<u32, Smalls>(alloc, context, close, rest)?;
            Ok(one_move(kind, chunk))
        }
        HeapKind::Two(kind) => {
            let numbers = whole_three::<u32, Smalls, u32, Smalls, u32, Smalls>(
                alloc, context, close, rest,
            )?;
            Ok(two_move(kind, numbers))
        }
        HeapKind::Term(kind) => {
            let parts = whole_three::<u32, Smalls, Term, Terms, u32, Smalls>(
                alloc, context, close, rest,
            )?;
            Ok(term_move(kind, parts))
        }
        HeapKind::Part(kind) => {
            let parts = whole_four::<u32, Smalls, Term, Terms, u32, Smalls, u32, Smalls>(
                alloc, context, close, rest,
            )?;
            Ok(part_move(kind, parts))
        }
        HeapKind::Enrow => read_enrow(alloc, context, close, rest),
        HeapKind::Rows => read_rows(alloc, context, close, rest),
        HeapKind::Other => form(headed.at),
    }
}
