// Chunks.

ghost use Rattle.std.specs.Prelude.{◌≡◌};
ghost use Rattle.sexp_text.specs.Reading.{Gives};
ghost use Rattle.notes_grammar.specs.Parts.{part_of, parts_of};
ghost use Rattle.notes_grammar.specs.Reading.{chunk_in};
ghost use Rattle.notes_parts.specs.Seen.{headed_seen};
ghost use Rattle.notes_moves.specs.words.Chunks.{chunk_kind, cell_read, region_read, row_read, chunk_formed, chunk_read};

use notes::Chunk;
use notes_grammar::Head;
use notes_parts::{Context, Headed, form, headed_list, width_field};
use notes_terms::{Entry, Formulas, Terms, whole_three, whole_two};
use sexp_text::{Sexp, TextFault};
use std::alloc::Global;
use term_trees::{Formula, Term};

/// What a list that is a chunk is made of.
#[derive(Clone, Copy)]
pub(crate) enum ChunkKind {
    Cell,
    Region,
    Row,
    Other,
}

/// The kind of a chunk whose list begins with this head.
fn chunk_kind(later: bool, head: Head) -> ChunkKind
    ensures { result ≡ chunk_kind later head }
{
    match head {
        Head::Cell => ChunkKind::Cell,
        Head::Region => ChunkKind::Region,
        Head::Row => {
            if later {
                ChunkKind::Row
            } else {
                ChunkKind::Other
            }
        }
        _ => ChunkKind::Other,
    }
}

/// The cell of these parts.
fn read_cell(
    alloc: Global,
    context: &Context,
    close: usize,
    parts: &[Sexp],
) -> Result<Chunk, TextFault>
    ensures { Gives (λ c. c) result (cell_read context.now.later close (parts_of parts.now)) }
{
    let (width, rest) = width_field(close, parts)?;
    let (at, value) = whole_two::<Term, Terms, Term, Terms>(alloc, context, close, rest)?;
    Ok(Chunk::Cell { width, at, value })
}

/// The region of these parts.
fn read_region(
    alloc: Global,
    context: &Context,
    close: usize,
    parts: &[Sexp],
) -> Result<Chunk, TextFault>
    ensures { Gives (λ c. c) result (region_read context.now.later close (parts_of parts.now)) }
{
    let (at, len) = whole_two::<Term, Terms, Term, Terms>(alloc, context, close, parts)?;
    Ok(Chunk::Region { at, len })
}

/// The row of these parts.
fn read_row(
    alloc: Global,
    context: &Context,
    close: usize,
    parts: &[Sexp],
) -> Result<Chunk, TextFault>
    ensures { Gives (λ c. c) result (row_read context.now.later close (parts_of parts.now)) }
{
    let (width, rest) = width_field(close, parts)?;
    let (at, count, each) = whole_three::<Term, Terms, Term, Terms, Formula, Formulas>(
        alloc, context, close, rest,
    )?;
    Ok(Chunk::Row {
        width,
        at,
        count,
        each,
    })
}

/// The chunk of a list of this kind.
fn chunk_formed(
    alloc: Global,
    context: &Context,
    kind: ChunkKind,
    headed: &Headed<'_>,
) -> Result<Chunk, TextFault>
    ensures { Gives (λ c. c) result (chunk_formed context.now.later kind (headed_seen headed.now)) }
{
    match kind {
        ChunkKind::Cell => read_cell(alloc, context, headed.close, headed.rest),
        ChunkKind::Region => read_region(alloc, context, headed.close, headed.rest),
        ChunkKind::Row => read_row(alloc, context, headed.close, headed.rest),
        ChunkKind::Other => form(headed.at),
    }
}

/// A chunk, by the kind of its list.
fn chunk_of_kind(alloc: Global, context: &Context, part: &Sexp) -> Result<Chunk, TextFault>
    ensures { Gives (λ c. c) result (chunk_read context.now.later (part_of part.now)) }
{
    let headed = headed_list(part)?;
    let kind = chunk_kind(context.is_later(), headed.head);
    chunk_formed(alloc, context, kind, &headed)
}

/// A chunk.
pub fn read_chunk(alloc: Global, context: &Context, part: &Sexp) -> Result<Chunk, TextFault>
    ensures { Gives (λ c. c) result (chunk_in context.now.later (part_of part.now)) }
{
    chunk_of_kind(alloc, context, part)
}

/// Chunks.
pub struct Chunks;

impl Entry<Chunk> for Chunks {
    ghost reads = { λ c. chunk_in c.later };

    fn read(alloc: Global, context: &Context, part: &Sexp) -> Result<Chunk, TextFault> {
        read_chunk(alloc, context, part)
    }
}
