// Assertions, and how they are entailed.

ghost use Rattle.sexp_text.specs.Reading.{Gives};
ghost use Rattle.notes_grammar.specs.Parts.{part_of, parts_of};
ghost use Rattle.notes_grammar.specs.Reading.{assertion_in, with_list, with_in};
ghost use Rattle.notes_moves.specs.words.Assertions.{assertion_read, with_parts, with_read};

use crate::chunks::Chunks;
use notes::{Assertion, Chunk, With};
use notes_parts::{Context, tagged};
use notes_terms::{Entry, Formulas, Lists, Smalls, Terms, whole_three};
use sexp_text::{Sexp, TextFault};
use std::alloc::Global;
use term_trees::{Formula, Term};
use wasm_values::List;

/// The assertion of a list's parts.
fn assertion_of_parts(alloc: Global, context: &Context, part: &Sexp) -> Result<Assertion, TextFault>
    ensures { Gives (λ a. a) result (assertion_read context.now.later (part_of part.now)) }
{
    let (parts, close) = tagged("assert", part)?;
    let (own, formulas, chunks) = whole_three::<
        u32,
        Smalls,
        List<Formula>,
        Lists<Formulas>,
        List<Chunk>,
        Lists<Chunks>,
    >(alloc, context, close, parts)?;
    Ok(Assertion {
        own,
        formulas,
        chunks,
    })
}

/// An assertion.
pub fn read_assertion(alloc: Global, context: &Context, part: &Sexp) -> Result<Assertion, TextFault>
    ensures { Gives (λ a. a) result (assertion_in context.now.later (part_of part.now)) }
{
    assertion_of_parts(alloc, context, part)
}

/// Assertions.
pub struct Assertions;

impl Entry<Assertion> for Assertions {
    ghost reads = { λ c. assertion_in c.later };

    fn read(alloc: Global, context: &Context, part: &Sexp) -> Result<Assertion, TextFault> {
        read_assertion(alloc, context, part)
    }
}

/// The `with` of these parts.
fn with_parts(
    alloc: Global,
    context: &Context,
    close: usize,
    parts: &[Sexp],
) -> Result<With, TextFault>
    ensures { Gives (λ w. w) result (with_parts context.now.later close (parts_of parts.now)) }
{
    let (terms, facts, chunks) = whole_three::<
        List<Term>,
        Lists<Terms>,
        List<u32>,
        Lists<Smalls>,
        List<u32>,
        Lists<Smalls>,
    >(alloc, context, close, parts)?;
    Ok(With {
        terms,
        facts,
        chunks,
    })
}

/// The `with` of these parts.
pub fn read_with_list(
    alloc: Global,
    context: &Context,
    close: usize,
    parts: &[Sexp],
) -> Result<With, TextFault>
    ensures { Gives (λ w. w) result (with_list context.now.later close (parts_of parts.now)) }
{
    with_parts(alloc, context, close, parts)
}

/// The `with` of a list's parts.
fn with_of_parts(alloc: Global, context: &Context, part: &Sexp) -> Result<With, TextFault>
    ensures { Gives (λ w. w) result (with_read context.now.later (part_of part.now)) }
{
    let (parts, close) = tagged("with", part)?;
    with_parts(alloc, context, close, parts)
}

/// A `with`.
pub fn read_with(alloc: Global, context: &Context, part: &Sexp) -> Result<With, TextFault>
    ensures { Gives (λ w. w) result (with_in context.now.later (part_of part.now)) }
{
    with_of_parts(alloc, context, part)
}

/// `with`s.
pub struct Withs;

impl Entry<With> for Withs {
    ghost reads = { λ c. with_in c.later };

    fn read(alloc: Global, context: &Context, part: &Sexp) -> Result<With, TextFault> {
        read_with(alloc, context, part)
    }
}
