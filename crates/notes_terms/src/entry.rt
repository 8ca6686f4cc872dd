// Parts that are read alike, one after another.

ghost use Rattle.std.specs.Prelude.{◌≡◌};
ghost use Rattle.sexp_text.specs.Reading.{Gives};
ghost use Rattle.notes_grammar.specs.Parts.{part_of, parts_of};
ghost use Rattle.notes_grammar.specs.Reading.{all_of, list_of, field};

use notes_parts::{Context, inside, next};
use sexp_text::{Sexp, TextFault};
use std::alloc::Global;
use std::marker::PhantomData;
use wasm_values::List;

/// A way to read a part of notes.
pub trait Entry<X: Drop> {
    ghost use Rattle.std.specs.Prelude.{Result};
    ghost use Rattle.sexp_text.specs.declared.fault.TextFault.{TextFault};
    ghost use Rattle.notes_grammar.specs.Parts.{Part};
    ghost use Rattle.notes_grammar.specs.Shapes.{Setting};

    /// What the grammar reads a part as, in notes of this version with these lemmas.
    ghost reads: { Setting → Part → Result X TextFault };

    fn read(alloc: Global, context: &Context, part: &Sexp) -> Result<X, TextFault>
        ensures { Gives (λ x. x) result (reads context.now (part_of part.now)) };
}

/// What all parts are read as.
pub fn entries<X: Drop, E: Entry<X>>(
    alloc: Global,
    context: &Context,
    parts: &[Sexp],
) -> Result<List<X>, TextFault>
    ensures { Gives (λ xs. xs) result (all_of (E.reads context.now) (parts_of parts.now)) }
{
    let mut entries = List::new(alloc);
    for part in parts {
        let entry = E::read(alloc, context, part)?;
        entries.push(entry)?;
    }
    Ok(entries)
}

/// What the parts of a list are read as.
pub fn entry_list<X: Drop, E: Entry<X>>(
    alloc: Global,
    context: &Context,
    part: &Sexp,
) -> Result<List<X>, TextFault>
    ensures { Gives (λ xs. xs) result (list_of (E.reads context.now) (part_of part.now)) }
{
    let (parts, _) = inside(part)?;
    entries::<X, E>(alloc, context, parts)
}

/// What the next part is read as, and the parts after it.
pub fn entry_field<'a, X: Drop, E: Entry<X>>(
    alloc: Global,
    context: &Context,
    close: usize,
    parts: &'a [Sexp],
) -> Result<(X, &'a [Sexp]), TextFault>
    ensures { Gives (λ x. (x.0, parts_of x.1.now)) result (field (E.reads context.now) close (parts_of parts.now)) }
{
    let (part, rest) = next(close, parts)?;
    let entry = E::read(alloc, context, part)?;
    Ok((entry, rest))
}

/// Lists of parts that are read alike.
pub struct Lists<E> {
    entry: PhantomData<E>,
}

impl<X: Drop, E: Entry<X>> Entry<List<X>> for Lists<E> {
    ghost use Rattle.notes_grammar.specs.Reading.{list_of};

    ghost reads = { λ c. list_of (E.reads c) };

    fn read(alloc: Global, context: &Context, part: &Sexp) -> Result<List<X>, TextFault> {
        entry_list::<X, E>(alloc, context, part)
    }
}
