// Parts of a list, each read in its own way, one after another.

ghost use Rattle.std.specs.Prelude.{◌≡◌};
ghost use Rattle.sexp_text.specs.Reading.{Gives};
ghost use Rattle.notes_grammar.specs.Parts.{parts_of};
ghost use Rattle.notes_terms.specs.Fields.{two_fields, three_fields, four_fields, whole_one, whole_two, whole_three, whole_four};

use crate::entry::{Entry, entry_field};
use notes_parts::{Context, ended};
use sexp_text::{Sexp, TextFault};
use std::alloc::Global;

/// The next two parts, and those after them.
pub fn two_fields<'a, X: Drop, E: Entry<X>, Y: Drop, F: Entry<Y>>(
    alloc: Global,
    context: &Context,
    close: usize,
    parts: &'a [Sexp],
) -> Result<(X, Y, &'a [Sexp]), TextFault>
    ensures { Gives (λ x. (x.0, x.1, parts_of x.2.now)) result (two_fields (E.reads context.now) (F.reads context.now) close (parts_of parts.now)) }
{
    let (x, parts) = entry_field::<X, E>(alloc, context, close, parts)?;
    let (y, parts) = entry_field::<Y, F>(alloc, context, close, parts)?;
    Ok((x, y, parts))
}

/// The next three parts, and those after them.
pub fn three_fields<'a, X: Drop, E: Entry<X>, Y: Drop, F: Entry<Y>, Z: Drop, G: Entry<Z>>(
    alloc: Global,
    context: &Context,
    close: usize,
    parts: &'a [Sexp],
) -> Result<(X, Y, Z, &'a [Sexp]), TextFault>
    ensures { Gives (λ x. (x.0, x.1, x.2, parts_of x.3.now)) result (three_fields (E.reads context.now) (F.reads context.now) (G.reads context.now) close (parts_of parts.now)) }
{
    let (x, y, parts) = two_fields::<X, E, Y, F>(alloc, context, close, parts)?;
    let (z, parts) = entry_field::<Z, G>(alloc, context, close, parts)?;
    Ok((x, y, z, parts))
}

/// The next four parts, and those after them.
pub fn four_fields<
    'a,
    X: Drop,
    E: Entry<X>,
    Y: Drop,
    F: Entry<Y>,
    Z: Drop,
    G: Entry<Z>,
    W: Drop,
    H: Entry<W>,
>(
    alloc: Global,
    context: &Context,
    close: usize,
    parts: &'a [Sexp],
) -> Result<(X, Y, Z, W, &'a [Sexp]), TextFault>
    ensures { Gives (λ x. (x.0, x.1, x.2, x.3, parts_of x.4.now)) result (four_fields (E.reads context.now) (F.reads context.now) (G.reads context.now) (H.reads context.now) close (parts_of parts.now)) }
{
    let (x, y, parts) = two_fields::<X, E, Y, F>(alloc, context, close, parts)?;
    let (z, w, parts) = two_fields::<Z, G, W, H>(alloc, context, close, parts)?;
    Ok((x, y, z, w, parts))
}

/// A list of one part.
pub fn whole_one<X: Drop, E: Entry<X>>(
    alloc: Global,
    context: &Context,
    close: usize,
    parts: &[Sexp],
) -> Result<X, TextFault>
    ensures { Gives (λ x. x) result (whole_one (E.reads context.now) close (parts_of parts.now)) }
{
    let (x, rest) = entry_field::<X, E>(alloc, context, close, parts)?;
    ended(x, rest)
}

/// A list of two parts.
pub fn whole_two<X: Drop, E: Entry<X>, Y: Drop, F: Entry<Y>>(
    alloc: Global,
    context: &Context,
    close: usize,
    parts: &[Sexp],
) -> Result<(X, Y), TextFault>
    ensures { Gives (λ x. x) result (whole_two (E.reads context.now) (F.reads context.now) close (parts_of parts.now)) }
{
    let (x, y, rest) = two_fields::<X, E, Y, F>(alloc, context, close, parts)?;
    ended((x, y), rest)
}

/// A list of three parts.
pub fn whole_three<X: Drop, E: Entry<X>, Y: Drop, F: Entry<Y>, Z: Drop, G: Entry<Z>>(
    alloc: Global,
    context: &Context,
    close: usize,
    parts: &[Sexp],
) -> Result<(X, Y, Z), TextFault>
    ensures { Gives (λ x. x) result (whole_three (E.reads context.now) (F.reads context.now) (G.reads context.now) close (parts_of parts.now)) }
{
    let (x, y, z, rest) = three_fields::<X, E, Y, F, Z, G>(alloc, context, close, parts)?;
    ended((x, y, z), rest)
}

/// A list of four parts.
pub fn whole_four<
    X: Drop,
    E: Entry<X>,
    Y: Drop,
    F: Entry<Y>,
    Z: Drop,
    G: Entry<Z>,
    W: Drop,
    H: Entry<W>,
>(alloc: Global, context: &Context, close: usize, parts: &[Sexp]) -> Result<(X, Y, Z, W), TextFault>
    ensures { Gives (λ x. x) result (whole_four (E.reads context.now) (F.reads context.now) (G.reads context.now) (H.reads context.now) close (parts_of parts.now)) }
{
    let (x, y, z, w, rest) = four_fields::<X, E, Y, F, Z, G, W, H>(alloc, context, close, parts)?;
    ended((x, y, z, w), rest)
}
