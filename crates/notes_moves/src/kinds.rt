// Places, and what is read behind a part.

ghost use Rattle.std.specs.Prelude.{Result, Ok};
ghost use Rattle.sexp_text.specs.declared.fault.TextFault.{TextFault as Fault};
ghost use Rattle.sexp_text.specs.Reading.{Gives};
ghost use Rattle.notes_grammar.specs.Reading.{place_in};
ghost use Rattle.notes_moves.specs.Joined.{joined};

use notes_parts::{Context, place_in};
use notes_terms::Entry;
use sexp_text::{Sexp, TextFault};
use std::alloc::Global;
use term_trees::Place;

/// Places.
pub struct Places;

impl Entry<Place> for Places {
    ghost reads = { λ c. place_in c.later };

    fn read(_alloc: Global, context: &Context, part: &Sexp) -> Result<Place, TextFault> {
        place_in(context.is_later(), part)
    }
}

/// What was read, and what is read behind it.
pub fn joined<X: Drop, Y: Drop>(first: X, second: Result<Y, TextFault>) -> Result<(X, Y), TextFault>
    ensures { (said : Result Y Fault) → Gives (λ y. y) second said → Gives (λ x. x) result (joined first said) }
{
    match second {
        Ok(second) => Ok((first, second)),
        Err(fault) => Err(fault),
    }
}
