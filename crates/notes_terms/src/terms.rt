// Terms.

ghost use Rattle.sexp_text.specs.Reading.{Gives};
ghost use Rattle.term_trees.specs.Terms.{node_count};
ghost use Rattle.notes_grammar.specs.Parts.{part_of, parts_of};
ghost use Rattle.notes_grammar.specs.Reading.{one_of, two_of, bare_term, term_in, term_tokens};
ghost use Rattle.notes_terms.specs.words.Forms.{listed_term, opening_seen, opened};

use crate::over::{Beginning, begin_term, over_one, over_two};
use crate::size::{both, last, limited};
use notes_parts::{Seen, form, leaf, look, next, place};
use sexp_text::{Sexp, TextFault};
use std::alloc::Global;
use term_trees::Term;

/// The one term that these parts are.
#[cycle(terms)]
fn one_term(alloc: Global, later: bool, close: usize, parts: &[Sexp]) -> Result<Term, TextFault>
    ensures { Gives (λ t. t) result (one_of node_count close (term_tokens later (parts_of parts.now))) }
{
    let (first, rest) = next(close, parts)?;
    let term = bare_term(alloc, later, first)?;
    last(place(first), term, rest)
}

/// The two terms that these parts are.
#[cycle(terms)]
pub(crate) fn two_terms(
    alloc: Global,
    later: bool,
    close: usize,
    parts: &[Sexp],
) -> Result<(Term, Term), TextFault>
    ensures { Gives (λ x. x) result (two_of node_count close (term_tokens later (parts_of parts.now))) }
{
    let (first, rest) = next(close, parts)?;
    let term = bare_term(alloc, later, first)?;
    both(place(first), term, one_term(alloc, later, close, rest))
}

/// The term of a list that begins so.
#[cycle(terms)]
fn begun_term(
    alloc: Global,
    later: bool,
    close: usize,
    beginning: &Beginning<'_>,
) -> Result<Term, TextFault>
    ensures { Gives (λ t. t) result (opened later close (opening_seen beginning.now)) }
{
    match *beginning {
        Beginning::Place(place) => Ok(Term::At(place)),
        Beginning::One(op, parts) => {
            let term = one_term(alloc, later, close, parts)?;
            Ok(over_one(alloc, op, term)?)
        }
        Beginning::Two(op, parts) => {
            let terms = two_terms(alloc, later, close, parts)?;
            Ok(over_two(alloc, op, terms)?)
        }
    }
}

/// The term that is a list of these parts.
#[cycle(terms)]
fn listed_term(alloc: Global, later: bool, close: usize, parts: &[Sexp]) -> Result<Term, TextFault>
    ensures { Gives (λ t. t) result (listed_term later close (parts_of parts.now)) }
{
    let beginning = begin_term(later, close, parts)?;
    begun_term(alloc, later, close, &beginning)
}

/// A term, whose size isn't tested yet.
#[cycle(terms)]
fn bare_term(alloc: Global, later: bool, part: &Sexp) -> Result<Term, TextFault>
    ensures { Gives (λ t. t) result (bare_term later (part_of part.now)) }
{
    match look(part) {
        Seen::Number(n) => Ok(Term::Num(n)),
        Seen::Word(text) => leaf(part.at, text.as_str().as_bytes()),
        Seen::Quote(_) => form(part.at),
        Seen::List(parts, close) => listed_term(alloc, later, close, parts),
    }
}

/// A term of at most 4,096 nodes.
#[tactic(auto, unfolding(notes_grammar::specs::Reading::term_in))]
pub fn read_term(alloc: Global, later: bool, part: &Sexp) -> Result<Term, TextFault>
    ensures { Gives (λ t. t) result (term_in later (part_of part.now)) }
{
    let term = bare_term(alloc, later, part)?;
    limited(place(part), term)
}
