// Words that are variables, and the lists that are places.

ghost use Rattle.std.specs.Prelude.{◌≡◌};
ghost use Rattle.sexp_text.specs.Bytes.{is_digit};
ghost use Rattle.sexp_text.specs.Reading.{Gives};
ghost use Rattle.notes_grammar.specs.Parts.{part_of, parts_of};
ghost use Rattle.notes_grammar.specs.Reading.{headed, numbered, ended, in_second, place_at, place_in, or_form, index_from, index_of, leaf_of};
ghost use Rattle.notes_parts.specs.Seen.{headed_seen};

use crate::part::{ended, form, inside, next, place, small, word};
use crate::words::head_named;
use notes_grammar::Head;
use sexp_text::{Sexp, TextFault};
use term_trees::{Place, Term};

/// A list that begins with a word: the place of the word, what it is, the parts after it, and where the list closes.
#[derive(Clone, Copy)]
pub struct Headed<'a> {
    pub at: usize,
    pub head: Head,
    pub rest: &'a [Sexp],
    pub close: usize,
}

/// A list that begins with a word.
#[tactic(auto, unfolding(notes_grammar::specs::Reading::headed))]
pub fn headed_list(part: &Sexp) -> Result<Headed<'_>, TextFault>
    ensures { Gives headed_seen result (headed (part_of part.now)) }
{
    let (parts, close) = inside(part)?;
    let (first, rest) = next(close, parts)?;
    let text = word(first)?;
    let at = place(first);
    match head_named(text.as_str().as_bytes()) {
        None => form(at),
        Some(head) => Ok(Headed {
            at,
            head,
            rest,
            close,
        }),
    }
}

/// One number behind a head, and no more.
#[tactic(auto, unfolding(notes_grammar::specs::Reading::numbered))]
pub fn numbered(headed: &Headed<'_>) -> Result<u32, TextFault>
    ensures { Gives (λ n. n) result (numbered (headed_seen headed.now)) }
{
    let (part, rest) = next(headed.close, headed.rest)?;
    let n = small(part)?;
    ended(n, rest)
}

/// What stands in version 2 alone, or a head that does not fit.
fn in_second(later: bool, at: usize, place: Place, rest: &[Sexp]) -> Result<Place, TextFault>
    ensures { Gives (λ p. p) result (in_second later at (ended place (parts_of rest.now))) }
{
    if !later {
        return form(at);
    }
    ended(place, rest)
}

/// The place of a head.
#[tactic(auto, unfolding(notes_grammar::specs::Reading::place_at))]
pub fn place_at(later: bool, headed: &Headed<'_>) -> Result<Place, TextFault>
    ensures { Gives (λ p. p) result (place_at later (headed_seen headed.now) headed.now.head) }
{
    match headed.head {
        Head::Local => numbered(headed).map(Place::Local),
        Head::Stack => numbered(headed).map(Place::Stack),
        Head::Global => numbered(headed).map(Place::Global),
        Head::Arg => numbered(headed).map(Place::Arg),
        Head::Pages => ended(Place::Pages, headed.rest),
        Head::Result => ended(Place::Result, headed.rest),
        Head::Index => in_second(later, headed.at, Place::Index, headed.rest),
        Head::Item => in_second(later, headed.at, Place::Item, headed.rest),
        _ => form(headed.at),
    }
}

/// A place.
#[tactic(auto, unfolding(notes_grammar::specs::Reading::place_in))]
pub fn place_in(later: bool, part: &Sexp) -> Result<Place, TextFault>
    ensures { Gives (λ p. p) result (place_in later (part_of part.now)) }
{
    let list = headed_list(part)?;
    place_at(later, &list)
}

fn is_digit(b: u8) -> bool
    ensures { result ≡ is_digit b }
{
    48 <= b && b <= 57
}

/// The number that more digits write, from 0 to 4294967295.
fn index_from(first: u32, bytes: &[u8]) -> Option<u32>
    ensures { result ≡ index_from first bytes.now }
{
    let mut n = first;
    for b in bytes {
        if !is_digit(*b) {
            return None;
        }
        let more = 10 * n as u64 + (*b - 48) as u64;
        if more > 4294967295 {
            return None;
        }
        n = more as u32;
    }
    Some(n)
}

/// The canonical decimal number that digits write, from 0 to 4294967295.
#[tactic(auto, unfolding(notes_grammar::specs::Reading::index_of))]
fn index_of(bytes: &[u8]) -> Option<u32>
    ensures { result ≡ index_of bytes.now }
{
    match bytes {
        [] => None,
        [b'0'] => Some(0),
        [b @ b'1'..=b'9', rest @ ..] => index_from((*b - 48) as u32, rest),
        _ => None,
    }
}

/// A word that is a variable.
#[tactic(auto, unfolding(notes_grammar::specs::Reading::leaf_of))]
fn leaf_of(bytes: &[u8]) -> Option<Term>
    ensures { result ≡ leaf_of bytes.now }
{
    match bytes {
        [b'v', digits @ ..] => index_of(digits).map(Term::Var),
        [b'x', digits @ ..] => index_of(digits).map(Term::Own),
        _ => None,
    }
}

/// The word at this place, which is a variable.
pub fn leaf(at: usize, bytes: &[u8]) -> Result<Term, TextFault>
    ensures { Gives (λ t. t) result (or_form at (leaf_of bytes.now)) }
{
    match leaf_of(bytes) {
        None => form(at),
        Some(term) => Ok(term),
    }
}
