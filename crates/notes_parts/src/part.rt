// The parts of a text.

ghost use Rattle.std.specs.Prelude.{◌≡◌};
ghost use Rattle.sexp_text.specs.Reading.{Gives};
ghost use Rattle.notes_grammar.specs.Parts.{Number, place, part_of, parts_of};
ghost use Rattle.notes_grammar.specs.Reading.{form, next, ended, inside, word, small, whole};
ghost use Rattle.notes_parts.specs.Seen.{part_seen};

use sexp_text::{Node, Sexp, TextFault, TextWord};
use wasm_values::Text;

/// A part, lent. A list has its parts and the place of its closing parenthesis.
#[derive(Clone, Copy)]
pub enum Seen<'a> {
    Number(i128),
    Word(&'a Text),
    Quote(&'a Text),
    List(&'a [Sexp], usize),
}

#[tactic(auto, unfolding(notes_grammar::specs::Parts::part_of))]
pub fn look(part: &Sexp) -> Seen<'_>
    ensures { part_of part.now ≡ part_seen part.now.at result }
{
    match &part.node {
        Node::Num(n) => Seen::Number(*n),
        Node::Word(text) => Seen::Word(text),
        Node::Str(text) => Seen::Quote(text),
        Node::List { parts, close } => Seen::List(parts.as_slice(), *close),
    }
}

/// The place of a part's first byte.
pub fn place(part: &Sexp) -> usize
    ensures { result ≡ place (part_of part.now) }
{
    part.at
}

/// What stands at this place does not fit.
pub fn form<T>(at: usize) -> Result<T, TextFault>
    ensures { result ≡ form at }
{
    Err(TextFault::Refused {
        at,
        word: TextWord::Form,
    })
}

/// The next part of a list that closes at this place, and those after it.
pub fn next(close: usize, parts: &[Sexp]) -> Result<(&Sexp, &[Sexp]), TextFault>
    ensures { Gives (λ x. (part_of x.0.now, parts_of x.1.now)) result (next close (parts_of parts.now)) }
{
    match parts {
        [] => Err(TextFault::Refused {
            at: close,
            word: TextWord::Form,
        }),
        [first, rest @ ..] => Ok((first, rest)),
    }
}

/// No more parts.
pub fn ended<T: Drop>(value: T, parts: &[Sexp]) -> Result<T, TextFault>
    ensures { Gives (λ x. x) result (ended value (parts_of parts.now)) }
{
    match parts {
        [] => Ok(value),
        [first, ..] => form(place(first)),
    }
}

/// The parts of a list, and the place where it closes.
pub fn inside(part: &Sexp) -> Result<(&[Sexp], usize), TextFault>
    ensures { Gives (λ x. (parts_of x.0.now, x.1)) result (inside (part_of part.now)) }
{
    match look(part) {
        Seen::List(parts, close) => Ok((parts, close)),
        _ => form(part.at),
    }
}

/// A word.
pub fn word(part: &Sexp) -> Result<&Text, TextFault>
    ensures { Gives (λ x. x.now) result (word (part_of part.now)) }
{
    match look(part) {
        Seen::Word(text) => Ok(text),
        _ => form(part.at),
    }
}

/// A number.
#[tactic(auto, unfolding(notes_grammar::specs::Reading::whole))]
pub fn whole(part: &Sexp) -> Result<i128, TextFault>
    ensures { Gives (λ x. x) result (whole (part_of part.now)) }
{
    match look(part) {
        Seen::Number(n) => Ok(n),
        _ => form(part.at),
    }
}

/// A number from 0 to 4294967295.
#[tactic(auto, unfolding(notes_grammar::specs::Reading::small))]
pub fn small(part: &Sexp) -> Result<u32, TextFault>
    ensures { Gives (λ x. x) result (small (part_of part.now)) }
{
    match look(part) {
        Seen::Number(n) => small_at(part.at, n),
        _ => form(part.at),
    }
}

/// The number at this place, from 0 to 4294967295.
#[tactic(auto, unfolding(notes_grammar::specs::Reading::small))]
fn small_at(at: usize, n: i128) -> Result<u32, TextFault>
    ensures { Gives (λ x. x) result (small (Number at n)) }
{
    if n < 0 || n > 4294967295 {
        return form(at);
    }
    Ok(n as u32)
}
