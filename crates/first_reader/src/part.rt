// Things of one kind, one after another.

ghost use Rattle.std.specs.Prelude.{◌≡◌, ◌<◌, ◌≤◌, length, IfOk};
ghost use Rattle.first_reader.specs.Reading.{Gives};
ghost use Rattle.first_reader.specs.Lexemes.{lexemes};
ghost use Rattle.first_reader.specs.ReadingLexemes.{many_at, list_at};

use crate::error::ReadError;
use crate::text::{close, open};
use std::alloc::Global;
use wasm_values::List;

/// What notes hold many of.
pub trait Part: Drop {
    ghost use Rattle.std.specs.Prelude.{List, Option, Bool};
    ghost use Rattle.first_reader.specs.Lexemes.{Lexeme};

    ghost begins: { List Lexeme → Bool };

    ghost reads: { List Lexeme → Option (Self × List Lexeme) };

    /// Whether the text goes on with one.
    fn begins(text: &[u8]) -> bool
        ensures { result ≡ begins (lexemes text.now) };

    fn read(alloc: Global, text: &[u8]) -> Result<(Self, &[u8]), ReadError>
        ensures value { Gives (λ x. (x.0, lexemes x.1.now)) result (reads (lexemes text.now)) }
        ensures less { IfOk result (λ x. length (lexemes x.1.now) < length (lexemes text.now)) };
}

pub fn many<P: Part>(alloc: Global, text: &[u8]) -> Result<(List<P>, &[u8]), ReadError>
    ensures value { Gives (λ x. (x.0, lexemes x.1.now)) result (many_at P.begins P.reads (lexemes text.now)) }
    ensures less { IfOk result (λ x. length (lexemes x.1.now) ≤ length (lexemes text.now)) }
{
    let mut parts = List::new(alloc);
    let mut rest = text;
    'each: while P::begins(rest) {
        let (part, others) = P::read(alloc, rest)?;
        parts.push(part)?;
        rest = others;
    }
    Ok((parts, rest))
}

/// A list of them.
#[tactic(auto, unfolding(crate::specs::ReadingLexemes::list_at))]
pub fn list<P: Part>(alloc: Global, text: &[u8]) -> Result<(List<P>, &[u8]), ReadError>
    ensures value { Gives (λ x. (x.0, lexemes x.1.now)) result (list_at P.begins P.reads (lexemes text.now)) }
    ensures less { IfOk result (λ x. length (lexemes x.1.now) < length (lexemes text.now)) }
{
    let rest = open(text)?;
    let (parts, rest) = many(alloc, rest)?;
    let rest = close(rest)?;
    Ok((parts, rest))
}
