//! The parts of a list, read one after another.

ghost use Rattle.std.specs.Prelude.{◌≡◌, ◌≤◌, false, IfOk};
ghost use Rattle.sexp_text.specs.Reading.{Gives};
ghost use Rattle.script_text.specs.Names.{is_name, is_among};
ghost use Rattle.script_text.specs.Reading.{next, ended, inside, word, string, number, name, known, fresh, tagged, begins_with, is_tagged};

use crate::names::NameTable;
use sexp_text::{Node, Sexp, TextFault, TextWord};

// A part that does not fit.
fn form(at: usize) -> TextFault
    ensures { result ≡ TextFault.Refused at TextWord.Form }
{
    TextFault::Refused {
        at,
        word: TextWord::Form,
    }
}

// A name that is made twice, or that nothing makes.
fn wrong_name(at: usize) -> TextFault
    ensures { result ≡ TextFault.Refused at TextWord.Name }
{
    TextFault::Refused {
        at,
        word: TextWord::Name,
    }
}

/// The next part of a list that closes at a place, and those after it.
pub(crate) fn next(close: usize, parts: &[Sexp]) -> Result<(&Sexp, &[Sexp]), TextFault>
    ensures { Gives (λ x. (x.0.now, x.1.now)) result (next close parts.now) }
{
    match parts {
        [first, rest @ ..] => Ok((first, rest)),
        [] => Err(form(close)),
    }
}

/// That a list has no more parts.
pub(crate) fn end(parts: &[Sexp]) -> Result<(), TextFault>
    ensures { Gives (λ done. tt) result (ended parts.now) }
{
    match parts {
        [first, ..] => Err(form(first.at)),
        [] => Ok(()),
    }
}

/// The parts of a list, and the place where it closes.
#[tactic(auto, unfolding(crate::specs::Reading::inside))]
pub(crate) fn inside(s: &Sexp) -> Result<(&[Sexp], usize), TextFault>
    ensures { Gives (λ x. (x.0.now, x.1)) result (inside s.now) }
{
    match &s.node {
        Node::List { parts, close } => Ok((parts.as_slice(), *close)),
        _ => Err(form(s.at)),
    }
}

#[tactic(auto, unfolding(crate::specs::Reading::word))]
fn word(s: &Sexp) -> Result<&str, TextFault>
    ensures { Gives (λ x. x.now) result (word s.now) }
{
    match &s.node {
        Node::Word(text) => Ok(text.as_str()),
        _ => Err(form(s.at)),
    }
}

/// A string.
#[tactic(auto, unfolding(crate::specs::Reading::string))]
pub(crate) fn string(s: &Sexp) -> Result<&str, TextFault>
    ensures { Gives (λ x. x.now) result (string s.now) }
{
    match &s.node {
        Node::Str(text) => Ok(text.as_str()),
        _ => Err(form(s.at)),
    }
}

/// A number between two others.
#[tactic(auto, unfolding(crate::specs::Reading::number))]
pub(crate) fn number(least: u64, greatest: u64, s: &Sexp) -> Result<u64, TextFault>
    ensures given { Gives (λ x. x) result (number least greatest s.now) }
    ensures within { IfOk result (λ n. n ≤ greatest) }
{
    match &s.node {
        Node::Num(n) if *n >= least as i128 && *n <= greatest as i128 => Ok(*n as u64),
        _ => Err(form(s.at)),
    }
}

// Whether a word begins with a letter.
fn is_name(text: &str) -> bool
    ensures { result ≡ is_name text.now }
{
    match text.as_bytes() {
        [first, ..] => *first >= b'a' && *first <= b'z',
        [] => false,
    }
}

#[tactic(auto, unfolding(crate::specs::Reading::name))]
fn name(s: &Sexp) -> Result<&str, TextFault>
    ensures { Gives (λ x. x.now) result (name s.now) }
{
    let text = word(s)?;
    if is_name(text) {
        Ok(text)
    } else {
        Err(form(s.at))
    }
}

/// A name that is among these.
#[tactic(auto, unfolding(crate::specs::Reading::known))]
pub(crate) fn known<'a>(names: &NameTable, s: &'a Sexp) -> Result<&'a str, TextFault>
    ensures { Gives (λ x. x.now) result (known names.now s.now) }
{
    let text = name(s)?;
    if names.has(text) {
        Ok(text)
    } else {
        Err(wrong_name(s.at))
    }
}

/// A name that isn't among these.
#[tactic(auto, unfolding(crate::specs::Reading::fresh))]
pub(crate) fn fresh<'a>(names: &NameTable, s: &'a Sexp) -> Result<&'a str, TextFault>
    ensures given { Gives (λ x. x.now) result (fresh names.now s.now) }
    ensures new { IfOk result (λ x. is_among names.now x.now ≡ false) }
{
    let text = name(s)?;
    if names.has(text) {
        Err(wrong_name(s.at))
    } else {
        Ok(text)
    }
}

/// The parts of a list after this word, and the place where the list closes.
#[tactic(auto, unfolding(crate::specs::Reading::tagged))]
pub(crate) fn tagged<'a>(tag: &str, s: &'a Sexp) -> Result<(&'a [Sexp], usize), TextFault>
    ensures { Gives (λ x. (x.0.now, x.1)) result (tagged tag.now s.now) }
{
    let (parts, close) = inside(s)?;
    let (first, rest) = next(close, parts)?;
    let text = word(first)?;
    if text == tag {
        Ok((rest, close))
    } else {
        Err(form(first.at))
    }
}

// Whether parts begin with this word.
fn begins_with(tag: &str, parts: &[Sexp]) -> bool
    ensures { result ≡ begins_with tag.now parts.now }
{
    match parts {
        [first, ..] => match &first.node {
            Node::Word(text) => text.as_str() == tag,
            _ => false,
        },
        [] => false,
    }
}

/// Whether a part is a list that begins with this word.
#[tactic(auto, unfolding(crate::specs::Reading::is_tagged))]
pub(crate) fn is_tagged(tag: &str, s: &Sexp) -> bool
    ensures { result ≡ is_tagged tag.now s.now }
{
    match &s.node {
        Node::List { parts, .. } => begins_with(tag, parts.as_slice()),
        _ => false,
    }
}
