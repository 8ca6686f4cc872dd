// The parts that are spelled without parentheses: numbers, words and strings.

ghost use Rattle.std.specs.Prelude.{◌≡◌, ◌+◌, ◌<◌, ◌≤◌, ◌^◌, length, IfSome, IfOk};
ghost use Rattle.std.specs.List.{prefix_len};
ghost use Rattle.sexp_text.specs.Bytes.{is_name_byte};
ghost use Rattle.sexp_text.specs.Items.{items_of};
ghost use Rattle.sexp_text.specs.Reading.{Gives, digits_from, positive, number_of, begins_number, word_end, run_items, string_items};

use crate::bytes::{is_digit, is_letter, is_name_byte, is_sign};
use crate::fault::{TextFault, TextWord};
use crate::sexp::{Node, Sexp};
use std::alloc::Global;
use wasm_values::{OutOfMemory, Text};

/// Numbers stay below this in absolute value.
const NUMBER_BOUND: u128 = 1 << 120;

// The number that goes on with these digits.
fn digits_from(first: u128, digits: &[u8]) -> Option<u128>
    requires { first < 2 ^ 120 }
    ensures value { result ≡ digits_from first digits.now }
    ensures bounded { IfSome result (λ n. n < 2 ^ 120) }
{
    let mut n = first;
    for b in digits {
        if !is_digit(*b) {
            return None;
        }
        n = 10 * n + u128::from(*b - b'0');
        if n >= NUMBER_BOUND {
            return None;
        }
    }
    Some(n)
}

// A digit 1 to 9 and more digits.
#[tactic(auto, unfolding(crate::specs::Reading::positive))]
fn positive(digits: &[u8]) -> Option<u128>
    ensures value { result ≡ positive digits.now }
    ensures bounded { IfSome result (λ n. n < 2 ^ 120) }
{
    let [first, rest @ ..] = digits else {
        return None;
    };
    if *first >= b'1' && *first <= b'9' {
        digits_from(u128::from(*first - b'0'), rest)
    } else {
        None
    }
}

// The number that a run is.
#[tactic(auto, unfolding(crate::specs::Reading::number_of))]
fn number(run: &[u8]) -> Option<i128>
    ensures { result ≡ number_of run.now }
{
    let [first, rest @ ..] = run else {
        return None;
    };
    if *first == b'0' {
        return if rest.is_empty() { Some(0) } else { None };
    }
    if *first == b'-' {
        Some(-(positive(rest)? as i128))
    } else {
        Some(positive(run)? as i128)
    }
}

// Whether a run is to be a number.
#[tactic(auto, unfolding(crate::specs::Reading::begins_number))]
fn begins_number(run: &[u8]) -> bool
    ensures { result ≡ begins_number run.now }
{
    match run {
        [] => false,
        [first] => is_digit(*first),
        [first, second, ..] => is_digit(*first) || *first == b'-' && is_digit(*second),
    }
}

fn name_len(bytes: &[u8]) -> usize
    ensures value { result ≡ prefix_len is_name_byte bytes.now }
    ensures within { result ≤ length bytes.now }
{
    for (i, b) in bytes.iter().enumerate() {
        if !is_name_byte(*b) {
            return i;
        }
    }
    bytes.len()
}

// How many bytes of a run its longest front that is a word has.
#[tactic(auto, unfolding(crate::specs::Reading::word_end))]
fn word_end(run: &[u8]) -> usize
    ensures value { result ≡ word_end run.now }
    ensures within { result ≤ length run.now }
{
    let [first, rest @ ..] = run else {
        return 0;
    };
    if is_letter(*first) {
        name_len(rest) + 1
    } else if is_sign(*first) {
        1
    } else if *first == b'<' {
        if !rest.is_empty() && rest[0] == b'=' {
            2
        } else {
            1
        }
    } else {
        0
    }
}

// The text of a run that is a word.
fn word_text(alloc: Global, run: &[u8]) -> Result<Text, OutOfMemory>
    requires { word_end run.now ≡ length run.now }
    ensures { IfOk result (λ text. text ≡ run.now) }
{
    match std::str::from_utf8(run) {
        Ok(text) => Text::from_str(alloc, text),
        Err(_) => unreachable!(),
    }
}

/// The part that a run is.
#[tactic(auto, unfolding(crate::specs::Reading::run_items, crate::specs::Items::items_of))]
pub(crate) fn run_part(alloc: Global, at: usize, run: &[u8]) -> Result<Sexp, TextFault>
    requires { at + length run.now < 2 ^ 64 }
    ensures { Gives items_of result (run_items at run.now) }
{
    if begins_number(run) {
        return match number(run) {
            Some(n) => Ok(Sexp {
                at,
                node: Node::Num(n),
            }),
            None => Err(TextFault::Refused {
                at,
                word: TextWord::Number,
            }),
        };
    }
    let end = word_end(run);
    if end == run.len() {
        let text = word_text(alloc, run)?;
        Ok(Sexp {
            at,
            node: Node::Word(text),
        })
    } else {
        Err(TextFault::Refused {
            at: at + end,
            word: TextWord::Byte,
        })
    }
}

/// The part that a string with these bytes is.
#[tactic(auto, unfolding(crate::specs::Reading::string_items, crate::specs::Items::items_of))]
pub(crate) fn string_part(alloc: Global, at: usize, bytes: &[u8]) -> Result<Sexp, TextFault>
    ensures { Gives items_of result (string_items at bytes.now) }
{
    match std::str::from_utf8(bytes) {
        Ok(text) => {
            let text = Text::from_str(alloc, text)?;
            Ok(Sexp {
                at,
                node: Node::Str(text),
            })
        }
        Err(_) => Err(TextFault::Refused {
            at,
            word: TextWord::Utf8,
        }),
    }
}
