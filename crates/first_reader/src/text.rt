// The parts of a text, read from its front.

ghost use Rattle.std.specs.Prelude.{◌≡◌, ◌∷◌, [], ◌<◌, ◌≤◌, length, MatchOption, IfOk, take, drop};
ghost use Rattle.first_reader.specs.Reading.{Gives};
ghost use Rattle.first_reader.specs.Lexemes.{lexemes, numeral, lexeme_of, is_white};
ghost use Rattle.first_reader.specs.ReadingLexemes.{drop_white, run_len, is_break, lexeme, open_at, close_at, word_at, number_at, u32_of, u32_at, head_at, empty_at};

use crate::error::ReadError;
use crate::numeral::numeral;

/// A part of a text: a word is a run of bytes that is no number.
#[derive(Clone, Copy)]
pub enum Token<'a> {
    Open,
    Close,
    Number(i128),
    Word(&'a [u8]),
}

fn is_white(byte: u8) -> bool
    ensures { result ≡ is_white byte }
{
    byte == b' ' || byte == b'\t' || byte == b'\n' || byte == b'\r'
}

fn is_break(byte: u8) -> bool
    ensures { result ≡ is_break byte }
{
    is_white(byte) || (byte == b'(' || byte == b')')
}

fn after_white(text: &[u8]) -> &[u8]
    ensures { result.now ≡ drop_white text.now }
{
    let mut rest = text;
    while let [byte, others @ ..] = rest {
        if !is_white(*byte) {
            break;
        }
        rest = others;
    }
    rest
}

fn run_len(text: &[u8]) -> usize
    ensures value { result ≡ run_len text.now }
    ensures within { result ≤ length text.now }
{
    let mut len = 0;
    for byte in text {
        if is_break(*byte) {
            return len;
        }
        len += 1;
    }
    len
}

// The number or word that a run is.
fn run_token(run: &[u8]) -> Token<'_>
    ensures { lexeme result ≡ lexeme_of run.now }
{
    match numeral(run) {
        Some(n) => Token::Number(n),
        None => Token::Word(run),
    }
}

/// The first part of the text, and what stands behind it.
pub fn first_token(text: &[u8]) -> Option<(Token<'_>, &[u8])>
    ensures { MatchOption result (lexemes text.now ≡ []) (λ x. lexemes text.now ≡ lexeme x.0 ∷ lexemes x.1.now) }
{
    let text = after_white(text);
    match text {
        [] => None,
        [first, rest @ ..] => {
            if *first == b'(' {
                Some((Token::Open, rest))
            } else if *first == b')' {
                Some((Token::Close, rest))
            } else {
                let (run, rest) = text.split_at(run_len(text));
                Some((run_token(run), rest))
            }
        }
    }
}

pub fn open(text: &[u8]) -> Result<&[u8], ReadError>
    ensures value { Gives (λ r. lexemes r.now) result (open_at (lexemes text.now)) }
    ensures less { IfOk result (λ r. length (lexemes r.now) < length (lexemes text.now)) }
{
    match first_token(text) {
        Some((Token::Open, rest)) => Ok(rest),
        _ => Err(ReadError::OtherForm),
    }
}

pub fn close(text: &[u8]) -> Result<&[u8], ReadError>
    ensures value { Gives (λ r. lexemes r.now) result (close_at (lexemes text.now)) }
    ensures less { IfOk result (λ r. length (lexemes r.now) < length (lexemes text.now)) }
{
    match first_token(text) {
        Some((Token::Close, rest)) => Ok(rest),
        _ => Err(ReadError::OtherForm),
    }
}

pub fn word<'a>(expected: &[u8], text: &'a [u8]) -> Result<&'a [u8], ReadError>
    ensures value { Gives (λ r. lexemes r.now) result (word_at expected.now (lexemes text.now)) }
    ensures less { IfOk result (λ r. length (lexemes r.now) < length (lexemes text.now)) }
{
    match first_token(text) {
        Some((Token::Word(word), rest)) => {
            if word == expected {
                Ok(rest)
            } else {
                Err(ReadError::OtherForm)
            }
        }
        _ => Err(ReadError::OtherForm),
    }
}

pub fn number(text: &[u8]) -> Result<(i128, &[u8]), ReadError>
    ensures value { Gives (λ x. (x.0, lexemes x.1.now)) result (number_at (lexemes text.now)) }
    ensures less { IfOk result (λ x. length (lexemes x.1.now) < length (lexemes text.now)) }
{
    match first_token(text) {
        Some((Token::Number(n), rest)) => Ok((n, rest)),
        _ => Err(ReadError::OtherForm),
    }
}

fn u32_of(n: i128) -> Result<u32, ReadError>
    ensures { Gives (λ n. n) result (u32_of n) }
{
    if n < 0 || 4_294_967_295 < n {
        return Err(ReadError::OtherForm);
    }
    Ok(n as u32)
}

/// A number from 0 to 4294967295.
#[tactic(auto, unfolding(crate::specs::ReadingLexemes::u32_at))]
pub fn small(text: &[u8]) -> Result<(u32, &[u8]), ReadError>
    ensures value { Gives (λ x. (x.0, lexemes x.1.now)) result (u32_at (lexemes text.now)) }
    ensures less { IfOk result (λ x. length (lexemes x.1.now) < length (lexemes text.now)) }
{
    let (n, rest) = number(text)?;
    Ok((u32_of(n)?, rest))
}

/// What begins a list: its parenthesis and its first word.
#[tactic(auto, unfolding(crate::specs::ReadingLexemes::head_at))]
pub fn head<'a>(expected: &[u8], text: &'a [u8]) -> Result<&'a [u8], ReadError>
    ensures value { Gives (λ r. lexemes r.now) result (head_at expected.now (lexemes text.now)) }
    ensures less { IfOk result (λ r. length (lexemes r.now) < length (lexemes text.now)) }
{
    let rest = open(text)?;
    word(expected, rest)
}

/// A list of nothing.
#[tactic(auto, unfolding(crate::specs::ReadingLexemes::empty_at))]
pub fn empty(text: &[u8]) -> Result<&[u8], ReadError>
    ensures value { Gives (λ r. lexemes r.now) result (empty_at (lexemes text.now)) }
    ensures less { IfOk result (λ r. length (lexemes r.now) < length (lexemes text.now)) }
{
    let rest = open(text)?;
    close(rest)
}
