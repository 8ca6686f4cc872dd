// Notes of the form FirstNotes.

ghost use Rattle.std.specs.Prelude.{◌≡◌, ◌<◌, ◌≤◌, List, Some, length, IfOk};
ghost use Rattle.first_reader.specs.Reading.{Gives};
ghost use Rattle.first_reader.specs.Lexemes.{Lexeme, lexemes};
ghost use Rattle.first_reader.specs.ReadingLexemes.{u32_at};
ghost use Rattle.first_reader.specs.ReadingNotes.{opens, closes, counts, moves, formula_at, rule_at, ref_word_at, ref_of, ref_at, step_at, move_at, with_at, use_at, note_at, func_at, only_at, assertion_at, initial_at, done, notes_at, left_after, left_after_all, has_few_moves, first_notes};
ghost use Rattle.first_reader.specs.FirstNotes.{IsFirstText};
ghost use Rattle.outline_check.specs.declared.notes.Notes.{Notes};

use crate::error::ReadError;
use crate::part::{Part, list, many};
use crate::text::{Token, close, empty, first_token, head, number, open, small};
use outline_check::{
    Assertion, Formula, FuncNotes, Initial, Move, Note, Notes, Ref, Rule, Step, Use, With,
};
use std::alloc::Global;

fn opens(text: &[u8]) -> bool
    ensures { result ≡ opens (lexemes text.now) }
{
    match first_token(text) {
        Some((Token::Open, _)) => true,
        _ => false,
    }
}

fn closes(text: &[u8]) -> bool
    ensures { result ≡ closes (lexemes text.now) }
{
    match first_token(text) {
        Some((Token::Close, _)) => true,
        _ => false,
    }
}

fn counts(text: &[u8]) -> bool
    ensures { result ≡ counts (lexemes text.now) }
{
    match first_token(text) {
        Some((Token::Number(_), _)) => true,
        _ => false,
    }
}

fn moves(text: &[u8]) -> bool
    ensures { result ≡ moves (lexemes text.now) }
{
    match first_token(text) {
        Some((Token::Open, rest)) => match first_token(rest) {
            Some((Token::Word(word), _)) => word == b"have".as_slice(),
            _ => false,
        },
        _ => false,
    }
}

impl Part for u32 {
    ghost begins = { counts };

    ghost reads = { u32_at };

    fn begins(text: &[u8]) -> bool {
        counts(text)
    }

    fn read(_alloc: Global, text: &[u8]) -> Result<(u32, &[u8]), ReadError> {
        small(text)
    }
}

impl Part for Formula {
    ghost begins = { opens };

    ghost reads = { formula_at };

    fn begins(text: &[u8]) -> bool {
        opens(text)
    }

    #[tactic(auto, unfolding(crate::specs::ReadingNotes::formula_at))]
    fn read(_alloc: Global, text: &[u8]) -> Result<(Formula, &[u8]), ReadError> {
        let rest = head(b"=", text)?;
        let rest = head(b"global", rest)?;
        let (global, rest) = small(rest)?;
        let rest = close(rest)?;
        let (value, rest) = number(rest)?;
        let rest = close(rest)?;
        Ok((Formula { global, value }, rest))
    }
}

fn rule(text: &[u8]) -> Result<(Rule, &[u8]), ReadError>
    ensures value { Gives (λ x. (x.0, lexemes x.1.now)) result (rule_at (lexemes text.now)) }
    ensures less { IfOk result (λ x. length (lexemes x.1.now) < length (lexemes text.now)) }
{
    match first_token(text) {
        Some((Token::Word(word), rest)) => {
            if word == b"hyp".as_slice() {
                Ok((Rule::Hyp, rest))
            } else if word == b"eval".as_slice() {
                Ok((Rule::Eval, rest))
            } else {
                Err(ReadError::OtherForm)
            }
        }
        _ => Err(ReadError::OtherForm),
    }
}

// Whether the word of a reference is that of a hypothesis.
fn ref_word(text: &[u8]) -> Result<(bool, &[u8]), ReadError>
    ensures value { Gives (λ x. (x.0, lexemes x.1.now)) result (ref_word_at (lexemes text.now)) }
    ensures less { IfOk result (λ x. length (lexemes x.1.now) < length (lexemes text.now)) }
{
    match first_token(text) {
        Some((Token::Word(word), rest)) => {
            if word == b"h".as_slice() {
                Ok((true, rest))
            } else if word == b"s".as_slice() {
                Ok((false, rest))
            } else {
                Err(ReadError::OtherForm)
            }
        }
        _ => Err(ReadError::OtherForm),
    }
}

fn ref_of(hypothesis: bool, number: u32) -> Ref
    ensures { result ≡ ref_of hypothesis number }
{
    if hypothesis {
        Ref::Hyp(number)
    } else {
        Ref::Earlier(number)
    }
}

impl Part for Ref {
    ghost begins = { opens };

    ghost reads = { ref_at };

    fn begins(text: &[u8]) -> bool {
        opens(text)
    }

    #[tactic(auto, unfolding(crate::specs::ReadingNotes::ref_at))]
    fn read(_alloc: Global, text: &[u8]) -> Result<(Ref, &[u8]), ReadError> {
        let rest = open(text)?;
        let (hypothesis, rest) = ref_word(rest)?;
        let (number, rest) = small(rest)?;
        let rest = close(rest)?;
        Ok((ref_of(hypothesis, number), rest))
    }
}

impl Part for Step {
    ghost begins = { opens };

    ghost reads = { step_at };

    fn begins(text: &[u8]) -> bool {
        opens(text)
    }

    #[tactic(auto, unfolding(crate::specs::ReadingNotes::step_at))]
    fn read(alloc: Global, text: &[u8]) -> Result<(Step, &[u8]), ReadError> {
        let rest = open(text)?;
        let (rule, rest) = rule(rest)?;
        let (formula, rest) = Formula::read(alloc, rest)?;
        let (refs, rest) = list(alloc, rest)?;
        let rest = empty(rest)?;
        let rest = close(rest)?;
        Ok((
            Step {
                rule,
                formula,
                refs,
            },
            rest,
        ))
    }
}

impl Part for Move {
    ghost begins = { moves };

    ghost reads = { move_at };

    fn begins(text: &[u8]) -> bool {
        moves(text)
    }

    #[tactic(auto, unfolding(crate::specs::ReadingNotes::move_at))]
    fn read(alloc: Global, text: &[u8]) -> Result<(Move, &[u8]), ReadError> {
        let rest = head(b"have", text)?;
        let (formula, rest) = Formula::read(alloc, rest)?;
        let (steps, rest) = many::<Step>(alloc, rest)?;
        let rest = close(rest)?;
        if steps.len() == 0 {
            return Err(ReadError::OtherForm);
        }
        Ok((Move::Have(formula, steps), rest))
    }
}

#[tactic(auto, unfolding(crate::specs::ReadingNotes::with_at))]
fn with(alloc: Global, text: &[u8]) -> Result<(With, &[u8]), ReadError>
    ensures value { Gives (λ x. (x.0, lexemes x.1.now)) result (with_at (lexemes text.now)) }
    ensures less { IfOk result (λ x. length (lexemes x.1.now) < length (lexemes text.now)) }
{
    let rest = head(b"with", text)?;
    let rest = empty(rest)?;
    let (facts, rest) = list(alloc, rest)?;
    let rest = empty(rest)?;
    let rest = close(rest)?;
    Ok((With { facts }, rest))
}

// A `with`, or nothing where the note ends.
#[tactic(auto, unfolding(crate::specs::ReadingNotes::use_at))]
fn used(alloc: Global, text: &[u8]) -> Result<(Use, &[u8]), ReadError>
    ensures value { Gives (λ x. (x.0, lexemes x.1.now)) result (use_at (lexemes text.now)) }
    ensures less { IfOk result (λ x. length (lexemes x.1.now) ≤ length (lexemes text.now)) }
{
    if closes(text) {
        return Ok((Use::Nothing, text));
    }
    let (with, rest) = with(alloc, text)?;
    Ok((Use::With(with), rest))
}

impl Part for Note {
    ghost begins = { opens };

    ghost reads = { note_at };

    fn begins(text: &[u8]) -> bool {
        opens(text)
    }

    #[tactic(auto, unfolding(crate::specs::ReadingNotes::note_at))]
    fn read(alloc: Global, text: &[u8]) -> Result<(Note, &[u8]), ReadError> {
        let rest = head(b"at", text)?;
        let (at, rest) = small(rest)?;
        let (moves, rest) = many(alloc, rest)?;
        let (used, rest) = used(alloc, rest)?;
        let rest = close(rest)?;
        Ok((Note { at, moves, used }, rest))
    }
}

impl Part for FuncNotes {
    ghost begins = { opens };

    ghost reads = { func_at };

    fn begins(text: &[u8]) -> bool {
        opens(text)
    }

    #[tactic(auto, unfolding(crate::specs::ReadingNotes::func_at))]
    fn read(alloc: Global, text: &[u8]) -> Result<(FuncNotes, &[u8]), ReadError> {
        let rest = head(b"func", text)?;
        let (func, rest) = small(rest)?;
        let (notes, rest) = many(alloc, rest)?;
        let rest = close(rest)?;
        Ok((FuncNotes { func, notes }, rest))
    }
}

// A number that is this one.
fn only(expected: u32, text: &[u8]) -> Result<&[u8], ReadError>
    ensures { Gives (λ r. lexemes r.now) result (only_at expected (lexemes text.now)) }
{
    let (n, rest) = small(text)?;
    if n == expected {
        Ok(rest)
    } else {
        Err(ReadError::OtherForm)
    }
}

#[tactic(auto, unfolding(crate::specs::ReadingNotes::assertion_at))]
fn assertion(alloc: Global, text: &[u8]) -> Result<(Assertion, &[u8]), ReadError>
    ensures { Gives (λ x. (x.0, lexemes x.1.now)) result (assertion_at (lexemes text.now)) }
{
    let rest = head(b"assert", text)?;
    let rest = only(0, rest)?;
    let (formulas, rest) = list(alloc, rest)?;
    let rest = empty(rest)?;
    let rest = close(rest)?;
    Ok((Assertion { formulas }, rest))
}

#[tactic(auto, unfolding(crate::specs::ReadingNotes::initial_at))]
fn initial(alloc: Global, text: &[u8]) -> Result<(Initial, &[u8]), ReadError>
    ensures { Gives (λ x. (x.0, lexemes x.1.now)) result (initial_at (lexemes text.now)) }
{
    let rest = head(b"initial", text)?;
    let rest = empty(rest)?;
    let (moves, rest) = list(alloc, rest)?;
    let (with, rest) = with(alloc, rest)?;
    let rest = close(rest)?;
    Ok((Initial { moves, with }, rest))
}

// Notes behind which nothing stands.
fn done(notes: Notes, text: &[u8]) -> Result<Notes, ReadError>
    ensures { Gives (λ a. a) result (done notes (lexemes text.now)) }
{
    match first_token(text) {
        None => Ok(notes),
        Some(_) => Err(ReadError::OtherForm),
    }
}

#[tactic(auto, unfolding(crate::specs::ReadingNotes::notes_at))]
fn notes(alloc: Global, text: &[u8]) -> Result<Notes, ReadError>
    ensures { Gives (λ a. a) result (notes_at (lexemes text.now)) }
{
    let rest = head(b"notes", text)?;
    let rest = only(1, rest)?;
    let (invariant, rest) = assertion(alloc, rest)?;
    let (initial, rest) = initial(alloc, rest)?;
    let (funcs, rest) = many(alloc, rest)?;
    let rest = close(rest)?;
    done(
        Notes {
            invariant,
            initial,
            funcs,
        },
        rest,
    )
}

// How many of so many moves are left after those of notes.
#[tactic(auto, unfolding(crate::specs::ReadingNotes::left_after))]
fn left_after(left: usize, notes: &[Note]) -> Option<usize>
    ensures { result ≡ left_after left notes.now }
{
    let mut left = left;
    for note in notes {
        if left < note.moves.len() {
            return None;
        }
        left -= note.moves.len();
    }
    Some(left)
}

#[tactic(auto, unfolding(crate::specs::ReadingNotes::left_after_all))]
fn left_after_all(left: usize, funcs: &[FuncNotes]) -> Option<usize>
    ensures { result ≡ left_after_all left funcs.now }
{
    let mut left = left;
    for func in funcs {
        left = left_after(left, func.notes.as_slice())?;
    }
    Some(left)
}

/// The most formulas of an invariant, and the most moves of all notes.
const MOST: usize = 1000;

fn has_few_moves(notes: &Notes) -> bool
    ensures { result ≡ has_few_moves notes.now }
{
    let initial = notes.initial.moves.len();
    if MOST < initial {
        return false;
    }
    match left_after_all(MOST - initial, notes.funcs.as_slice()) {
        None => false,
        Some(_) => true,
    }
}

#[tactic(auto, unfolding(crate::specs::ReadingNotes::first_notes))]
fn first(alloc: Global, text: &[u8]) -> Result<Notes, ReadError>
    ensures { Gives (λ a. a) result (first_notes text.now) }
{
    let notes = notes(alloc, text)?;
    if MOST < notes.invariant.formulas.len() || !has_few_moves(&notes) {
        return Err(ReadError::OtherForm);
    }
    Ok(notes)
}

/// The notes of the form FirstNotes that the text spells.
pub fn read_notes(alloc: Global, text: &[u8]) -> Result<Notes, ReadError>
    // What is read is spelled so.
    ensures found { IfOk result (IsFirstText text.now) }

    // What is spelled so is read, unless memory runs out.
    ensures only { (a : Notes) → IsFirstText text.now a → Gives (λ a. a) result (Some a) }

    // Reading is a function of the text.
    ensures exact { Gives (λ a. a) result (first_notes text.now) }
{
    first(alloc, text)
}
