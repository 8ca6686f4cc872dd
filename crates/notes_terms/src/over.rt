// What stands over terms, and how a list that is a term begins.

ghost use Rattle.std.specs.Prelude.{◌≡◌, IfOk};
ghost use Rattle.wasm_values.specs.Operators.{operands, num_operands};
ghost use Rattle.sexp_text.specs.Reading.{Gives};
ghost use Rattle.term_trees.specs.Terms.{is_low_width, is_sext_pair, is_sgn_width};
ghost use Rattle.notes_grammar.specs.Parts.{parts_of};
ghost use Rattle.notes_grammar.specs.Reading.{field, small_where, or_form};
ghost use Rattle.notes_grammar.specs.Words.{op_named, head_named};
ghost use Rattle.notes_parts.specs.Seen.{headed_seen};
ghost use Rattle.notes_terms.specs.words.Forms.{over_one, over_two, opening_seen, op_opening, place_opening, low_opening, sgn_opening, sext_opening, opening_at, worded_opening, opening};

use notes_grammar::Head;
use notes_parts::{Headed, form, head_named, next, op_named, place, place_at, small, word};
use sexp_text::{Sexp, TextFault};
use std::alloc::Global;
use term_trees::{Boxed, Place, Term};
use wasm_values::{IntOp, NumOp, OutOfMemory};

/// What stands over one term.
#[derive(Clone, Copy)]
pub(crate) enum OverOne {
    Op(NumOp),
    Low(u32),
    Sext(u32, u32),
    Sgn(u32),
}

/// What stands over two terms.
#[derive(Clone, Copy)]
pub(crate) enum OverTwo {
    Op(NumOp),
    Add,
    Sub,
    Mul,
}

/// How a list that is a term begins, and the parts that are its terms.
#[derive(Clone, Copy)]
pub(crate) enum Beginning<'a> {
    Place(Place),
    One(OverOne, &'a [Sexp]),
    Two(OverTwo, &'a [Sexp]),
}

/// The term of a term in its box.
fn over_boxed(op: OverOne, a: Boxed<Term>) -> Term
    ensures { result ≡ over_one op a }
{
    match op {
        OverOne::Op(op) => Term::One(op, a),
        OverOne::Low(k) => Term::Low(k, a),
        OverOne::Sext(k, n) => Term::Sext(k, n, a),
        OverOne::Sgn(n) => Term::Sgn(n, a),
    }
}

/// The term of a term.
pub(crate) fn over_one(alloc: Global, op: OverOne, a: Term) -> Result<Term, OutOfMemory>
    ensures { IfOk result (λ t. t ≡ over_one op a) }
{
    let a = Boxed::new(alloc, a)?;
    Ok(over_boxed(op, a))
}

/// The term of two terms in their boxes.
fn over_both(op: OverTwo, a: Boxed<Term>, b: Boxed<Term>) -> Term
    ensures { result ≡ over_two op a b }
{
    match op {
        OverTwo::Op(op) => Term::Two(op, a, b),
        OverTwo::Add => Term::Add(a, b),
        OverTwo::Sub => Term::Sub(a, b),
        OverTwo::Mul => Term::Mul(a, b),
    }
}

/// The term of two terms.
pub(crate) fn over_two(alloc: Global, op: OverTwo, terms: (Term, Term)) -> Result<Term, OutOfMemory>
    ensures { IfOk result (λ t. t ≡ over_two op terms.0 terms.1) }
{
    let (a, b) = terms;
    let a = Boxed::new(alloc, a)?;
    let b = Boxed::new(alloc, b)?;
    Ok(over_both(op, a, b))
}

/// How many operands an operator of either width takes.
fn int_operands(op: IntOp) -> u32
    ensures { result ≡ operands op }
{
    match op {
        IntOp::Eqz | IntOp::Clz | IntOp::Ctz | IntOp::Popcnt => 1,
        _ => 2,
    }
}

/// How many operands an operator takes.
fn operands(op: NumOp) -> u32
    ensures { result ≡ num_operands op }
{
    match op {
        NumOp::W32(op) | NumOp::W64(op) => int_operands(op),
        _ => 1,
    }
}

/// What an operator of the machine stands over.
fn op_beginning(op: NumOp, parts: &[Sexp]) -> Beginning<'_>
    ensures { opening_seen result ≡ op_opening op (parts_of parts.now) }
{
    if operands(op) == 1 {
        Beginning::One(OverOne::Op(op), parts)
    } else {
        Beginning::Two(OverTwo::Op(op), parts)
    }
}

/// A place.
fn place_beginning<'a>(later: bool, headed: &Headed<'a>) -> Result<Beginning<'a>, TextFault>
    ensures { Gives opening_seen result (place_opening later (headed_seen headed.now)) }
{
    let place = place_at(later, headed)?;
    Ok(Beginning::Place(place))
}

fn is_low_width(k: u32) -> bool
    ensures { result ≡ is_low_width k }
{
    k == 8 || k == 16 || k == 32
}

fn is_sext_pair(k: u32, n: u32) -> bool
    ensures { result ≡ is_sext_pair k n }
{
    (n == 32 && (k == 8 || k == 16)) || (n == 64 && is_low_width(k))
}

fn is_sgn_width(n: u32) -> bool
    ensures { result ≡ is_sgn_width n }
{
    n == 32 || n == 64
}

/// The next part, a number of bits that `low` and `sext` keep, and the parts after it.
fn low_width(close: usize, parts: &[Sexp]) -> Result<(u32, &[Sexp]), TextFault>
    ensures { Gives (λ x. (x.0, parts_of x.1.now)) result (field (small_where is_low_width) close (parts_of parts.now)) }
{
    let (part, rest) = next(close, parts)?;
    let k = small(part)?;
    if is_low_width(k) {
        return Ok((k, rest));
    }
    form(place(part))
}

/// The next part, the number of bits to which `sext` extends so many, and the parts after it.
fn sext_width(k: u32, close: usize, parts: &[Sexp]) -> Result<(u32, &[Sexp]), TextFault>
    ensures { Gives (λ x. (x.0, parts_of x.1.now)) result (field (small_where (is_sext_pair k)) close (parts_of parts.now)) }
{
    let (part, rest) = next(close, parts)?;
    let n = small(part)?;
    if is_sext_pair(k, n) {
        return Ok((n, rest));
    }
    form(place(part))
}

/// The next part, a number of bits that `sgn` reads, and the parts after it.
fn sgn_width(close: usize, parts: &[Sexp]) -> Result<(u32, &[Sexp]), TextFault>
    ensures { Gives (λ x. (x.0, parts_of x.1.now)) result (field (small_where is_sgn_width) close (parts_of parts.now)) }
{
    let (part, rest) = next(close, parts)?;
    let n = small(part)?;
    if is_sgn_width(n) {
        return Ok((n, rest));
    }
    form(place(part))
}

/// A list that begins with `low`.
fn low(close: usize, parts: &[Sexp]) -> Result<Beginning<'_>, TextFault>
    ensures { Gives opening_seen result (low_opening close (parts_of parts.now)) }
{
    let (k, rest) = low_width(close, parts)?;
    Ok(Beginning::One(OverOne::Low(k), rest))
}

/// A list that begins with `sgn`.
fn sgn(close: usize, parts: &[Sexp]) -> Result<Beginning<'_>, TextFault>
    ensures { Gives opening_seen result (sgn_opening close (parts_of parts.now)) }
{
    let (n, rest) = sgn_width(close, parts)?;
    Ok(Beginning::One(OverOne::Sgn(n), rest))
}

/// A list that begins with `sext`.
fn sext(close: usize, parts: &[Sexp]) -> Result<Beginning<'_>, TextFault>
    ensures { Gives opening_seen result (sext_opening close (parts_of parts.now)) }
{
    let (k, rest) = low_width(close, parts)?;
    let (n, rest) = sext_width(k, close, rest)?;
    Ok(Beginning::One(OverOne::Sext(k, n), rest))
}

/// A list that begins with this head.
#[tactic(auto, unfolding(crate::specs::words::Forms::opening_at))]
fn headed_beginning<'a>(later: bool, headed: &Headed<'a>) -> Result<Beginning<'a>, TextFault>
    ensures { Gives opening_seen result (opening_at later (headed_seen headed.now) headed.now.head) }
{
    match headed.head {
        Head::Plus => Ok(Beginning::Two(OverTwo::Add, headed.rest)),
        Head::Minus => Ok(Beginning::Two(OverTwo::Sub, headed.rest)),
        Head::Times => Ok(Beginning::Two(OverTwo::Mul, headed.rest)),
        Head::Low => low(headed.close, headed.rest),
        Head::Sgn => sgn(headed.close, headed.rest),
        Head::Sext => sext(headed.close, headed.rest),
        _ => place_beginning(later, headed),
    }
}

/// A list that begins with the word at this place, which is this operator of the machine, or none.
fn worded_beginning<'a>(
    later: bool,
    at: usize,
    word: &[u8],
    rest: &'a [Sexp],
    close: usize,
    op: Option<NumOp>,
) -> Result<Beginning<'a>, TextFault>
    ensures { Gives opening_seen result (worded_opening later at word.now (parts_of rest.now) close op) }
{
    if let Some(op) = op {
        return Ok(op_beginning(op, rest));
    }
    let Some(head) = head_named(word) else {
        return form(at);
    };
    let headed = Headed {
        at,
        head,
        rest,
        close,
    };
    headed_beginning(later, &headed)
}

/// How a list of these parts begins.
pub(crate) fn begin_term(
    later: bool,
    close: usize,
    parts: &[Sexp],
) -> Result<Beginning<'_>, TextFault>
    ensures { Gives opening_seen result (opening later close (parts_of parts.now)) }
{
    let (first, rest) = next(close, parts)?;
    let text = word(first)?;
    let bytes = text.as_str().as_bytes();
    worded_beginning(later, place(first), bytes, rest, close, op_named(bytes))
}
