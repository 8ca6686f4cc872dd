// Formulas.

ghost use Rattle.std.specs.Prelude.{◌≡◌, IfOk};
ghost use Rattle.sexp_text.specs.Reading.{Gives};
ghost use Rattle.term_trees.specs.Formulas.{formula_nodes};
ghost use Rattle.notes_grammar.specs.Parts.{part_of, parts_of};
ghost use Rattle.notes_grammar.specs.Reading.{one_of, two_of, bare_formula, formula_in, formula_tokens};
ghost use Rattle.notes_parts.specs.Seen.{headed_seen};
ghost use Rattle.notes_terms.specs.words.Claims.{kind_of, claim_of, over_formulas, claimed, formed, listed_formula, word_formula};

use crate::size::{both, last, limited};
use crate::terms::two_terms;
use notes_grammar::Head;
use notes_parts::{Headed, Seen, form, head_named, headed_list, look, next, place};
use sexp_text::{Sexp, TextFault};
use std::alloc::Global;
use term_trees::{Boxed, Formula, Term};
use wasm_values::OutOfMemory;

/// What is claimed of two terms.
#[derive(Clone, Copy)]
pub(crate) enum Claim {
    Eq,
    Le,
    Lt,
}

/// What stands over two formulas.
#[derive(Clone, Copy)]
pub(crate) enum OverFormulas {
    And,
    Or,
    Imp,
}

/// What a list that is a formula is made of.
#[derive(Clone, Copy)]
pub(crate) enum FormulaKind {
    Claim(Claim),
    Not,
    Two(OverFormulas),
    Other,
}

/// The kind of a formula whose list begins with this head.
fn kind_of(head: Head) -> FormulaKind
    ensures { result ≡ kind_of head }
{
    match head {
        Head::Eq => FormulaKind::Claim(Claim::Eq),
        Head::Le => FormulaKind::Claim(Claim::Le),
        Head::Lt => FormulaKind::Claim(Claim::Lt),
        Head::Not => FormulaKind::Not,
        Head::And => FormulaKind::Two(OverFormulas::And),
        Head::Or => FormulaKind::Two(OverFormulas::Or),
        Head::Imp => FormulaKind::Two(OverFormulas::Imp),
        _ => FormulaKind::Other,
    }
}

/// The claim on two terms.
fn claim_of(claim: Claim, terms: (Term, Term)) -> Formula
    ensures { result ≡ claim_of claim terms }
{
    let (a, b) = terms;
    match claim {
        Claim::Eq => Formula::Eq(a, b),
        Claim::Le => Formula::Le(a, b),
        Claim::Lt => Formula::Lt(a, b),
    }
}

/// The claim on the two terms that these parts are.
fn read_claim(
    alloc: Global,
    later: bool,
    claim: Claim,
    close: usize,
    parts: &[Sexp],
) -> Result<Formula, TextFault>
    ensures { Gives (λ f. f) result (claimed later close claim (parts_of parts.now)) }
{
    let terms = two_terms(alloc, later, close, parts)?;
    Ok(claim_of(claim, terms))
}

/// The formula of two formulas in their boxes.
fn over_both(op: OverFormulas, f: Boxed<Formula>, g: Boxed<Formula>) -> Formula
    ensures { result ≡ over_formulas op (f, g) }
{
    match op {
        OverFormulas::And => Formula::And(f, g),
        OverFormulas::Or => Formula::Or(f, g),
        OverFormulas::Imp => Formula::Imp(f, g),
    }
}

/// The formula of two formulas.
fn over_formulas(
    alloc: Global,
    op: OverFormulas,
    formulas: (Formula, Formula),
) -> Result<Formula, OutOfMemory>
    ensures { IfOk result (λ f. f ≡ over_formulas op formulas) }
{
    let (f, g) = formulas;
    let f = Boxed::new(alloc, f)?;
    let g = Boxed::new(alloc, g)?;
    Ok(over_both(op, f, g))
}

/// The one formula that these parts are.
#[cycle(formulas)]
fn one_formula(
    alloc: Global,
    later: bool,
    close: usize,
    parts: &[Sexp],
) -> Result<Formula, TextFault>
    ensures { Gives (λ f. f) result (one_of formula_nodes close (formula_tokens later (parts_of parts.now))) }
{
    let (first, rest) = next(close, parts)?;
    let formula = bare_formula(alloc, later, first)?;
    last(place(first), formula, rest)
}

/// The two formulas that these parts are.
#[cycle(formulas)]
fn two_formulas(
    alloc: Global,
    later: bool,
    close: usize,
    parts: &[Sexp],
) -> Result<(Formula, Formula), TextFault>
    ensures { Gives (λ x. x) result (two_of formula_nodes close (formula_tokens later (parts_of parts.now))) }
{
    let (first, rest) = next(close, parts)?;
    let formula = bare_formula(alloc, later, first)?;
    both(
        place(first),
        formula,
        one_formula(alloc, later, close, rest),
    )
}

/// The formula of a list of this kind.
#[cycle(formulas)]
fn formed(
    alloc: Global,
    later: bool,
    kind: FormulaKind,
    headed: &Headed<'_>,
) -> Result<Formula, TextFault>
    ensures { Gives (λ f. f) result (formed later kind (headed_seen headed.now)) }
{
    match kind {
        FormulaKind::Claim(claim) => read_claim(alloc, later, claim, headed.close, headed.rest),
        FormulaKind::Not => {
            let formula = one_formula(alloc, later, headed.close, headed.rest)?;
            Ok(Formula::Not(Boxed::new(alloc, formula)?))
        }
        FormulaKind::Two(op) => {
            let formulas = two_formulas(alloc, later, headed.close, headed.rest)?;
            Ok(over_formulas(alloc, op, formulas)?)
        }
        FormulaKind::Other => form(headed.at),
    }
}

/// A formula that is a word.
fn constant(at: usize, word: &[u8]) -> Result<Formula, TextFault>
    ensures { Gives (λ f. f) result (word_formula at word.now) }
{
    match head_named(word) {
        Some(Head::True) => Ok(Formula::True),
        Some(Head::False) => Ok(Formula::False),
        _ => form(at),
    }
}

/// A formula that is a list.
#[cycle(formulas)]
#[tactic(auto, unfolding(crate::specs::words::Claims::listed_formula))]
fn listed_formula(alloc: Global, later: bool, part: &Sexp) -> Result<Formula, TextFault>
    ensures { Gives (λ f. f) result (listed_formula later (part_of part.now)) }
{
    let headed = headed_list(part)?;
    formed(alloc, later, kind_of(headed.head), &headed)
}

/// A formula, whose size isn't tested yet.
#[cycle(formulas)]
fn bare_formula(alloc: Global, later: bool, part: &Sexp) -> Result<Formula, TextFault>
    ensures { Gives (λ f. f) result (bare_formula later (part_of part.now)) }
{
    match look(part) {
        Seen::Number(_) => form(part.at),
        Seen::Word(text) => constant(part.at, text.as_str().as_bytes()),
        Seen::Quote(_) => form(part.at),
        Seen::List(_, _) => listed_formula(alloc, later, part),
    }
}

/// A formula of at most 4,096 nodes.
#[tactic(auto, unfolding(notes_grammar::specs::Reading::formula_in))]
pub fn read_formula(alloc: Global, later: bool, part: &Sexp) -> Result<Formula, TextFault>
    ensures { Gives (λ f. f) result (formula_in later (part_of part.now)) }
{
    let formula = bare_formula(alloc, later, part)?;
    limited(place(part), formula)
}
