ghost use Rattle.std.specs.Prelude.{◌≡◌, IfOk};
ghost use Rattle.outline_check.specs.States.{term_at, fact_of};
ghost use Rattle.outline_check.specs.Derivations.{same_term, same_fact, is_at, is_small, evaluates, is_instance, ends_in, first_bad};

use crate::notes::{Formula, Ref, Rule, Step};
use crate::state::{Fact, Term};
use std::alloc::Global;
use wasm_values::{List, OutOfMemory};

const POWER_OF_120: i128 = 1_329_227_995_784_915_872_903_807_060_280_344_576;

/// The term of a global, which exists.
#[tactic(auto, unfolding(crate::specs::States::term_at))]
pub fn term_at(globals: &[Term], k: u32) -> Term
    ensures { result ≡ term_at globals.now k }
{
    match globals.get(k as usize) {
        Some(term) => *term,
        None => Term::Number(0),
    }
}

/// What a formula says of a state.
pub fn fact_of(globals: &[Term], formula: Formula) -> Fact
    ensures { result ≡ fact_of globals.now formula }
{
    Fact::Equal(
        term_at(globals, formula.global),
        Term::Number(formula.value),
    )
}

fn same_term(a: Term, b: Term) -> bool
    ensures { result ≡ same_term a b }
{
    match (a, b) {
        (Term::Number(a), Term::Number(b)) => a == b,
        (Term::Variable(a), Term::Variable(b)) => a == b,
        _ => false,
    }
}

#[tactic(auto, unfolding(crate::specs::Derivations::same_fact))]
fn same_fact(a: Fact, b: Fact) -> bool
    ensures { result ≡ same_fact a b }
{
    match (a, b) {
        (Fact::Equal(a, b), Fact::Equal(c, d)) => same_term(a, c) && same_term(b, d),
        (Fact::AtMost(a, b), Fact::AtMost(c, d)) => same_term(a, c) && same_term(b, d),
        _ => false,
    }
}

/// Whether the fact of that number exists and is this one.
#[tactic(auto, unfolding(crate::specs::Derivations::is_at))]
pub fn is_at(facts: &[Fact], k: usize, fact: Fact) -> bool
    ensures { result ≡ is_at facts.now k fact }
{
    match facts.get(k) {
        Some(found) => same_fact(fact, *found),
        None => false,
    }
}

fn is_small(n: i128) -> bool
    ensures { result ≡ is_small n }
{
    -POWER_OF_120 < n && n < POWER_OF_120
}

#[tactic(auto, unfolding(crate::specs::Derivations::evaluates))]
fn evaluates(fact: Fact) -> bool
    ensures { result ≡ evaluates fact }
{
    match fact {
        Fact::Equal(Term::Number(a), Term::Number(b)) => is_small(a) && is_small(b) && a == b,
        Fact::AtMost(Term::Number(a), Term::Number(b)) => is_small(a) && is_small(b) && a <= b,
        _ => false,
    }
}

#[tactic(auto, unfolding(crate::specs::Derivations::is_instance))]
fn is_instance(hyps: &[Fact], earlier: &[Fact], rule: Rule, refs: &[Ref], conclusion: Fact) -> bool
    ensures { result ≡ is_instance hyps.now earlier.now rule refs.now conclusion }
{
    match (rule, refs) {
        (Rule::Hyp, [Ref::Hyp(k)]) => is_at(hyps, *k as usize, conclusion),
        (Rule::Hyp, [Ref::Earlier(k)]) => is_at(earlier, *k as usize, conclusion),
        (Rule::Eval, []) => evaluates(conclusion),
        _ => false,
    }
}

fn ends_in(conclusions: &[Fact], goal: Fact) -> bool
    ensures { result ≡ ends_in conclusions.now goal }
{
    is_at(conclusions, conclusions.len().saturating_sub(1), goal)
}

/// The position of the first step that is no instance, or the number of steps where the last conclusion isn't the goal.
pub fn first_bad(
    alloc: Global,
    globals: &[Term],
    hyps: &[Fact],
    goal: Fact,
    steps: &[Step],
) -> Result<Option<usize>, OutOfMemory>
    ensures { IfOk result (λ bad. bad ≡ first_bad globals.now hyps.now goal steps.now) }
{
    let mut earlier = List::new(alloc);
    for step in steps {
        let conclusion = fact_of(globals, step.formula);
        let refs = step.refs.as_slice();
        if !is_instance(hyps, earlier.as_slice(), step.rule, refs, conclusion) {
            return Ok(Some(earlier.len()));
        }
        earlier.push(conclusion)?;
    }
    if ends_in(earlier.as_slice(), goal) {
        Ok(None)
    } else {
        Ok(Some(earlier.len()))
    }
}
