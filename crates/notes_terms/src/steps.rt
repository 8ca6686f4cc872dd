// Derivations.

ghost use Rattle.std.specs.Prelude.{◌≡◌, ◌≤◌, List, Result};
ghost use Rattle.sexp_text.specs.declared.fault.TextFault.{TextFault as Fault};
ghost use Rattle.sexp_text.specs.Reading.{Gives};
ghost use Rattle.bitvector_rules.specs.declared.step.Step.{Step as Tree, out-Step};
ghost use Rattle.notes_grammar.specs.Parts.{part_of, parts_of};
ghost use Rattle.notes_grammar.specs.Reading.{all_of, step_in, sub_in, steps_in};
ghost use Rattle.notes_terms.specs.words.Steps.{front_seen, stepped, listed_step};

use crate::entry::Lists;
use crate::fields::four_fields;
use crate::kinds::{Formulas, References, Rules, Wholes};
use bitvector_rules::{Ref, Rule, Step};
use notes_parts::{Context, Seen, form, look};
use sexp_text::{Sexp, TextFault};
use std::alloc::Global;
use term_trees::Formula;
use wasm_values::{LimitWord, List};

/// The most sub-derivations that stand in one another.
const MAX_LEVEL: u32 = 50;

/// A step without its sub-derivations.
#[derive(Drop)]
pub(crate) struct StepFront {
    rule: Rule,
    formula: Formula,
    refs: List<Ref>,
    numbers: List<i128>,
}

/// The step of its parts.
fn step_of(front: StepFront, subs: List<List<Step>>) -> Step
    ensures { out-Step result ≡ record { rule = front.rule; formula = front.formula; refs = front.refs; numbers = front.numbers; subs = subs } }
{
    let StepFront {
        rule,
        formula,
        refs,
        numbers,
    } = front;
    Step {
        rule,
        formula,
        refs,
        numbers,
        subs,
    }
}

/// The step of its parts, where the sub-derivations are read.
fn with_subs(front: StepFront, subs: Result<List<List<Step>>, TextFault>) -> Result<Step, TextFault>
    ensures { (said : Result (List (List Tree)) Fault) → Gives (λ ss. ss) subs said → Gives (λ s. s) result (stepped (front_seen front) said) }
{
    match subs {
        Ok(subs) => Ok(step_of(front, subs)),
        Err(fault) => Err(fault),
    }
}

/// The step of these parts.
#[cycle(steps)]
fn listed_step(
    alloc: Global,
    context: &Context,
    level: u32,
    close: usize,
    parts: &[Sexp],
) -> Result<Step, TextFault>
    requires { level ≤ 50 }
    ensures { Gives (λ s. s) result (listed_step context.now.later close (parts_of parts.now) level) }
{
    let (rule, formula, refs, numbers, rest) = four_fields::<
        Rule,
        Rules,
        Formula,
        Formulas,
        List<Ref>,
        Lists<References>,
        List<i128>,
        Lists<Wholes>,
    >(alloc, context, close, parts)?;
    let front = StepFront {
        rule,
        formula,
        refs,
        numbers,
    };
    with_subs(front, read_subs(alloc, context, level + 1, rest))
}

/// A step inside so many sub-derivations.
#[cycle(steps)]
fn read_step(alloc: Global, context: &Context, level: u32, part: &Sexp) -> Result<Step, TextFault>
    requires { level ≤ 50 }
    ensures { Gives (λ s. s) result (step_in context.now.later (part_of part.now) level) }
{
    match look(part) {
        Seen::Number(_) => form(part.at),
        Seen::Word(_) => form(part.at),
        Seen::Quote(_) => form(part.at),
        Seen::List(parts, close) => listed_step(alloc, context, level, close, parts),
    }
}

/// Sub-derivations, each inside so many with itself.
#[cycle(steps)]
fn read_subs(
    alloc: Global,
    context: &Context,
    level: u32,
    parts: &[Sexp],
) -> Result<List<List<Step>>, TextFault>
    requires { level ≤ 51 }
    ensures { Gives (λ ss. ss) result (all_of (λ p. sub_in context.now.later p level) (parts_of parts.now)) }
{
    let mut subs = List::new(alloc);
    for part in parts {
        let sub = read_sub(alloc, context, level, part)?;
        subs.push(sub)?;
    }
    Ok(subs)
}

/// A sub-derivation, inside so many with itself.
#[cycle(steps)]
fn read_sub(
    alloc: Global,
    context: &Context,
    level: u32,
    part: &Sexp,
) -> Result<List<Step>, TextFault>
    requires { level ≤ 51 }
    ensures { Gives (λ ss. ss) result (sub_in context.now.later (part_of part.now) level) }
{
    match look(part) {
        Seen::Number(_) => form(part.at),
        Seen::Word(_) => form(part.at),
        Seen::Quote(_) => form(part.at),
        Seen::List(parts, _) => {
            if level > MAX_LEVEL {
                return Err(TextFault::Limit {
                    at: part.at,
                    word: LimitWord::Derivation,
                });
            }
            steps_at(alloc, context, level, parts)
        }
    }
}

/// Steps inside so many sub-derivations.
#[cycle(steps)]
fn steps_at(
    alloc: Global,
    context: &Context,
    level: u32,
    parts: &[Sexp],
) -> Result<List<Step>, TextFault>
    requires { level ≤ 50 }
    ensures { Gives (λ ss. ss) result (all_of (λ p. step_in context.now.later p level) (parts_of parts.now)) }
{
    let mut steps = List::new(alloc);
    for part in parts {
        let step = read_step(alloc, context, level, part)?;
        steps.push(step)?;
    }
    Ok(steps)
}

/// The steps of a derivation.
pub fn read_steps(alloc: Global, context: &Context, parts: &[Sexp]) -> Result<List<Step>, TextFault>
    ensures { Gives (λ ss. ss) result (steps_in context.now.later (parts_of parts.now) 0) }
{
    steps_at(alloc, context, 0, parts)
}
