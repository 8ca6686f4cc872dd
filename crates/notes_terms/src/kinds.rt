// The parts of notes of which there are lists, but for derivations.

ghost use Rattle.notes_grammar.specs.Reading.{term_in, formula_in, small, whole, reference, rule_in};

use crate::entry::Entry;
use crate::formulas::read_formula;
use crate::terms::read_term;
use bitvector_rules::{Ref, Rule};
use notes_grammar::Head;
use notes_parts::{Context, form, headed_list, numbered, place, rule_named, small, whole, word};
use sexp_text::{Sexp, TextFault};
use std::alloc::Global;
use term_trees::{Formula, Term};

/// Terms.
pub struct Terms;

impl Entry<Term> for Terms {
    ghost reads = { λ c. term_in c.later };

    fn read(alloc: Global, context: &Context, part: &Sexp) -> Result<Term, TextFault> {
        read_term(alloc, context.is_later(), part)
    }
}

/// Formulas.
pub struct Formulas;

impl Entry<Formula> for Formulas {
    ghost reads = { λ c. formula_in c.later };

    fn read(alloc: Global, context: &Context, part: &Sexp) -> Result<Formula, TextFault> {
        read_formula(alloc, context.is_later(), part)
    }
}

/// Numbers from 0 to 4294967295.
pub struct Smalls;

impl Entry<u32> for Smalls {
    ghost reads = { λ c. small };

    fn read(_alloc: Global, _context: &Context, part: &Sexp) -> Result<u32, TextFault> {
        small(part)
    }
}

/// Numbers.
pub struct Wholes;

impl Entry<i128> for Wholes {
    ghost reads = { λ c. whole };

    fn read(_alloc: Global, _context: &Context, part: &Sexp) -> Result<i128, TextFault> {
        whole(part)
    }
}

/// References of steps to formulas.
pub struct References;

#[tactic(auto, unfolding(notes_grammar::specs::Reading::reference, notes_grammar::specs::Reading::reference_at))]
impl Entry<Ref> for References {
    ghost reads = { λ c. reference };

    fn read(_alloc: Global, _context: &Context, part: &Sexp) -> Result<Ref, TextFault> {
        let headed = headed_list(part)?;
        match headed.head {
            Head::Hyp => numbered(&headed).map(Ref::Hyp),
            Head::Earlier => numbered(&headed).map(Ref::Earlier),
            _ => form(headed.at),
        }
    }
}

/// Names of rules.
pub struct Rules;

#[tactic(auto, unfolding(notes_grammar::specs::Reading::rule_in))]
impl Entry<Rule> for Rules {
    ghost reads = { λ c. rule_in };

    fn read(_alloc: Global, _context: &Context, part: &Sexp) -> Result<Rule, TextFault> {
        let text = word(part)?;
        match rule_named(text.as_str().as_bytes()) {
            None => form(place(part)),
            Some(rule) => Ok(rule),
        }
    }
}
