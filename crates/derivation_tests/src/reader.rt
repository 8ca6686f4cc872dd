use crate::admissible::operands;
use crate::names::{Connective, Former, connective_named, former_named, rule_named};
use bitvector_rules::{Ref, Step};
use std::alloc::Global;
use std::mem;
use std::test::Fail;
use term_logic::{Boxed, Formula, Place, Term};
use wasm_values::{List, OutOfMemory};

/// The steps of a list so far, and what the next one has but for its formula and its rule.
#[derive(Drop)]
struct Level {
    refs: List<Ref>,
    numbers: List<i128>,
    subs: List<List<Step>>,
    steps: List<Step>,
}

/// What words in postfix order have made so far: each word takes its parts from those before it.
///
/// A term is a number, `a`, `b` or `c`, `own`, `pages`, or a name behind its terms; a formula likewise. A step is its
/// formula, its references as `h0` or `s0`, its numbers as `#1`, its sub-derivations in brackets, and its rule behind `!`.
#[derive(Drop)]
struct Reader {
    alloc: Global,
    terms: List<Term>,
    formulas: List<Formula>,
    level: Level,
    outer: List<Level>,
}

fn new_level(alloc: Global) -> Level {
    Level {
        refs: List::new(alloc),
        numbers: List::new(alloc),
        subs: List::new(alloc),
        steps: List::new(alloc),
    }
}

fn take<T>(items: &mut List<T>) -> Result<T, Fail> {
    match items.pop() {
        Some(item) => Ok(item),
        None => Err("a part is missing".into()),
    }
}

fn take_boxed<T: Drop>(alloc: Global, items: &mut List<T>) -> Result<Boxed<T>, Fail> {
    let item = take(items)?;
    Ok(Boxed::new(alloc, item)?)
}

/// The term that a word stands for alone.
fn leaf(word: &str) -> Option<Term> {
    match word {
        "a" => Some(Term::Var(0)),
        "b" => Some(Term::Var(1)),
        "c" => Some(Term::Var(2)),
        "own" => Some(Term::Own(0)),
        "pages" => Some(Term::At(Place::Pages)),
        _ => match word.parse::<i128>() {
            Ok(k) => Some(Term::Num(k)),
            Err(_) => None,
        },
    }
}

/// The term that is made of the last terms.
fn made_term(alloc: Global, terms: &mut List<Term>, former: Former) -> Result<Term, Fail> {
    let last = take_boxed(alloc, terms)?;
    match former {
        Former::Low(k) => Ok(Term::Low(k, last)),
        Former::Sext(k, n) => Ok(Term::Sext(k, n, last)),
        Former::Sgn(n) => Ok(Term::Sgn(n, last)),
        Former::Sum => Ok(Term::Add(take_boxed(alloc, terms)?, last)),
        Former::Difference => Ok(Term::Sub(take_boxed(alloc, terms)?, last)),
        Former::Product => Ok(Term::Mul(take_boxed(alloc, terms)?, last)),
        Former::Operator(op) if operands(op) == 1 => Ok(Term::One(op, last)),
        Former::Operator(op) => Ok(Term::Two(op, take_boxed(alloc, terms)?, last)),
    }
}

/// The formula that is made of the last terms.
fn made_comparison(terms: &mut List<Term>, connective: Connective) -> Result<Formula, Fail> {
    let b = take(terms)?;
    let a = take(terms)?;
    match connective {
        Connective::Eq => Ok(Formula::Eq(a, b)),
        Connective::Le => Ok(Formula::Le(a, b)),
        _ => Ok(Formula::Lt(a, b)),
    }
}

/// The formula that is made of the last formulas.
fn made_formula(
    alloc: Global,
    formulas: &mut List<Formula>,
    connective: Connective,
) -> Result<Formula, Fail> {
    let last = take_boxed(alloc, formulas)?;
    match connective {
        Connective::And => Ok(Formula::And(take_boxed(alloc, formulas)?, last)),
        Connective::Or => Ok(Formula::Or(take_boxed(alloc, formulas)?, last)),
        Connective::Imp => Ok(Formula::Imp(take_boxed(alloc, formulas)?, last)),
        _ => Ok(Formula::Not(last)),
    }
}

/// Takes a word of terms or formulas. The answer is `false` where it is none.
fn take_formula_word(reader: &mut Reader, word: &str) -> Result<bool, Fail> {
    if let Some(term) = leaf(word) {
        reader.terms.push(term)?;
        return Ok(true);
    }
    if let Some(connective) = connective_named(word) {
        let formula = match connective {
            Connective::Eq | Connective::Le | Connective::Lt => {
                made_comparison(&mut reader.terms, connective)?
            }
            _ => made_formula(reader.alloc, &mut reader.formulas, connective)?,
        };
        reader.formulas.push(formula)?;
        return Ok(true);
    }
    match word {
        "true" => reader.formulas.push(Formula::True)?,
        "false" => reader.formulas.push(Formula::False)?,
        _ => {
            let Some(former) = former_named(word) else {
                return Ok(false);
            };
            let term = made_term(reader.alloc, &mut reader.terms, former)?;
            reader.terms.push(term)?
        }
    }
    Ok(true)
}

/// The reference that a word stands for.
fn reference(word: &str) -> Option<Ref> {
    if let Some(k) = word.strip_prefix("h") {
        return match k.parse::<u32>() {
            Ok(k) => Some(Ref::Hyp(k)),
            Err(_) => None,
        };
    }
    match word.strip_prefix("s")?.parse::<u32>() {
        Ok(k) => Some(Ref::Earlier(k)),
        Err(_) => None,
    }
}

/// Ends a step, whose formula is the last.
fn take_rule(reader: &mut Reader, name: &str) -> Result<(), Fail> {
    let alloc = reader.alloc;
    let Some(rule) = rule_named(name) else {
        return Err("no such rule".into());
    };
    let formula = take(&mut reader.formulas)?;
    let step = Step {
        rule,
        formula,
        refs: mem::replace(&mut reader.level.refs, List::new(alloc)),
        numbers: mem::replace(&mut reader.level.numbers, List::new(alloc)),
        subs: mem::replace(&mut reader.level.subs, List::new(alloc)),
    };
    reader.level.steps.push(step)?;
    Ok(())
}

/// Begins a sub-derivation.
fn begin(reader: &mut Reader) -> Result<(), OutOfMemory> {
    let level = mem::replace(&mut reader.level, new_level(reader.alloc));
    reader.outer.push(level)
}

/// Ends a sub-derivation.
fn end(reader: &mut Reader) -> Result<(), Fail> {
    let outer = take(&mut reader.outer)?;
    let Level {
        refs: _refs,
        numbers: _numbers,
        subs: _subs,
        steps,
    } = mem::replace(&mut reader.level, outer);
    reader.level.subs.push(steps)?;
    Ok(())
}

/// Takes a word of steps.
fn take_step_word(reader: &mut Reader, word: &str) -> Result<(), Fail> {
    if let Some(name) = word.strip_prefix("!") {
        return take_rule(reader, name);
    }
    if let Some(number) = word.strip_prefix("#") {
        match number.parse::<i128>() {
            Ok(number) => reader.level.numbers.push(number)?,
            Err(_) => return Err("no number".into()),
        }
        return Ok(());
    }
    match word {
        "[" => begin(reader)?,
        "]" => end(reader)?,
        _ => match reference(word) {
            Some(reference) => reader.level.refs.push(reference)?,
            None => return Err("no such word".into()),
        },
    }
    Ok(())
}

/// The formulas and the steps that a text spells: the formulas that no step has taken.
pub(crate) fn read(alloc: Global, text: &str) -> Result<(List<Formula>, List<Step>), Fail> {
    let mut reader = Reader {
        alloc,
        terms: List::new(alloc),
        formulas: List::new(alloc),
        level: new_level(alloc),
        outer: List::new(alloc),
    };
    for word in text.split_whitespace() {
        if !take_formula_word(&mut reader, word)? {
            take_step_word(&mut reader, word)?;
        }
    }
    let Reader {
        alloc: _alloc,
        terms: _terms,
        formulas,
        level,
        outer: _outer,
    } = reader;
    let Level {
        refs: _refs,
        numbers: _numbers,
        subs: _subs,
        steps,
    } = level;
    Ok((formulas, steps))
}
