ghost use Rattle.std.specs.Prelude.{◌≤◌, length, IfOk};
ghost use Rattle.term_logic.specs.Formulas.{formula_bound};
ghost use Rattle.bitvector_rules.specs.Facts.{AllWithin};

use crate::admissible::{are_admissible, is_admissible, is_admissible_formula};
use crate::reader::read;
use bitvector_rules::{Step, is_instance};
use derivation_check::{Checked, check_derivation};
use std::alloc::Global;
use std::test::Fail;
use term_logic::{Formula, IdFormula, TermTable};
use wasm_values::{List, OutOfMemory};

/// Adds a formula to the table.
fn put(table: &mut TermTable, facts: &List<IdFormula>, f: &Formula) -> Result<IdFormula, Fail>
    requires { AllWithin (length table.old) facts.now }
    ensures within { IfOk result (λ g. formula_bound g ≤ length table.new) }
    ensures facts { AllWithin (length table.new) facts.now }
{
    let _ = facts;
    if !is_admissible_formula(f) {
        return Err("the formula is too large".into());
    }
    Ok(table.put_formula(f)?)
}

/// Adds a formula to the table and to the facts.
fn add(table: &mut TermTable, facts: &mut List<IdFormula>, f: &Formula) -> Result<(), Fail>
    requires { AllWithin (length table.old) facts.old }
    ensures { AllWithin (length table.new) facts.new }
{
    let g = put(table, facts, f)?;
    facts.push(g)?;
    Ok(())
}

/// The formulas over the table.
fn put_all(
    alloc: Global,
    table: &mut TermTable,
    formulas: &[Formula],
) -> Result<List<IdFormula>, Fail>
    ensures { IfOk result (λ fs. AllWithin (length table.new) fs) }
{
    let mut facts = List::new(alloc);
    for f in formulas {
        add(table, &mut facts, f)?;
    }
    Ok(facts)
}

/// What the check answers of the steps, which have to derive the goal from the hypotheses.
pub(crate) fn derived(
    alloc: Global,
    hyps: &[Formula],
    goal: &Formula,
    steps: &List<Step>,
) -> Result<Checked, Fail> {
    let mut table = TermTable::new(alloc);
    let facts = put_all(alloc, &mut table, hyps)?;
    let goal = put(&mut table, &facts, goal)?;
    if !are_admissible(steps.as_slice()) {
        return Err("a formula is too large".into());
    }
    let answer = check_derivation(alloc, &mut table, &facts, &goal, steps)?;
    Ok(answer)
}

/// Whether the step is an instance over the hypotheses.
fn fits(alloc: Global, hyps: &[Formula], step: &Step) -> Result<bool, Fail> {
    let mut table = TermTable::new(alloc);
    let facts = put_all(alloc, &mut table, hyps)?;
    if !is_admissible(step) {
        return Err("a formula is too large".into());
    }
    let fitting = is_instance(alloc, &mut table, &facts, &List::new(alloc), step)?;
    Ok(fitting)
}

/// Whether the step is an instance, where no hypotheses but earlier conclusions are given.
pub(crate) fn fits_after(alloc: Global, earlier: &str, step: &str) -> Result<bool, Fail> {
    let (earlier, _none) = read(alloc, earlier)?;
    let (_left, steps) = read(alloc, step)?;
    let mut table = TermTable::new(alloc);
    let facts = put_all(alloc, &mut table, earlier.as_slice())?;
    match steps.as_slice().last() {
        Some(step) if is_admissible(step) => {
            let fitting = is_instance(alloc, &mut table, &List::new(alloc), &facts, step)?;
            Ok(fitting)
        }
        _ => Err("there is no small step".into()),
    }
}

/// What the check answers of the steps, which have to derive the last of the goals from the hypotheses.
fn derived_last(
    alloc: Global,
    hyps: &[Formula],
    goals: &[Formula],
    steps: &List<Step>,
) -> Result<Checked, Fail> {
    match goals.last() {
        Some(goal) => derived(alloc, hyps, goal, steps),
        None => Err("there is no goal".into()),
    }
}

/// What the check answers of the steps, which have to derive the goal from the hypotheses.
pub(crate) fn checked(alloc: Global, hyps: &str, goal: &str, steps: &str) -> Result<Checked, Fail> {
    let (hyps, _none) = read(alloc, hyps)?;
    let (goals, steps) = read_both(alloc, goal, steps)?;
    derived_last(alloc, hyps.as_slice(), goals.as_slice(), &steps)
}

/// Copies of the steps.
fn copies(alloc: Global, steps: &[Step]) -> Result<List<Step>, OutOfMemory> {
    let mut copies = List::new(alloc);
    for step in steps {
        copies.push(step.copy(alloc)?)?;
    }
    Ok(copies)
}

/// What the check answers of copies of the steps.
pub(crate) fn checked_copies(
    alloc: Global,
    hyps: &str,
    goal: &str,
    steps: &str,
) -> Result<Checked, Fail> {
    let (hyps, _none) = read(alloc, hyps)?;
    let (goals, steps) = read_both(alloc, goal, steps)?;
    let steps = copies(alloc, steps.as_slice())?;
    derived_last(alloc, hyps.as_slice(), goals.as_slice(), &steps)
}

/// The formulas of the first text and the steps of the second.
fn read_both(
    alloc: Global,
    formulas: &str,
    steps: &str,
) -> Result<(List<Formula>, List<Step>), Fail> {
    let (formulas, _none) = read(alloc, formulas)?;
    let (_left, steps) = read(alloc, steps)?;
    Ok((formulas, steps))
}

/// Whether a single step is an instance, and what the check answers of it, where its conclusion is the goal.
pub(crate) fn verdict(alloc: Global, hyps: &str, step: &str) -> Result<(bool, Checked), Fail> {
    let (hyps, _none) = read(alloc, hyps)?;
    let (_left, steps) = read(alloc, step)?;
    let Some(last) = steps.as_slice().last() else {
        return Err("there is no step".into());
    };
    let fitting = fits(alloc, hyps.as_slice(), last)?;
    let answer = derived(alloc, hyps.as_slice(), &last.formula, &steps)?;
    Ok((fitting, answer))
}

/// Whether the row is right: behind the hypotheses stand a step that is accepted, and one that is refused.
fn is_right(alloc: Global, row: &str) -> Result<bool, Fail> {
    let Some((hyps, steps)) = row.split_once('|') else {
        return Err("no step".into());
    };
    let Some((accepted, refused)) = steps.split_once('|') else {
        return Err("no second step".into());
    };
    let first = verdict(alloc, hyps, accepted)?;
    let second = verdict(alloc, hyps, refused)?;
    Ok(first == (true, Checked::Yes) && second == (false, Checked::BadStep(0)))
}

/// The first row of a table that is wrong.
pub(crate) fn wrong_row(alloc: Global, table: &str) -> Result<Option<usize>, Fail> {
    for (k, row) in table.lines().enumerate() {
        if !is_right(alloc, row)? {
            return Ok(Some(k));
        }
    }
    Ok(None)
}

/// The first line whose step has another verdict.
pub(crate) fn wrong_step(
    alloc: Global,
    hyps: &str,
    steps: &str,
    wanted: (bool, Checked),
) -> Result<Option<usize>, Fail> {
    for (k, step) in steps.lines().enumerate() {
        if verdict(alloc, hyps, step)? != wanted {
            return Ok(Some(k));
        }
    }
    Ok(None)
}

/// The answer that a word spells: `yes`, or the position of a bad step.
fn answer(word: &str) -> Result<Checked, Fail> {
    match word {
        "yes" => Ok(Checked::Yes),
        _ => match word.parse::<usize>() {
            Ok(k) => Ok(Checked::BadStep(k)),
            Err(_) => Err("no answer".into()),
        },
    }
}

/// Whether the steps of the line have the answer that the word before them says.
fn is_answered(alloc: Global, hyps: &str, goal: &str, line: &str) -> Result<bool, Fail> {
    let Some((word, steps)) = line.split_once('|') else {
        return Err("no steps".into());
    };
    let wanted = answer(word)?;
    let given = checked(alloc, hyps, goal, steps)?;
    Ok(given == wanted)
}

/// The first line whose steps have another answer than the word before them says.
pub(crate) fn wrong_answer(
    alloc: Global,
    hyps: &str,
    goal: &str,
    lines: &str,
) -> Result<Option<usize>, Fail> {
    for (k, line) in lines.lines().enumerate() {
        if !is_answered(alloc, hyps, goal, line)? {
            return Ok(Some(k));
        }
    }
    Ok(None)
}
