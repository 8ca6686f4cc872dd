ghost use Rattle.std.specs.Prelude.{◌≡◌, ◌≤◌, [], ◌∷◌, ◌++◌, map, length, take, IsTrue, IfOk, OnOk};
ghost use Rattle.std.specs.List.{list_all};
ghost use Rattle.term_logic.specs.Formulas.{formula_bound, formula_of};
ghost use Rattle.term_logic.specs.Extends.{Extends};
ghost use Rattle.bitvector_rules.specs.declared.step.Step.{Step};
ghost use Rattle.bitvector_rules.specs.Facts.{AllWithin};
ghost use Rattle.bitvector_rules.specs.Goals.{goal_of, GoalsWithin};
ghost use Rattle.bitvector_rules.specs.Steps.{is_admissible, all_admissible};
ghost use Rattle.derivation_check.specs.Derivations.{conclusion_of, is_instance, all_reach, derives, good_steps, checked};
ghost use Rattle.derivation_check.specs.words.Facts.{hyps_at, earlier_at, facts_at};

use bitvector_rules::{Facts, Step, SubGoal, ends_with, sub_goals};
use std::alloc::Global;
use term_logic::{IdFormula, TermTable};
use wasm_values::{List, OutOfMemory};

/// The answer of a check of steps.
#[derive(Clone, Copy, Debug, PartialEq, Eq)]
pub enum Checked {
    /// The steps derive the goal.
    Yes,
    /// The position of the first step that is no instance, or the number of steps where the last isn't the goal.
    BadStep(usize),
}

/// Whether the steps derive the goal, under its assumption.
#[cycle(check)]
fn derives_goal(
    alloc: Global,
    table: &mut TermTable,
    hyps: &[IdFormula],
    added: &mut List<IdFormula>,
    goal: &SubGoal,
    steps: &[Step],
) -> Result<bool, OutOfMemory>
    requires hyps { AllWithin (length table.old) hyps.now }
    requires added { AllWithin (length table.old) added.old }
    requires assumption { formula_bound goal.now.assumption ≤ length table.old }
    requires goal { formula_bound goal.now.goal ≤ length table.old }
    requires steps { IsTrue (all_admissible steps.now) }
    ensures derives { IfOk result (λ b. b ≡ derives (facts_at table.old hyps.now added.old ++ formula_of table.old goal.now.assumption ∷ []) (formula_of table.old goal.now.goal) steps.now) }
    ensures added { OnOk result (added.new ≡ added.old) }
    ensures kept { Extends table.old table.new }
{
    let count = added.len();
    added.push(goal.assumption.copy(alloc)?)?;
    let base = added.len();
    let good = good_steps(alloc, table, hyps, added, base, steps)?;
    added.truncate(count);
    Ok(good == steps.len() && ends_with(table, steps, &goal.goal))
}

/// Whether there is one sub-derivation for each goal, and it derives the goal.
#[cycle(check)]
fn all_derive(
    alloc: Global,
    table: &mut TermTable,
    hyps: &[IdFormula],
    added: &mut List<IdFormula>,
    goals: &[SubGoal],
    subs: &[List<Step>],
) -> Result<bool, OutOfMemory>
    requires hyps { AllWithin (length table.old) hyps.now }
    requires added { AllWithin (length table.old) added.old }
    requires goals { GoalsWithin (length table.old) goals.now }
    requires subs { IsTrue (list_all all_admissible subs.now) }
    ensures derive { IfOk result (λ b. b ≡ all_reach Step conclusion_of is_instance (facts_at table.old hyps.now added.old) subs.now (map (goal_of table.old) goals.now)) }
    ensures added { OnOk result (added.new ≡ added.old) }
    ensures kept { Extends table.old table.new }
{
    let Some((sub, subs)) = subs.split_first() else {
        return Ok(goals.is_empty());
    };
    let Some((goal, goals)) = goals.split_first() else {
        return Ok(false);
    };
    if !derives_goal(alloc, table, hyps, added, goal, sub.as_slice())? {
        return Ok(false);
    }
    all_derive(alloc, table, hyps, added, goals, subs)
}

/// Whether a step is an instance of its rule over the facts.
#[cycle(check)]
fn is_instance(
    alloc: Global,
    table: &mut TermTable,
    hyps: &[IdFormula],
    added: &mut List<IdFormula>,
    base: usize,
    step: &Step,
    conclusion: &IdFormula,
) -> Result<bool, OutOfMemory>
    requires hyps { AllWithin (length table.old) hyps.now }
    requires added { AllWithin (length table.old) added.old }
    requires base { base ≤ length added.old }
    requires step { IsTrue (is_admissible step.now) }
    requires within { formula_bound conclusion.now ≤ length table.old }
    requires conclusion { formula_of table.old conclusion.now ≡ conclusion_of step.now }
    ensures instance { IfOk result (λ b. b ≡ is_instance step.now (hyps_at table.old hyps.now added.old base) (earlier_at table.old added.old base)) }
    ensures added { OnOk result (added.new ≡ added.old) }
    ensures kept { Extends table.old table.new }
{
    let facts = Facts {
        hyps,
        added: added.as_slice(),
        base,
    };
    let Some(goals) = sub_goals(alloc, table, &facts, step, conclusion)? else {
        return Ok(false);
    };
    all_derive(
        alloc,
        table,
        hyps,
        added,
        goals.as_slice(),
        step.subs.as_slice(),
    )
}

/// How many steps come before the first that is no instance. The conclusions of these are added to the facts.
#[cycle(check)]
fn good_steps(
    alloc: Global,
    table: &mut TermTable,
    hyps: &[IdFormula],
    added: &mut List<IdFormula>,
    base: usize,
    steps: &[Step],
) -> Result<usize, OutOfMemory>
    requires hyps { AllWithin (length table.old) hyps.now }
    requires added { AllWithin (length table.old) added.old }
    requires base { base ≤ length added.old }
    requires steps { IsTrue (all_admissible steps.now) }
    ensures good { IfOk result (λ k. k ≡ good_steps (hyps_at table.old hyps.now added.old base) (earlier_at table.old added.old base) steps.now) }
    ensures added { OnOk result (take (length added.old) added.new ≡ added.old) }
    ensures kept { Extends table.old table.new }
{
    for (good, step) in steps.iter().enumerate() {
        let conclusion = table.put_formula(&step.formula)?;
        if !is_instance(alloc, table, hyps, added, base, step, &conclusion)? {
            return Ok(good);
        }
        added.push(conclusion)?;
    }
    Ok(steps.len())
}

/// Whether the steps derive the goal from the hypotheses, and if not, which step is the first that is bad.
pub fn check_derivation(
    alloc: Global,
    table: &mut TermTable,
    hyps: &List<IdFormula>,
    goal: &IdFormula,
    steps: &List<Step>,
) -> Result<Checked, OutOfMemory>
    requires hyps { AllWithin (length table.old) hyps.now }
    requires goal { formula_bound goal.now ≤ length table.old }
    requires steps { IsTrue (all_admissible steps.now) }
    ensures checked { IfOk result (λ answer. answer ≡ checked (map (formula_of table.old) hyps.now) (formula_of table.old goal.now) steps.now) }
    ensures kept { Extends table.old table.new }
{
    let mut added = List::new(alloc);
    let good = good_steps(
        alloc,
        table,
        hyps.as_slice(),
        &mut added,
        0,
        steps.as_slice(),
    )?;
    if good == steps.len() && ends_with(table, steps.as_slice(), goal) {
        Ok(Checked::Yes)
    } else {
        Ok(Checked::BadStep(good))
    }
}
