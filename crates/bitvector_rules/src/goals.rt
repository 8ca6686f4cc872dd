ghost use Rattle.std.specs.Prelude.{◌≡◌, ◌≤◌, [], ◌∷◌, map, length, if◌then◌else◌, None, Some, IfOk, IfSome, IsTrue};
ghost use Rattle.std.specs.Option.{option_map, option_and_then};
ghost use Rattle.term_trees.specs.declared.term.Formula.TheVariants as formula;
ghost use Rattle.term_trees.specs.Formulas.{well_formed_formula};
ghost use Rattle.term_logic.specs.Formulas.{formula_bound, formula_of};
ghost use Rattle.term_trees.specs.Views.{not_of, or_of, imp_of};
ghost use Rattle.bitvector_rules.specs.declared.step.Step.{out-Step};
ghost use Rattle.bitvector_rules.specs.Facts.{one_premise, hyps_of, earlier_of, FactsWithin};
ghost use Rattle.bitvector_rules.specs.Goals.{when, step_goals, goal_of, GoalsWithin};

use crate::equality::fits_linear;
use crate::facts::Facts;
use crate::items::is_empty;
use crate::step::{Ref, Step};
use crate::table::{rule_goals, takes_numbers};
use std::alloc::Global;
use term_logic::{Boxed, Formula, IdFormula, TermTable};
use wasm_values::{List, OutOfMemory};

/// What a sub-derivation has to show: the goal, under the assumption.
#[derive(Drop)]
pub struct SubGoal {
    pub assumption: IdFormula,
    pub goal: IdFormula,
}

/// No goals, where the test holds.
pub(crate) fn when(alloc: Global, table: &TermTable, holds: bool) -> Option<List<SubGoal>>
    ensures goals { option_map (map (goal_of table.now)) result ≡ when holds }
    ensures within { IfSome result (λ gs. GoalsWithin (length table.now) gs) }
{
    let _ = table;
    if holds { Some(List::new(alloc)) } else { None }
}

/// One goal under one assumption.
fn one_goal(
    alloc: Global,
    table: &TermTable,
    assumption: IdFormula,
    goal: IdFormula,
) -> Result<List<SubGoal>, OutOfMemory>
    requires assumption { formula_bound assumption ≤ length table.now }
    requires goal { formula_bound goal ≤ length table.now }
    ensures goals { IfOk result (λ gs. map (goal_of table.now) gs ≡ (formula_of table.now assumption, formula_of table.now goal) ∷ []) }
    ensures within { IfOk result (λ gs. GoalsWithin (length table.now) gs) }
{
    let _ = table;
    let mut goals = List::new(alloc);
    goals.push(SubGoal { assumption, goal })?;
    Ok(goals)
}

/// The goals of `cases`: the conclusion, under each part of the disjunction that the premise is.
pub(crate) fn cases_goals(
    alloc: Global,
    table: &TermTable,
    facts: &Facts<'_>,
    refs: &[Ref],
    conclusion: &IdFormula,
) -> Result<Option<List<SubGoal>>, OutOfMemory>
    requires facts { FactsWithin (length table.now) facts.now }
    requires conclusion { formula_bound conclusion.now ≤ length table.now }
    ensures goals { IfOk result (λ r. option_map (map (goal_of table.now)) r ≡ option_map (λ q. (q.0, formula_of table.now conclusion.now) ∷ (q.1, formula_of table.now conclusion.now) ∷ []) (option_and_then or_of (one_premise (hyps_of table.now facts.now) (earlier_of table.now facts.now) refs.now))) }
    ensures within { IfOk result (λ r. IfSome r (λ gs. GoalsWithin (length table.now) gs)) }
{
    let Some(p) = facts.one(table, refs) else {
        return Ok(None);
    };
    let Some((first, second)) = p.or_of(table) else {
        return Ok(None);
    };
    let first = first.copy(alloc)?;
    let assumption = second.copy(alloc)?;
    let mut goals = one_goal(alloc, table, first, conclusion.copy(alloc)?)?;
    let goal = conclusion.copy(alloc)?;
    goals.push(SubGoal { assumption, goal })?;
    Ok(Some(goals))
}

/// The goal of `assume`: what the conclusion leads to, under what it starts from.
pub(crate) fn assume_goals(
    alloc: Global,
    table: &TermTable,
    conclusion: &IdFormula,
) -> Result<Option<List<SubGoal>>, OutOfMemory>
    requires { formula_bound conclusion.now ≤ length table.now }
    ensures goals { IfOk result (λ r. option_map (map (goal_of table.now)) r ≡ option_map (λ q. (q.0, q.1) ∷ []) (imp_of (formula_of table.now conclusion.now))) }
    ensures within { IfOk result (λ r. IfSome r (λ gs. GoalsWithin (length table.now) gs)) }
{
    let Some((f, g)) = conclusion.imp_of(table) else {
        return Ok(None);
    };
    let f = f.copy(alloc)?;
    let g = g.copy(alloc)?;
    Ok(Some(one_goal(alloc, table, f, g)?))
}

/// The goal of `contra`: `false`, under the denial of the conclusion.
#[tactic(auto, using(crate::proofs::GoalLemmas::shown))]
pub(crate) fn contra_goals(
    alloc: Global,
    table: &TermTable,
    conclusion: &IdFormula,
) -> Result<Option<List<SubGoal>>, OutOfMemory>
    requires { formula_bound conclusion.now ≤ length table.now }
    ensures goals { IfOk result (λ r. option_map (map (goal_of table.now)) r ≡ Some ((formula.Not (formula_of table.now conclusion.now), formula.False) ∷ [])) }
    ensures within { IfOk result (λ r. IfSome r (λ gs. GoalsWithin (length table.now) gs)) }
{
    let denied = Boxed::new(alloc, conclusion.copy(alloc)?)?;
    Ok(Some(one_goal(alloc, table, IdFormula::Not(denied), IdFormula::False)?))
}

/// The goal of `refute`: `false`, under what the conclusion denies.
#[tactic(auto, using(crate::proofs::GoalLemmas::shown))]
pub(crate) fn refute_goals(
    alloc: Global,
    table: &TermTable,
    conclusion: &IdFormula,
) -> Result<Option<List<SubGoal>>, OutOfMemory>
    requires { formula_bound conclusion.now ≤ length table.now }
    ensures goals { IfOk result (λ r. option_map (map (goal_of table.now)) r ≡ option_map (λ f. (f, formula.False) ∷ []) (not_of (formula_of table.now conclusion.now))) }
    ensures within { IfOk result (λ r. IfSome r (λ gs. GoalsWithin (length table.now) gs)) }
{
    let Some(f) = conclusion.not_of(table) else {
        return Ok(None);
    };
    let f = f.copy(alloc)?;
    Ok(Some(one_goal(alloc, table, f, IdFormula::False)?))
}

/// What the sub-derivations of a step have to show. `None` comes exactly where the step has no such premises and
/// conclusion as its rule wants.
pub fn sub_goals(
    alloc: Global,
    table: &TermTable,
    facts: &Facts<'_>,
    step: &Step,
    conclusion: &IdFormula,
) -> Result<Option<List<SubGoal>>, OutOfMemory>
    requires facts { FactsWithin (length table.now) facts.now }
    requires within { formula_bound conclusion.now ≤ length table.now }
    requires conclusion { formula_of table.now conclusion.now ≡ (out-Step step.now).formula }
    requires well_formed { IsTrue (well_formed_formula (out-Step step.now).formula) }
    ensures goals { IfOk result (λ r. option_map (map (goal_of table.now)) r ≡ step_goals (hyps_of table.now facts.now) (earlier_of table.now facts.now) (out-Step step.now)) }
    ensures within { IfOk result (λ r. IfSome r (λ gs. GoalsWithin (length table.now) gs)) }
{
    let refs = step.refs.as_slice();
    if takes_numbers(step.rule) {
        let numbers = step.numbers.as_slice();
        let fits = fits_linear(alloc, table, facts, refs, numbers, conclusion)?;
        return Ok(when(alloc, table, fits));
    }
    if !is_empty(step.numbers.as_slice()) {
        return Ok(None);
    }
    rule_goals(
        alloc,
        table,
        facts,
        refs,
        conclusion,
        &step.formula,
        step.rule,
    )
}
