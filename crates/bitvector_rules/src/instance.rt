ghost use Rattle.std.specs.Prelude.{◌≡◌, ◌≤◌, [], map, length, IfOk, IsTrue};
ghost use Rattle.std.specs.List.{list_all};
ghost use Rattle.term_logic.specs.Formulas.{formula_bound, formula_of};
ghost use Rattle.term_logic.specs.Extends.{Extends};
ghost use Rattle.term_trees.specs.Same.{passes, same_formula};
ghost use Rattle.bitvector_rules.specs.Facts.{AllWithin};
ghost use Rattle.bitvector_rules.specs.Goals.{last_formula, ends_match, has_shape, goal_of, GoalsWithin};
ghost use Rattle.bitvector_rules.specs.Steps.{is_admissible};

use crate::facts::Facts;
use crate::goals::{SubGoal, sub_goals};
use crate::step::Step;
use std::alloc::Global;
use term_logic::{Formula, IdFormula, LeafIds, TermTable};
use wasm_values::{List, OutOfMemory};

/// Whether the formula over the table stands for the tree.
pub fn says(table: &TermTable, tree: &Formula, formula: &IdFormula) -> bool
    requires { formula_bound formula.now ≤ length table.now }
    ensures { result ≡ same_formula tree.now (formula_of table.now formula.now) }
{
    table.is_replaced_formula(tree, &LeafIds::none(), formula)
}

/// Whether the last of the steps says the formula.
pub fn ends_with(table: &TermTable, steps: &[Step], goal: &IdFormula) -> bool
    requires { formula_bound goal.now ≤ length table.now }
    ensures { result ≡ passes (last_formula steps.now) (λ f. same_formula f (formula_of table.now goal.now)) }
{
    match steps.last() {
        Some(step) => says(table, &step.formula, goal),
        None => false,
    }
}

/// Whether there is one sub-derivation for each goal, and it ends with what the goal says.
fn ends_match(table: &TermTable, subs: &[List<Step>], goals: &[SubGoal]) -> bool
    requires { GoalsWithin (length table.now) goals.now }
    ensures { result ≡ ends_match subs.now (map (goal_of table.now) goals.now) }
{
    let Some((sub, subs)) = subs.split_first() else {
        return goals.is_empty();
    };
    let Some((goal, goals)) = goals.split_first() else {
        return false;
    };
    ends_with(table, sub.as_slice(), &goal.goal) && ends_match(table, subs, goals)
}

/// Whether a step fits its rule, over hypotheses and the conclusions of the earlier steps. Of its sub-derivations only
/// the last formulas are looked at.
#[tactic(auto, unfolding(crate::specs::Goals::has_shape))]
pub fn is_instance(
    alloc: Global,
    table: &mut TermTable,
    hyps: &List<IdFormula>,
    earlier: &List<IdFormula>,
    step: &Step,
) -> Result<bool, OutOfMemory>
    requires hyps { AllWithin (length table.old) hyps.now }
    requires earlier { AllWithin (length table.old) earlier.now }
    requires step { IsTrue (is_admissible step.now) }
    ensures shape { IfOk result (λ b. b ≡ has_shape (map (formula_of table.old) hyps.now) (map (formula_of table.old) earlier.now) step.now) }
    ensures kept { Extends table.old table.new }
{
    let conclusion = table.put_formula(&step.formula)?;
    let facts = Facts {
        hyps: hyps.as_slice(),
        added: earlier.as_slice(),
        base: 0,
    };
    match sub_goals(alloc, table, &facts, step, &conclusion)? {
        Some(goals) => Ok(ends_match(table, step.subs.as_slice(), goals.as_slice())),
        None => Ok(false),
    }
}
