ghost use Rattle.std.specs.Prelude.{◌≡◌, ◌≤◌, map, length, IfOk, IfSome, IsTrue};
ghost use Rattle.std.specs.Option.{option_map};
ghost use Rattle.term_trees.specs.Formulas.{well_formed_formula};
ghost use Rattle.term_logic.specs.Formulas.{formula_bound, formula_of};
ghost use Rattle.bitvector_rules.specs.Facts.{hyps_of, earlier_of, FactsWithin};
ghost use Rattle.bitvector_rules.specs.Machine.{machine_rule};
ghost use Rattle.bitvector_rules.specs.Goals.{fits_equality, further_goals, rule_goals, takes_numbers, goal_of, GoalsWithin};

use crate::equality::{
    by_ceil, by_eval, by_floor, by_mulpos, by_notle, by_notlt, by_order, by_refl, by_rewrite,
};
use crate::facts::Facts;
use crate::goals::{SubGoal, assume_goals, cases_goals, contra_goals, refute_goals, when};
use crate::items::is_empty;
use crate::logic::{
    is_and, is_apply, is_clash, is_explode, is_hyp, is_left, is_orl, is_orr, is_right, is_true,
};
use crate::machine::fits_machine;
use crate::step::{Ref, Rule};
use integer_rules::IntegerRule;
use std::alloc::Global;
use term_logic::{Formula, IdFormula, TermTable};
use wasm_values::{List, OutOfMemory};

// The 38 rules, each with what its steps want: the goals of their sub-derivations, or a test that they pass. The macro
// `$row` makes of each row what is to be done at its rule.
//
//     Logic, Order     the test is on the references and the conclusion
//     Ground           likewise, on the tree of the conclusion
//     Goals            there are sub-derivations
//     BareGoals        there are sub-derivations, and no references
//     Numbers          the rule takes numbers, and its test, `fits_linear`, is called apart
//     Integer          the test is that of a rule of machine integers
macro_rules! by_rule {
    ($row:ident, $of:ident) => {
        rows! { $row, $of;
            Hyp Logic(is_hyp)
            True Logic(is_true)
            And Logic(is_and)
            Left Logic(is_left)
            Right Logic(is_right)
            Orl Logic(is_orl)
            Orr Logic(is_orr)
            Cases Goals(cases_goals)
            Assume BareGoals(assume_goals)
            Apply Logic(is_apply)
            Contra BareGoals(contra_goals)
            Refute BareGoals(refute_goals)
            Clash Logic(is_clash)
            Explode Logic(is_explode)
            Refl Order(by_refl)
            Rewrite Order(by_rewrite)
            Eval Ground(by_eval)
            Linear Numbers
            Floor Order(by_floor)
            Ceil Order(by_ceil)
            Order Order(by_order)
            Notle Order(by_notle)
            Notlt Order(by_notlt)
            Mulpos Order(by_mulpos)
            Range Integer(Range)
            Add Integer(Add)
            Addwrap Integer(Addwrap)
            Sub Integer(Sub)
            Subwrap Integer(Subwrap)
            Mul Integer(Mul)
            Divu Integer(Divu)
            Divs Integer(Divs)
            Test Integer(Test)
            Tests Integer(Tests)
            Sgn Integer(Sgn)
            Shift Integer(Shift)
            Mask Integer(Mask)
            Widen Integer(Widen)
        }
    };
}

macro_rules! rows {
    ($row:ident, $of:ident; $($rule:ident $form:ident $(($what:ident))?)*) => {
        match $of {
            $(Rule::$rule => $row!($form $($what)?),)*
        }
    };
}

/// Whether the rule is `linear`, the one that takes numbers.
pub(crate) fn takes_numbers(rule: Rule) -> bool
    ensures { result ≡ takes_numbers rule }
{
    macro_rules! is_numbers {
        (Numbers) => {
            true
        };
        ($form:ident $($what:ident)?) => {
            false
        };
    }
    by_rule!(is_numbers, rule)
}

/// The rule of machine integers that a rule is, where it is one.
pub(crate) fn machine_rule(rule: Rule) -> Option<IntegerRule>
    ensures { result ≡ machine_rule rule }
{
    macro_rules! integer_rule {
        (Integer $rule:ident) => {
            Some(IntegerRule::$rule)
        };
        ($form:ident $($what:ident)?) => {
            None
        };
    }
    by_rule!(integer_rule, rule)
}

/// Whether a step fits a rule of equality and order, but for `linear`.
fn fits_equality(
    table: &TermTable,
    facts: &Facts<'_>,
    refs: &[Ref],
    conclusion: &IdFormula,
    tree: &Formula,
    rule: Rule,
) -> bool
    requires facts { FactsWithin (length table.now) facts.now }
    requires conclusion { formula_bound conclusion.now ≤ length table.now }
    requires tree { formula_of table.now conclusion.now ≡ tree.now }
    requires well_formed { IsTrue (well_formed_formula tree.now) }
    ensures { result ≡ fits_equality (hyps_of table.now facts.now) (earlier_of table.now facts.now) refs.now (formula_of table.now conclusion.now) rule }
{
    macro_rules! fits {
        (Order $test:ident) => {
            $test(table, facts, refs, conclusion)
        };
        (Ground $test:ident) => {
            $test(table, refs, conclusion, tree)
        };
        ($form:ident $($what:ident)?) => {
            false
        };
    }
    by_rule!(fits, rule)
}

/// The goals of a step by a rule of machine integers, where its rule is one, and else of equality and order.
fn further_goals(
    alloc: Global,
    table: &TermTable,
    facts: &Facts<'_>,
    refs: &[Ref],
    conclusion: &IdFormula,
    tree: &Formula,
    rule: Rule,
) -> Result<Option<List<SubGoal>>, OutOfMemory>
    requires facts { FactsWithin (length table.now) facts.now }
    requires conclusion { formula_bound conclusion.now ≤ length table.now }
    requires tree { formula_of table.now conclusion.now ≡ tree.now }
    requires well_formed { IsTrue (well_formed_formula tree.now) }
    ensures goals { IfOk result (λ r. option_map (map (goal_of table.now)) r ≡ further_goals (hyps_of table.now facts.now) (earlier_of table.now facts.now) refs.now (formula_of table.now conclusion.now) rule (machine_rule rule)) }
    ensures within { IfOk result (λ r. IfSome r (λ gs. GoalsWithin (length table.now) gs)) }
{
    match machine_rule(rule) {
        Some(machine) => {
            let fits = fits_machine(alloc, table, facts, refs, conclusion, machine)?;
            Ok(when(alloc, table, fits))
        }
        None => {
            let fits = fits_equality(table, facts, refs, conclusion, tree, rule);
            Ok(when(alloc, table, fits))
        }
    }
}

/// The goals of a step by its rule.
pub(crate) fn rule_goals(
    alloc: Global,
    table: &TermTable,
    facts: &Facts<'_>,
    refs: &[Ref],
    conclusion: &IdFormula,
    tree: &Formula,
    rule: Rule,
) -> Result<Option<List<SubGoal>>, OutOfMemory>
    requires facts { FactsWithin (length table.now) facts.now }
    requires conclusion { formula_bound conclusion.now ≤ length table.now }
    requires tree { formula_of table.now conclusion.now ≡ tree.now }
    requires well_formed { IsTrue (well_formed_formula tree.now) }
    ensures goals { IfOk result (λ r. option_map (map (goal_of table.now)) r ≡ rule_goals (hyps_of table.now facts.now) (earlier_of table.now facts.now) refs.now (formula_of table.now conclusion.now) rule) }
    ensures within { IfOk result (λ r. IfSome r (λ gs. GoalsWithin (length table.now) gs)) }
{
    macro_rules! goals {
        (Logic $test:ident) => {
            Ok(when(alloc, table, $test(table, facts, refs, conclusion)))
        };
        (Goals $goals:ident) => {
            $goals(alloc, table, facts, refs, conclusion)
        };
        (BareGoals $goals:ident) => {
            if is_empty(refs) { $goals(alloc, table, conclusion) } else { Ok(None) }
        };
        ($form:ident $($what:ident)?) => {
            further_goals(alloc, table, facts, refs, conclusion, tree, rule)
        };
    }
    by_rule!(goals, rule)
}
