ghost use Rattle.std.specs.Prelude.{◌≡◌, ◌≤◌, ◌++◌, length, map, take, IfOk, IsTrue};
ghost use Rattle.std.specs.List.{All};
ghost use Rattle.term_logic.specs.Extends.{Extends};
ghost use Rattle.term_logic.specs.Formulas.{formula_bound, formula_of};
ghost use Rattle.bitvector_rules.specs.Steps.{all_admissible};
ghost use Rattle.derivation_check.specs.Derivations.{checked};
ghost use Rattle.symbolic_state.specs.Growth.{Grown};

use crate::tracked::TrackedState;
use bitvector_rules::Step;
use derivation_check::{Checked, check_derivation};
use std::alloc::Global;
use term_logic::{IdFormula, TermTable};
use wasm_values::{List, OutOfMemory};

/// Adds formulas at the end: perhaps only some, where memory is wanting.
fn push_all(facts: &mut List<IdFormula>, more: List<IdFormula>) -> Result<(), OutOfMemory>
    ensures all { IfOk result (λ _. facts.new ≡ facts.old ++ more) }
    ensures before { take (length facts.old) facts.new ≡ facts.old }
{
    for fact in more.into_vec() {
        facts.push(fact)?;
    }
    Ok(())
}

/// The answer of a check of steps over facts and some more, which are added to them.
fn checked_with(
    alloc: Global,
    table: &mut TermTable,
    facts: &mut List<IdFormula>,
    more: List<IdFormula>,
    goal: &IdFormula,
    steps: &List<Step>,
) -> Result<Checked, OutOfMemory>
    requires facts { All (λ f. formula_bound f ≤ length table.old) facts.old }
    requires more { All (λ f. formula_bound f ≤ length table.old) more }
    requires goal { formula_bound goal.now ≤ length table.old }
    requires steps { IsTrue (all_admissible steps.now) }
    ensures checked { IfOk result (λ answer. answer ≡ checked (map (formula_of table.old) (facts.old ++ more)) (formula_of table.old goal.now) steps.now) }
    ensures before { take (length facts.old) facts.new ≡ facts.old }
    ensures kept { Extends table.old table.new }
{
    push_all(facts, more)?;
    check_derivation(alloc, table, facts, goal, steps)
}

/// The answer of a check of steps over facts and some more. The facts are the same afterwards.
fn checked_over(
    alloc: Global,
    table: &mut TermTable,
    facts: &mut List<IdFormula>,
    more: List<IdFormula>,
    goal: &IdFormula,
    steps: &List<Step>,
) -> Result<Checked, OutOfMemory>
    requires facts { All (λ f. formula_bound f ≤ length table.old) facts.old }
    requires more { All (λ f. formula_bound f ≤ length table.old) more }
    requires goal { formula_bound goal.now ≤ length table.old }
    requires steps { IsTrue (all_admissible steps.now) }
    ensures checked { IfOk result (λ answer. answer ≡ checked (map (formula_of table.old) (facts.old ++ more)) (formula_of table.old goal.now) steps.now) }
    ensures facts { facts.new ≡ facts.old }
    ensures kept { Extends table.old table.new }
{
    let count = facts.len();
    let answer = checked_with(alloc, table, facts, more, goal, steps);
    facts.truncate(count);
    answer
}

impl TrackedState {
    /// Whether steps derive a goal from the facts, and if not, which step is the first that is bad.
    #[tactic(auto, using(crate::proofs::Growing::growing, crate::proofs::Grows::grown_over))]
    pub fn check(&mut self, goal: &IdFormula, steps: &List<Step>) -> Result<Checked, OutOfMemory>
        requires goal { formula_bound goal.now ≤ length self.old.terms }
        requires steps { IsTrue (all_admissible steps.now) }
        ensures checked { IfOk result (λ answer. answer ≡ checked self.old.state.facts (formula_of self.old.terms goal.now) steps.now) }
        ensures state { IfOk result (λ _. self.new.state ≡ self.old.state) }
        ensures kept { IfOk result (λ _. Grown self.old self.new) }
    {
        let facts = &self.state.heap.facts;
        check_derivation(self.alloc, &mut self.table, facts, goal, steps)
    }

    /// The same from the facts and some more.
    #[tactic(auto, using(crate::proofs::Growing::growing, crate::proofs::Grows::grown_over))]
    pub fn check_with(
        &mut self,
        more: List<IdFormula>,
        goal: &IdFormula,
        steps: &List<Step>,
    ) -> Result<Checked, OutOfMemory>
        requires more { All (λ f. formula_bound f ≤ length self.old.terms) more }
        requires goal { formula_bound goal.now ≤ length self.old.terms }
        requires steps { IsTrue (all_admissible steps.now) }
        ensures checked { IfOk result (λ answer. answer ≡ checked (self.old.state.facts ++ map (formula_of self.old.terms) more) (formula_of self.old.terms goal.now) steps.now) }
        ensures state { IfOk result (λ _. self.new.state ≡ self.old.state) }
        ensures kept { IfOk result (λ _. Grown self.old self.new) }
    {
        let facts = &mut self.state.heap.facts;
        checked_over(self.alloc, &mut self.table, facts, more, goal, steps)
    }
}
