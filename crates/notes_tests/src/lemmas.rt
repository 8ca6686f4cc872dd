//! The tests of lemmas.

ghost use Rattle.std.specs.Prelude.{◌≡◌, ◌≤◌, map, length, IsTrue, IfOk};
ghost use Rattle.std.specs.List.{list_all};
ghost use Rattle.wasm_values.specs.Answers.{Gives};
ghost use Rattle.term_trees.specs.Formulas.{well_formed_formula};
ghost use Rattle.term_trees.specs.Scopes.{given};
ghost use Rattle.term_logic.specs.Formulas.{formula_of};
ghost use Rattle.term_logic.specs.Extends.{Extends};
ghost use Rattle.bitvector_rules.specs.Facts.{AllWithin};
ghost use Rattle.bitvector_rules.specs.Steps.{is_admissible_formula, is_admissible, all_admissible};
ghost use Rattle.notes.specs.WellFormed.{well_formed_step, well_formed_lemma};
ghost use Rattle.heap_logic.specs.Faults.{refusal_of};
ghost use Rattle.outline_rules.specs.Moves.{derived};
ghost use Rattle.outline_rules.specs.Tests.{lemma_variables, lemma_tested, lemmas_tested};
ghost use Rattle.notes_tests.specs.words.Passing.{all_tests, passed, step_passed, lemma_passed};

use bitvector_rules::Step;
use derivation_check::{Checked, check_derivation};
use heap_logic::MoveFault;
use notes::{Lemma, Reason};
use std::alloc::Global;
use term_logic::{IdFormula, TermTable};
use term_trees::{Formula, Place, Scoped, formula_in_scope, formula_nodes};
use wasm_values::{LimitWord, List, OutOfMemory};

/// The variables of a lemma.
#[derive(Clone, Copy)]
struct Variables {
    count: u32,
}

impl Scoped for Variables {
    ghost scope = { λ v. given (lemma_variables v.count) };

    fn has_variable(&self, k: u32) -> bool {
        k < self.count
    }

    fn has_own(&self, _k: u32) -> bool {
        false
    }

    fn has_place(&self, _place: Place) -> bool {
        false
    }
}

/// Whether a formula of a lemma is taken.
fn passes(variables: u32, formula: &Formula) -> Result<(), MoveFault>
    requires { IsTrue (well_formed_formula formula.now) }
    ensures passed { Gives refusal_of (λ _. tt) result (passed (lemma_variables variables) formula.now) }
    ensures admissible { IfOk result (λ _. IsTrue (is_admissible_formula formula.now)) }
{
    if !formula_in_scope(formula, &Variables { count: variables }) {
        return Err(MoveFault::NoMove(Reason::Scope));
    }
    if formula_nodes(formula) > 4096 {
        return Err(MoveFault::Limit(LimitWord::Nodes));
    }
    Ok(())
}

/// Whether formulas of a lemma are taken.
fn all_pass(variables: u32, formulas: &[Formula]) -> Result<(), MoveFault>
    requires { IsTrue (list_all well_formed_formula formulas.now) }
    ensures passed { Gives refusal_of (λ _. tt) result (all_tests (passed (lemma_variables variables)) formulas.now) }
    ensures admissible { IfOk result (λ _. IsTrue (list_all is_admissible_formula formulas.now)) }
{
    for formula in formulas {
        match passes(variables, formula) {
            Ok(()) => {}
            Err(fault) => return Err(fault),
        }
    }
    Ok(())
}

/// Whether the formulas of a step and of its sub-derivations are taken.
#[cycle(steps)]
fn step_passes(variables: u32, step: &Step) -> Result<(), MoveFault>
    requires { IsTrue (well_formed_step step.now) }
    ensures passed { Gives refusal_of (λ _. tt) result (step_passed (lemma_variables variables) step.now) }
    ensures admissible { IfOk result (λ _. IsTrue (is_admissible step.now)) }
{
    match passes(variables, &step.formula) {
        Ok(()) => subs_pass(variables, step.subs.as_slice()),
        Err(fault) => Err(fault),
    }
}

/// Whether those of sub-derivations are.
#[cycle(steps)]
fn subs_pass(variables: u32, subs: &[List<Step>]) -> Result<(), MoveFault>
    requires { IsTrue (list_all (list_all well_formed_step) subs.now) }
    ensures passed { Gives refusal_of (λ _. tt) result (all_tests (λ sub. all_tests (step_passed (lemma_variables variables)) sub) subs.now) }
    ensures admissible { IfOk result (λ _. IsTrue (list_all all_admissible subs.now)) }
{
    for sub in subs {
        match steps_pass(variables, sub.as_slice()) {
            Ok(()) => {}
            Err(fault) => return Err(fault),
        }
    }
    Ok(())
}

/// Whether those of steps are.
#[cycle(steps)]
fn steps_pass(variables: u32, steps: &[Step]) -> Result<(), MoveFault>
    requires { IsTrue (list_all well_formed_step steps.now) }
    ensures passed { Gives refusal_of (λ _. tt) result (all_tests (step_passed (lemma_variables variables)) steps.now) }
    ensures admissible { IfOk result (λ _. IsTrue (all_admissible steps.now)) }
{
    for step in steps {
        match step_passes(variables, step) {
            Ok(()) => {}
            Err(fault) => return Err(fault),
        }
    }
    Ok(())
}

/// Puts formulas into a table.
fn put_all(
    alloc: Global,
    table: &mut TermTable,
    formulas: &[Formula],
) -> Result<List<IdFormula>, OutOfMemory>
    requires { IsTrue (list_all is_admissible_formula formulas.now) }
    ensures within { IfOk result (λ ids. AllWithin (length table.new) ids) }
    ensures trees { IfOk result (λ ids. map (formula_of table.new) ids ≡ formulas.now) }
    ensures kept { Extends table.old table.new }
{
    let mut ids = List::new(alloc);
    for formula in formulas {
        ids.push(table.put_formula(formula)?)?;
    }
    Ok(ids)
}

/// Whether a lemma's steps derive its goal from its hypotheses.
fn derived(alloc: Global, lemma: &Lemma) -> Result<(), MoveFault>
    requires hyps { IsTrue (list_all is_admissible_formula lemma.now.hyps) }
    requires goal { IsTrue (is_admissible_formula lemma.now.goal) }
    requires steps { IsTrue (all_admissible lemma.now.steps) }
    ensures { Gives refusal_of (λ _. tt) result (derived lemma.now.hyps lemma.now.goal lemma.now.steps) }
{
    let mut table = TermTable::new(alloc);
    let hyps = put_all(alloc, &mut table, lemma.hyps.as_slice())?;
    let goal = table.put_formula(&lemma.goal)?;
    match check_derivation(alloc, &mut table, &hyps, &goal, &lemma.steps)? {
        Checked::Yes => Ok(()),
        Checked::BadStep(step) => Err(MoveFault::NoMove(Reason::Derivation(step))),
    }
}

/// The tests of a lemma's parts, one after another.
fn lemma_passed(alloc: Global, lemma: &Lemma) -> Result<(), MoveFault>
    requires hyps { IsTrue (list_all well_formed_formula lemma.now.hyps) }
    requires goal { IsTrue (well_formed_formula lemma.now.goal) }
    requires steps { IsTrue (list_all well_formed_step lemma.now.steps) }
    ensures { Gives refusal_of (λ _. tt) result (lemma_passed lemma.now) }
{
    all_pass(lemma.vars, lemma.hyps.as_slice())?;
    passes(lemma.vars, &lemma.goal)?;
    steps_pass(lemma.vars, lemma.steps.as_slice())?;
    derived(alloc, lemma)
}

/// The test of a lemma: its formulas are taken, and then its steps derive its goal from its hypotheses.
pub fn lemma_tested(alloc: Global, lemma: &Lemma) -> Result<(), MoveFault>
    requires { IsTrue (well_formed_lemma lemma.now) }
    ensures { Gives refusal_of (λ _. tt) result (lemma_tested lemma.now) }
{
    lemma_passed(alloc, lemma)
}

/// The tests of lemmas, in their order.
pub fn lemmas_tested(alloc: Global, lemmas: &[Lemma]) -> Result<(), MoveFault>
    requires { IsTrue (list_all well_formed_lemma lemmas.now) }
    ensures { Gives refusal_of (λ _. tt) result (lemmas_tested lemmas.now) }
{
    for lemma in lemmas {
        match lemma_tested(alloc, lemma) {
            Ok(()) => {}
            Err(fault) => return Err(fault),
        }
    }
    Ok(())
}
