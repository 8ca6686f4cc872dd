// The steps of derivations, once their leaves are replaced.

ghost use Rattle.std.specs.Prelude.{◌≡◌, IfOk, IsTrue};
ghost use Rattle.std.specs.List.{list_all};
ghost use Rattle.wasm_values.specs.Answers.{Gives};
ghost use Rattle.term_trees.specs.Formulas.{well_formed_formula};
ghost use Rattle.bitvector_rules.specs.declared.step.Step.{out-Step};
ghost use Rattle.bitvector_rules.specs.Steps.{is_admissible_formula, is_admissible, all_admissible};
ghost use Rattle.notes.specs.WellFormed.{well_formed_step};
ghost use Rattle.outline_rules.specs.Leaves.{leaves_with, taken_formula, steps_taken};
ghost use Rattle.symbolic_state.specs.words.Walks.{all_by};
ghost use Rattle.symbolic_moves.specs.words.Walks.{step_taken, subs_taken, parts_taken};
ghost use Rattle.symbolic_state.specs.Refused.{refusal_of};
ghost use Rattle.symbolic_state.specs.Growth.{Grown};

use bitvector_rules::Step;
use std::alloc::Global;
use symbolic_state::{Refused, TrackedState};
use term_logic::Formula;
use wasm_values::{List, OutOfMemory};

/// The formula of a step, with the leaves of the state and so many variables.
#[tactic(auto, using(crate::proofs::StepWalks::admissions))]
fn formula_taken(state: &mut TrackedState, variables: u32, f: &Formula) -> Result<Formula, Refused>
    requires { IsTrue (well_formed_formula f.now) }
    ensures taken { Gives refusal_of (λ g. g) result (taken_formula (leaves_with variables state.old.state) f.now) }
    ensures admissible { IfOk result (λ g. IsTrue (is_admissible_formula g)) }
    ensures state { IfOk result (λ _. state.new.state ≡ state.old.state) }
    ensures kept { IfOk result (λ _. Grown state.old state.new) }
{
    let taken = state.taken_formula_with(variables, f)?;
    Ok(state.table().formula_tree(&taken)?)
}

/// A list that equals these items.
fn copied<T: Copy>(alloc: Global, items: &[T]) -> Result<List<T>, OutOfMemory>
    ensures { IfOk result (λ l. l ≡ items.now) }
{
    match Vec::from_slice(alloc, items) {
        Ok(items) => Ok(List::from_vec(items)),
        Err(_) => Err(OutOfMemory),
    }
}

/// A step with this formula and these sub-derivations that is like another in all else.
fn step_over(
    alloc: Global,
    step: &Step,
    formula: Formula,
    subs: List<List<Step>>,
) -> Result<Step, OutOfMemory>
    ensures { IfOk result (λ s. out-Step s ≡ record (out-Step step.now) { formula = formula; subs = subs }) }
{
    let refs = copied(alloc, step.refs.as_slice())?;
    let numbers = copied(alloc, step.numbers.as_slice())?;
    Ok(Step {
        rule: step.rule,
        formula,
        refs,
        numbers,
        subs,
    })
}

/// The formula of a step, and then its sub-derivations, with the leaves of the state and so many variables.
#[cycle(taking)]
#[tactic(auto, using(symbolic_state::proofs::Grows::grown))]
fn parts_taken(
    alloc: Global,
    state: &mut TrackedState,
    variables: u32,
    step: &Step,
) -> Result<(Formula, List<List<Step>>), Refused>
    requires { IsTrue (well_formed_step step.now) }
    ensures taken { Gives refusal_of (λ p. p) result (parts_taken (leaves_with variables state.old.state) step.now) }
    ensures formula { IfOk result (λ p. IsTrue (is_admissible_formula p.0)) }
    ensures subs { IfOk result (λ p. IsTrue (list_all (list_all is_admissible) p.1)) }
    ensures state { IfOk result (λ _. state.new.state ≡ state.old.state) }
    ensures kept { IfOk result (λ _. Grown state.old state.new) }
{
    let formula = formula_taken(state, variables, &step.formula)?;
    let subs = subs_taken(alloc, state, variables, step.subs.as_slice())?;
    Ok((formula, subs))
}

/// A step, with the leaves of the state and so many variables.
#[cycle(taking)]
#[tactic(auto, using(crate::proofs::StepWalks::by_parts))]
fn step_taken(
    alloc: Global,
    state: &mut TrackedState,
    variables: u32,
    step: &Step,
) -> Result<Step, Refused>
    requires { IsTrue (well_formed_step step.now) }
    ensures taken { Gives refusal_of (λ s. s) result (step_taken (leaves_with variables state.old.state) step.now) }
    ensures admissible { IfOk result (λ s. IsTrue (is_admissible s)) }
    ensures state { IfOk result (λ _. state.new.state ≡ state.old.state) }
    ensures kept { IfOk result (λ _. Grown state.old state.new) }
{
    let (formula, subs) = parts_taken(alloc, state, variables, step)?;
    Ok(step_over(alloc, step, formula, subs)?)
}

/// Steps, one by one.
#[cycle(taking)]
#[tactic(auto, using(crate::proofs::StepWalks::taking))]
fn each_taken(
    alloc: Global,
    state: &mut TrackedState,
    variables: u32,
    steps: &[Step],
) -> Result<List<Step>, Refused>
    requires { IsTrue (list_all well_formed_step steps.now) }
    ensures taken { Gives refusal_of (λ ss. ss) result (all_by (step_taken (leaves_with variables state.old.state)) steps.now) }
    ensures admissible { IfOk result (λ ss. IsTrue (list_all is_admissible ss)) }
    ensures state { IfOk result (λ _. state.new.state ≡ state.old.state) }
    ensures kept { IfOk result (λ _. Grown state.old state.new) }
{
    let mut taken = List::new(alloc);
    for step in steps {
        taken.push(step_taken(alloc, state, variables, step)?)?;
    }
    Ok(taken)
}

/// Sub-derivations, one by one.
#[cycle(taking)]
#[tactic(auto, using(crate::proofs::StepWalks::taking))]
fn subs_taken(
    alloc: Global,
    state: &mut TrackedState,
    variables: u32,
    subs: &[List<Step>],
) -> Result<List<List<Step>>, Refused>
    requires { IsTrue (list_all (list_all well_formed_step) subs.now) }
    ensures taken { Gives refusal_of (λ ss. ss) result (subs_taken (leaves_with variables state.old.state) subs.now) }
    ensures admissible { IfOk result (λ ss. IsTrue (list_all (list_all is_admissible) ss)) }
    ensures state { IfOk result (λ _. state.new.state ≡ state.old.state) }
    ensures kept { IfOk result (λ _. Grown state.old state.new) }
{
    let mut taken = List::new(alloc);
    for steps in subs {
        taken.push(each_taken(alloc, state, variables, steps.as_slice())?)?;
    }
    Ok(taken)
}

/// The steps of a derivation, with the leaves of the state and so many variables: all their formulas are taken, in the order of
/// the text.
#[tactic(auto, using(crate::proofs::StepWalks::in_text_order))]
pub(crate) fn steps_taken(
    alloc: Global,
    state: &mut TrackedState,
    variables: u32,
    steps: &List<Step>,
) -> Result<List<Step>, Refused>
    requires { IsTrue (list_all well_formed_step steps.now) }
    ensures taken { Gives refusal_of (λ ss. ss) result (steps_taken (leaves_with variables state.old.state) steps.now) }
    ensures admissible { IfOk result (λ ss. IsTrue (all_admissible ss)) }
    ensures state { IfOk result (λ _. state.new.state ≡ state.old.state) }
    ensures kept { IfOk result (λ _. Grown state.old state.new) }
{
    each_taken(alloc, state, variables, steps.as_slice())
}
