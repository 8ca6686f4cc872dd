// Moves that are derived from the facts.

ghost use Rattle.std.specs.Prelude.{◌≡◌, ◌≤◌, length, IfOk, IsTrue};
ghost use Rattle.std.specs.List.{list_all};
ghost use Rattle.wasm_values.specs.Answers.{Gives};
ghost use Rattle.term_trees.specs.Formulas.{well_formed_formula};
ghost use Rattle.term_logic.specs.Formulas.{formula_bound, formula_of};
ghost use Rattle.bitvector_rules.specs.Steps.{all_admissible};
ghost use Rattle.notes.specs.WellFormed.{well_formed_step};
ghost use Rattle.outline_rules.specs.Leaves.{move_leaves, steps_taken};
ghost use Rattle.outline_rules.specs.Moves.{derived_by, derived, shown, have};
ghost use Rattle.symbolic_moves.specs.words.Parts.{derived_added, shown_by};
ghost use Rattle.symbolic_state.specs.Refused.{refusal_of};
ghost use Rattle.symbolic_state.specs.Growth.{Grown};

use crate::hole::hole;
use crate::steps::steps_taken;
use bitvector_rules::Step;
use derivation_check::Checked;
use notes::Reason;
use std::alloc::Global;
use symbolic_state::{Refused, TrackedState};
use term_logic::{Formula, IdFormula};
use wasm_values::List;

/// What the answer of a derivation's check comes to.
pub(crate) fn derived_by(checked: Checked) -> Result<(), Refused>
    ensures { Gives refusal_of (λ _. tt) result (derived_by checked) }
{
    match checked {
        Checked::Yes => Ok(()),
        Checked::BadStep(k) => Err(Refused::Reason(Reason::Derivation(k))),
    }
}

/// The steps have to derive the goal from the facts.
fn derived(state: &mut TrackedState, goal: &IdFormula, steps: &List<Step>) -> Result<(), Refused>
    requires goal { formula_bound goal.now ≤ length state.old.terms }
    requires steps { IsTrue (all_admissible steps.now) }
    ensures derived { Gives refusal_of (λ _. tt) result (derived state.old.state.facts (formula_of state.old.terms goal.now) steps.now) }
    ensures state { IfOk result (λ _. state.new.state ≡ state.old.state) }
    ensures kept { IfOk result (λ _. Grown state.old state.new) }
{
    let checked = state.check(goal, steps)?;
    derived_by(checked)
}

/// A goal that the steps derive is one more fact.
#[tactic(auto, using(symbolic_state::proofs::Grows::grown, symbolic_state::proofs::Grows::grown_ids))]
fn add_derived(state: &mut TrackedState, goal: IdFormula, steps: &List<Step>) -> Result<(), Refused>
    requires goal { formula_bound goal ≤ length state.old.terms }
    requires steps { IsTrue (all_admissible steps.now) }
    ensures done { Gives refusal_of (λ _. state.new.state) result (derived_added (formula_of state.old.terms goal) steps.now state.old.state) }
    ensures kept { IfOk result (λ _. Grown state.old state.new) }
{
    derived(state, &goal, steps)?;
    state.add_fact(goal)
}

/// The steps of a move.
fn move_steps(
    alloc: Global,
    state: &mut TrackedState,
    steps: &List<Step>,
) -> Result<List<Step>, Refused>
    requires { IsTrue (list_all well_formed_step steps.now) }
    ensures taken { Gives refusal_of (λ ss. ss) result (steps_taken (move_leaves state.old.state) steps.now) }
    ensures admissible { IfOk result (λ ss. IsTrue (all_admissible ss)) }
    ensures state { IfOk result (λ _. state.new.state ≡ state.old.state) }
    ensures kept { IfOk result (λ _. Grown state.old state.new) }
{
    let variables = state.variables();
    steps_taken(alloc, state, variables, steps)
}

/// A goal with steps, which are taken once the goal is.
#[tactic(auto, using(symbolic_state::proofs::Grows::grown, symbolic_state::proofs::Grows::grown_ids))]
fn shown_by(
    alloc: Global,
    state: &mut TrackedState,
    goal: IdFormula,
    steps: &List<Step>,
) -> Result<(), Refused>
    requires goal { formula_bound goal ≤ length state.old.terms }
    requires steps { IsTrue (list_all well_formed_step steps.now) }
    ensures done { Gives refusal_of (λ _. state.new.state) result (shown_by (formula_of state.old.terms goal) steps.now state.old.state) }
    ensures kept { IfOk result (λ _. Grown state.old state.new) }
{
    let steps = move_steps(alloc, state, steps)?;
    add_derived(state, goal, &steps)
}

/// A goal with its steps. Without steps it is a hole.
fn shown(
    alloc: Global,
    state: &mut TrackedState,
    goal: IdFormula,
    steps: &List<Step>,
) -> Result<(), Refused>
    requires goal { formula_bound goal ≤ length state.old.terms }
    requires steps { IsTrue (list_all well_formed_step steps.now) }
    ensures done { Gives refusal_of (λ _. state.new.state) result (shown (formula_of state.old.terms goal) steps.now state.old.state) }
    ensures kept { IfOk result (λ _. Grown state.old state.new) }
{
    match steps.as_slice() {
        [] => Err(hole(state, &goal)),
        _ => shown_by(alloc, state, goal, steps),
    }
}

/// `have`: a formula that the steps derive from the facts is one more fact.
pub fn have(
    alloc: Global,
    state: &mut TrackedState,
    f: &Formula,
    steps: &List<Step>,
) -> Result<(), Refused>
    requires formula { IsTrue (well_formed_formula f.now) }
    requires steps { IsTrue (list_all well_formed_step steps.now) }
    ensures done { Gives refusal_of (λ _. state.new.state) result (have f.now steps.now state.old.state) }
    ensures kept { IfOk result (λ _. Grown state.old state.new) }
{
    let goal = state.taken_formula(f)?;
    shown(alloc, state, goal, steps)
}
