// Takes: a branch from a state with one fact more, on which moves are made.

ghost use Rattle.std.specs.Prelude.{◌≡◌, ◌≤◌, length, IfOk, IsTrue};
ghost use Rattle.wasm_values.specs.Answers.{Gives};
ghost use Rattle.term_logic.specs.Formulas.{formula_bound, formula_of};
ghost use Rattle.notes.specs.WellFormed.{well_formed_take, well_formed_notes};
ghost use Rattle.outline_rules.specs.Branches.{takes_branch};
ghost use Rattle.symbolic_state.specs.Refused.{refusal_of};
ghost use Rattle.symbolic_state.specs.Growth.{Grown};
ghost use Rattle.symbolic_branches.specs.Labels.{labels_of};
ghost use Rattle.symbolic_branches.specs.words.Parts.{branches_moved};

use crate::branching::branches;
use crate::labels::Label;
use notes::Take;
use outline_setting::Setting;
use std::alloc::Global;
use symbolic_moves::make_moves;
use symbolic_state::{Refused, TrackedState};
use term_logic::IdFormula;

/// The moves of a take are made, and then the branch is taken. The state isn't that before.
#[tactic(auto, using(crate::proofs::Takings::take_parts, symbolic_state::proofs::Grows::grown, symbolic_state::proofs::Grows::grown_ids))]
fn branches_moved(
    alloc: Global,
    state: &mut TrackedState,
    setting: &Setting<'_>,
    func: u32,
    labels: &[Label<'_>],
    k: u32,
    take: &Take,
) -> Result<(), Refused>
    requires notes { IsTrue (well_formed_notes setting.now.notes) }
    requires take { IsTrue (well_formed_take take.now) }
    ensures done { Gives refusal_of (λ _. tt) result (branches_moved setting.now func (labels_of labels.now) k take.now state.old.state) }
    ensures kept { IfOk result (λ _. Grown state.old state.new) }
{
    make_moves(alloc, state, setting, take.moves.as_slice())?;
    branches(alloc, state, setting, func, labels, k, &take.with)
}

/// A branch with a take, from the state with a fact. The state isn't that before.
#[tactic(auto, using(symbolic_state::proofs::Grows::grown, symbolic_state::proofs::Grows::grown_ids))]
fn branches_with(
    alloc: Global,
    state: &mut TrackedState,
    setting: &Setting<'_>,
    func: u32,
    labels: &[Label<'_>],
    k: u32,
    fact: IdFormula,
    take: &Take,
) -> Result<(), Refused>
    requires notes { IsTrue (well_formed_notes setting.now.notes) }
    requires fact { formula_bound fact ≤ length state.old.terms }
    requires take { IsTrue (well_formed_take take.now) }
    ensures done { Gives refusal_of (λ _. tt) result (takes_branch setting.now func (labels_of labels.now) k (formula_of state.old.terms fact) take.now state.old.state) }
    ensures kept { IfOk result (λ _. Grown state.old state.new) }
{
    state.add_fact(fact)?;
    branches_moved(alloc, state, setting, func, labels, k, take)
}

/// A branch with a take: on the state with a fact the moves are made, and then the branch is taken. The state stays as it was.
#[tactic(auto, using(crate::proofs::Takings::coming_back))]
pub fn takes_branch(
    alloc: Global,
    state: &mut TrackedState,
    setting: &Setting<'_>,
    func: u32,
    labels: &[Label<'_>],
    k: u32,
    fact: IdFormula,
    take: &Take,
) -> Result<(), Refused>
    requires notes { IsTrue (well_formed_notes setting.now.notes) }
    requires fact { formula_bound fact ≤ length state.old.terms }
    requires take { IsTrue (well_formed_take take.now) }
    ensures done { Gives refusal_of (λ _. tt) result (takes_branch setting.now func (labels_of labels.now) k (formula_of state.old.terms fact) take.now state.old.state) }
    ensures state { IfOk result (λ _. state.new.state ≡ state.old.state) }
    ensures kept { IfOk result (λ _. Grown state.old state.new) }
{
    let before = state.snapshot()?;
    branches_with(alloc, state, setting, func, labels, k, fact, take)?;
    state.restore(before);
    Ok(())
}
