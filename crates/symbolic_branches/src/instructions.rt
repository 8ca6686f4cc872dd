// The instructions of branches with one label, and `return`.

ghost use Rattle.std.specs.Prelude.{◌≡◌, ◌<◌, length, option_map, IfOk, IsTrue};
ghost use Rattle.wasm_values.specs.Answers.{Gives};
ghost use Rattle.term_logic.specs.Table.{tree_at};
ghost use Rattle.notes.specs.WellFormed.{well_formed_with, well_formed_take, well_formed_use, well_formed_notes};
ghost use Rattle.outline_rules.specs.States.{operand, popped, fact_added};
ghost use Rattle.outline_rules.specs.Branches.{branches, leaves_function, takes_branch, is_zero, is_not_zero, br, return_, br_if};
ghost use Rattle.symbolic_state.specs.Refused.{refusal_of};
ghost use Rattle.symbolic_state.specs.Growth.{Grown};
ghost use Rattle.symbolic_steps.specs.words.Withs.{with_or_empty};
ghost use Rattle.symbolic_branches.specs.Labels.{labels_of};
ghost use Rattle.symbolic_branches.specs.words.Parts.{branches_on};

use crate::branching::branches;
use crate::facts::{is_not_zero, is_number};
use crate::labels::Label;
use crate::leaving::leaves_function;
use crate::taking::takes_branch;
use notes::{Take, Use, With};
use outline_setting::Setting;
use std::alloc::Global;
use symbolic_state::{Refused, TrackedState};
use symbolic_steps::{empty_with, take_of, with_of};
use term_logic::TermId;
use wasm_values::OutOfMemory;

/// A branch by a `with` that may be missing.
fn branches_by(
    alloc: Global,
    state: &mut TrackedState,
    setting: &Setting<'_>,
    func: u32,
    labels: &[Label<'_>],
    k: u32,
    with: Option<&With>,
) -> Result<(), Refused>
    requires { IsTrue (well_formed_with (with_or_empty (option_map (λ w. w.now) with))) }
    ensures done { Gives refusal_of (λ _. tt) result (branches setting.now func (labels_of labels.now) k (with_or_empty (option_map (λ w. w.now) with.entry)) state.old.state) }
    ensures state { IfOk result (λ _. state.new.state ≡ state.old.state) }
    ensures kept { IfOk result (λ _. Grown state.old state.new) }
{
    match with {
        Some(with) => branches(alloc, state, setting, func, labels, k, with),
        None => {
            let with = empty_with(alloc);
            branches(alloc, state, setting, func, labels, k, &with)
        }
    }
}

/// `br`.
pub fn br(
    alloc: Global,
    state: &mut TrackedState,
    setting: &Setting<'_>,
    func: u32,
    labels: &[Label<'_>],
    k: u32,
    used: &Use,
) -> Result<(), Refused>
    requires { IsTrue (well_formed_use used.now) }
    ensures done { Gives refusal_of (λ _. tt) result (br setting.now func (labels_of labels.now) k used.now state.old.state) }
    ensures state { IfOk result (λ _. state.new.state ≡ state.old.state) }
    ensures kept { IfOk result (λ _. Grown state.old state.new) }
{
    let with = with_of(used)?;
    branches_by(alloc, state, setting, func, labels, k, with)
}

/// The function is left by a `with` that may be missing.
fn leaves_by(
    alloc: Global,
    state: &mut TrackedState,
    setting: &Setting<'_>,
    func: u32,
    with: Option<&With>,
) -> Result<(), Refused>
    requires { IsTrue (well_formed_with (with_or_empty (option_map (λ w. w.now) with))) }
    ensures done { Gives refusal_of (λ _. tt) result (leaves_function setting.now func (with_or_empty (option_map (λ w. w.now) with.entry)) state.old.state) }
    ensures state { IfOk result (λ _. state.new.state ≡ state.old.state) }
    ensures kept { IfOk result (λ _. Grown state.old state.new) }
{
    match with {
        Some(with) => leaves_function(alloc, state, setting, func, with),
        None => {
            let with = empty_with(alloc);
            leaves_function(alloc, state, setting, func, &with)
        }
    }
}

/// `return`.
pub fn return_(
    alloc: Global,
    state: &mut TrackedState,
    setting: &Setting<'_>,
    func: u32,
    used: &Use,
) -> Result<(), Refused>
    requires { IsTrue (well_formed_use used.now) }
    ensures done { Gives refusal_of (λ _. tt) result (return_ setting.now func used.now state.old.state) }
    ensures state { IfOk result (λ _. state.new.state ≡ state.old.state) }
    ensures kept { IfOk result (λ _. Grown state.old state.new) }
{
    let with = with_of(used)?;
    leaves_by(alloc, state, setting, func, with)
}

/// The top operand is taken off: its term.
pub(crate) fn pop_condition(state: &mut TrackedState) -> Result<TermId, OutOfMemory>
    ensures term { IfOk result (λ id. tree_at state.new.terms id ≡ operand state.old.state 0) }
    ensures within { IfOk result (λ id. id < length state.new.terms) }
    ensures state { IfOk result (λ _. state.new.state ≡ popped 1 state.old.state) }
    ensures kept { IfOk result (λ _. Grown state.old state.new) }
{
    let (_, id) = state.entry(0)?;
    state.pop(1);
    Ok(id)
}

/// The branch of a `br_if`: where a condition isn't 0.
#[tactic(auto, using(symbolic_state::proofs::Grows::grown, symbolic_state::proofs::Grows::grown_ids))]
fn takes_nonzero(
    alloc: Global,
    state: &mut TrackedState,
    setting: &Setting<'_>,
    func: u32,
    labels: &[Label<'_>],
    k: u32,
    condition: TermId,
    take: &Take,
) -> Result<(), Refused>
    requires notes { IsTrue (well_formed_notes setting.now.notes) }
    requires condition { condition < length state.old.terms }
    requires take { IsTrue (well_formed_take take.now) }
    ensures done { Gives refusal_of (λ _. tt) result (takes_branch setting.now func (labels_of labels.now) k (is_not_zero (tree_at state.old.terms condition)) take.now state.old.state) }
    ensures state { IfOk result (λ _. state.new.state ≡ state.old.state) }
    ensures kept { IfOk result (λ _. Grown state.old state.new) }
{
    let fact = is_not_zero(alloc, state, condition)?;
    takes_branch(alloc, state, setting, func, labels, k, fact, take)
}

/// That a condition is 0 is one more fact.
#[tactic(auto, using(symbolic_state::proofs::Grows::grown, symbolic_state::proofs::Grows::grown_ids))]
fn add_zero(state: &mut TrackedState, condition: TermId) -> Result<(), Refused>
    requires { condition < length state.old.terms }
    ensures done { Gives refusal_of (λ _. state.new.state) result (fact_added (is_zero (tree_at state.old.terms condition)) state.old.state) }
    ensures kept { IfOk result (λ _. Grown state.old state.new) }
{
    let fact = is_number(state, condition, 0)?;
    state.add_fact(fact)
}

/// What a `br_if` on a condition does, once it is taken off.
#[tactic(auto, using(symbolic_state::proofs::Grows::grown, symbolic_state::proofs::Grows::grown_ids))]
fn branches_on(
    alloc: Global,
    state: &mut TrackedState,
    setting: &Setting<'_>,
    func: u32,
    labels: &[Label<'_>],
    k: u32,
    condition: TermId,
    take: &Take,
) -> Result<(), Refused>
    requires notes { IsTrue (well_formed_notes setting.now.notes) }
    requires condition { condition < length state.old.terms }
    requires take { IsTrue (well_formed_take take.now) }
    ensures done { Gives refusal_of (λ _. state.new.state) result (branches_on setting.now func (labels_of labels.now) k (tree_at state.old.terms condition) take.now state.old.state) }
    ensures kept { IfOk result (λ _. Grown state.old state.new) }
{
    takes_nonzero(alloc, state, setting, func, labels, k, condition, take)?;
    add_zero(state, condition)
}

/// `br_if`: a take where the condition isn't 0; the code goes on where it is.
#[tactic(auto, using(symbolic_state::proofs::Grows::grown, symbolic_state::proofs::Grows::grown_ids))]
pub fn br_if(
    alloc: Global,
    state: &mut TrackedState,
    setting: &Setting<'_>,
    func: u32,
    labels: &[Label<'_>],
    k: u32,
    used: &Use,
) -> Result<(), Refused>
    requires notes { IsTrue (well_formed_notes setting.now.notes) }
    requires used { IsTrue (well_formed_use used.now) }
    ensures done { Gives refusal_of (λ _. state.new.state) result (br_if setting.now func (labels_of labels.now) k used.now state.old.state) }
    ensures kept { IfOk result (λ _. Grown state.old state.new) }
{
    let take = take_of(used)?;
    let condition = pop_condition(state)?;
    branches_on(alloc, state, setting, func, labels, k, condition, take)
}
