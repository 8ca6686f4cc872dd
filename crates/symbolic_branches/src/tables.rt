// `br_table`: a take for each label.

ghost use Rattle.std.specs.Prelude.{◌≡◌, ◌+◌, ◌<◌, length, IfOk, IsTrue};
ghost use Rattle.std.specs.List.{list_all};
ghost use Rattle.wasm_values.specs.Answers.{Gives};
ghost use Rattle.term_trees.specs.declared.term.Formula.TheVariants as formula;
ghost use Rattle.term_logic.specs.Table.{tree_at};
ghost use Rattle.notes.specs.WellFormed.{well_formed_take, well_formed_use, well_formed_notes};
ghost use Rattle.outline_rules.specs.States.{number};
ghost use Rattle.outline_rules.specs.Branches.{takes_branch, table_branches, takes_branches, takes_table, br_table};
ghost use Rattle.symbolic_state.specs.Refused.{refusal_of};
ghost use Rattle.symbolic_state.specs.Growth.{Grown};
ghost use Rattle.symbolic_branches.specs.Labels.{labels_of};

use crate::facts::{is_from, is_number};
use crate::instructions::pop_condition;
use crate::labels::Label;
use crate::taking::takes_branch;
use notes::{Reason, Take, Use};
use outline_setting::Setting;
use std::alloc::Global;
use symbolic_state::{Refused, TrackedState};
use symbolic_steps::table_of;
use term_logic::TermId;

/// The branch of a table to a label: where a condition is the label's place.
#[tactic(auto, using(symbolic_state::proofs::Grows::grown, symbolic_state::proofs::Grows::grown_ids))]
fn takes_at(
    alloc: Global,
    state: &mut TrackedState,
    setting: &Setting<'_>,
    func: u32,
    labels: &[Label<'_>],
    k: u32,
    condition: TermId,
    place: u64,
    take: &Take,
) -> Result<(), Refused>
    requires notes { IsTrue (well_formed_notes setting.now.notes) }
    requires condition { condition < length state.old.terms }
    requires take { IsTrue (well_formed_take take.now) }
    ensures done { Gives refusal_of (λ _. tt) result (takes_branch setting.now func (labels_of labels.now) k (formula.Eq (tree_at state.old.terms condition) (number place)) take.now state.old.state) }
    ensures state { IfOk result (λ _. state.new.state ≡ state.old.state) }
    ensures kept { IfOk result (λ _. Grown state.old state.new) }
{
    let fact = is_number(state, condition, place)?;
    takes_branch(alloc, state, setting, func, labels, k, fact, take)
}

/// The branch of a table to its last label: where a condition is at least a number.
#[tactic(auto, using(symbolic_state::proofs::Grows::grown, symbolic_state::proofs::Grows::grown_ids))]
fn takes_from(
    alloc: Global,
    state: &mut TrackedState,
    setting: &Setting<'_>,
    func: u32,
    labels: &[Label<'_>],
    k: u32,
    condition: TermId,
    count: u64,
    take: &Take,
) -> Result<(), Refused>
    requires notes { IsTrue (well_formed_notes setting.now.notes) }
    requires condition { condition < length state.old.terms }
    requires take { IsTrue (well_formed_take take.now) }
    ensures done { Gives refusal_of (λ _. tt) result (takes_branch setting.now func (labels_of labels.now) k (formula.Le (number count) (tree_at state.old.terms condition)) take.now state.old.state) }
    ensures state { IfOk result (λ _. state.new.state ≡ state.old.state) }
    ensures kept { IfOk result (λ _. Grown state.old state.new) }
{
    let fact = is_from(state, condition, count)?;
    takes_branch(alloc, state, setting, func, labels, k, fact, take)
}

/// The branches of a table by as many takes, one by one.
fn takes_branches(
    alloc: Global,
    state: &mut TrackedState,
    setting: &Setting<'_>,
    func: u32,
    labels: &[Label<'_>],
    ks: &[u32],
    last: u32,
    condition: TermId,
    takes: &[Take],
) -> Result<(), Refused>
    requires notes { IsTrue (well_formed_notes setting.now.notes) }
    requires condition { condition < length state.old.terms }
    requires takes { IsTrue (list_all well_formed_take takes.now) }
    requires count { length takes.now ≡ length ks.now + 1 }
    ensures done { Gives refusal_of (λ _. tt) result (takes_branches setting.now func (labels_of labels.now) (table_branches 0 ks.now last (tree_at state.old.terms condition)) takes.now state.old.state) }
    ensures state { IfOk result (λ _. state.new.state ≡ state.old.state) }
    ensures kept { IfOk result (λ _. Grown state.old state.new) }
{
    let count = ks.len();
    for i in 0..count {
        let k = ks[i];
        match takes_at(
            alloc, state, setting, func, labels, k, condition, i as u64, &takes[i],
        ) {
            Ok(()) => {}
            Err(why) => return Err(why),
        }
    }
    takes_from(
        alloc,
        state,
        setting,
        func,
        labels,
        last,
        condition,
        count as u64,
        &takes[count],
    )
}

/// The branches of a table by takes. Another number of takes is refused.
#[tactic(auto, using(crate::proofs::Tabling::tables))]
fn takes_table(
    alloc: Global,
    state: &mut TrackedState,
    setting: &Setting<'_>,
    func: u32,
    labels: &[Label<'_>],
    ks: &[u32],
    last: u32,
    condition: TermId,
    takes: &[Take],
) -> Result<(), Refused>
    requires notes { IsTrue (well_formed_notes setting.now.notes) }
    requires condition { condition < length state.old.terms }
    requires takes { IsTrue (list_all well_formed_take takes.now) }
    ensures done { Gives refusal_of (λ _. tt) result (takes_table setting.now func (labels_of labels.now) (table_branches 0 ks.now last (tree_at state.old.terms condition)) takes.now state.old.state) }
    ensures state { IfOk result (λ _. state.new.state ≡ state.old.state) }
    ensures kept { IfOk result (λ _. Grown state.old state.new) }
{
    if takes.len() != ks.len() + 1 {
        return Err(Refused::Reason(Reason::Use));
    }
    takes_branches(
        alloc, state, setting, func, labels, ks, last, condition, takes,
    )
}

/// `br_table`: a take for each label where the condition is its place, and one for the last for all further numbers.
#[tactic(auto, using(symbolic_state::proofs::Grows::grown, symbolic_state::proofs::Grows::grown_ids))]
pub fn br_table(
    alloc: Global,
    state: &mut TrackedState,
    setting: &Setting<'_>,
    func: u32,
    labels: &[Label<'_>],
    ks: &[u32],
    last: u32,
    used: &Use,
) -> Result<(), Refused>
    requires notes { IsTrue (well_formed_notes setting.now.notes) }
    requires used { IsTrue (well_formed_use used.now) }
    ensures done { Gives refusal_of (λ _. tt) result (br_table setting.now func (labels_of labels.now) ks.now last used.now state.old.state) }
    ensures kept { IfOk result (λ _. Grown state.old state.new) }
{
    let takes = table_of(used)?;
    let condition = pop_condition(state)?;
    takes_table(
        alloc, state, setting, func, labels, ks, last, condition, takes,
    )
}
