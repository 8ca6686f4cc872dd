// Branches to labels by their numbers.

ghost use Rattle.std.specs.Prelude.{◌≡◌, slice_get, IfOk, IsTrue};
ghost use Rattle.std.specs.Option.{option_map};
ghost use Rattle.wasm_values.specs.Answers.{Gives};
ghost use Rattle.notes.specs.WellFormed.{well_formed_with};
ghost use Rattle.outline_rules.specs.Branches.{branches};
ghost use Rattle.symbolic_state.specs.Refused.{refusal_of};
ghost use Rattle.symbolic_state.specs.Growth.{Grown};
ghost use Rattle.symbolic_branches.specs.Labels.{label_of_entry, labels_of};
ghost use Rattle.symbolic_branches.specs.words.Parts.{branches_to};

use crate::labels::{Label, reaches};
use crate::leaving::leaves_function;
use notes::With;
use outline_setting::Setting;
use std::alloc::Global;
use symbolic_state::{Refused, TrackedState};

/// The label with a number, the innermost being the 0-th, which stands last.
fn label_at<'a, 'b>(labels: &'b [Label<'a>], k: u32) -> Option<&'b Label<'a>>
    ensures { option_map (λ l. label_of_entry l.now) result ≡ slice_get (labels_of labels.now) k }
{
    let k = k as usize;
    if k < labels.len() {
        Some(&labels[labels.len() - 1 - k])
    } else {
        None
    }
}

/// Control goes to a label, or leaves the function where there is none.
fn branches_to(
    alloc: Global,
    state: &mut TrackedState,
    setting: &Setting<'_>,
    func: u32,
    label: Option<&Label<'_>>,
    with: &With,
) -> Result<(), Refused>
    requires { IsTrue (well_formed_with with.now) }
    ensures done { Gives refusal_of (λ _. tt) result (branches_to setting.now func (option_map (λ l. label_of_entry l.now) label.entry) with.now state.old.state) }
    ensures state { IfOk result (λ _. state.new.state ≡ state.old.state) }
    ensures kept { IfOk result (λ _. Grown state.old state.new) }
{
    match label {
        Some(label) => reaches(alloc, state, label, with),
        None => leaves_function(alloc, state, setting, func, with),
    }
}

/// A branch to the label with a number; past all of them it leaves the function.
#[tactic(auto, using(crate::proofs::Labelled::branchings))]
pub fn branches(
    alloc: Global,
    state: &mut TrackedState,
    setting: &Setting<'_>,
    func: u32,
    labels: &[Label<'_>],
    k: u32,
    with: &With,
) -> Result<(), Refused>
    requires { IsTrue (well_formed_with with.now) }
    ensures done { Gives refusal_of (λ _. tt) result (branches setting.now func (labels_of labels.now) k with.now state.old.state) }
    ensures state { IfOk result (λ _. state.new.state ≡ state.old.state) }
    ensures kept { IfOk result (λ _. Grown state.old state.new) }
{
    let label = label_at(labels, k);
    branches_to(alloc, state, setting, func, label, with)
}
