// Control that leaves the function.

ghost use Rattle.std.specs.Prelude.{◌≡◌, ◌<◌, [], length, map, IfOk, IfSome, IsTrue};
ghost use Rattle.std.specs.List.{All};
ghost use Rattle.std.specs.Option.{option_map};
ghost use Rattle.wasm_values.specs.Answers.{Gives};
ghost use Rattle.term_logic.specs.Table.{tree_at};
ghost use Rattle.notes.specs.WellFormed.{well_formed_with};
ghost use Rattle.outline_rules.specs.Settings.{func_type, result_type_of, invariant_of};
ghost use Rattle.outline_rules.specs.Branches.{leaves_function};
ghost use Rattle.symbolic_state.specs.Refused.{refusal_of};
ghost use Rattle.symbolic_state.specs.Growth.{Grown};
ghost use Rattle.symbolic_branches.specs.words.Parts.{entails_with, leaves_by};

use crate::entailing::entails_with;
use crate::labels::passed;
use notes::{Assertion, Contract, With};
use outline_setting::Setting;
use std::alloc::Global;
use symbolic_state::{Refused, TrackedState};
use term_logic::TermId;
use wasm_values::{List, OutOfMemory, ValType};

/// The type of a function's result, where there is one.
fn result_type(setting: &Setting<'_>, func: u32) -> Option<ValType>
    ensures { result ≡ result_type_of (func_type setting.now func) }
{
    setting.func_type(func).results.as_slice().get(0).copied()
}

/// A list that equals these terms.
fn copied(alloc: Global, ids: &[TermId]) -> Result<List<TermId>, OutOfMemory>
    ensures { IfOk result (λ l. l ≡ ids.now) }
{
    match Vec::from_slice(alloc, ids) {
        Ok(ids) => Ok(List::from_vec(ids)),
        Err(_) => Err(OutOfMemory),
    }
}

/// The terms of the parameters and of the precondition's own variables.
fn terms_of(
    alloc: Global,
    state: &TrackedState,
) -> Result<(List<TermId>, List<TermId>), OutOfMemory>
    ensures args { IfOk result (λ r. map (tree_at state.now.terms) r.0 ≡ state.now.state.args) }
    ensures given { IfOk result (λ r. map (tree_at state.now.terms) r.1 ≡ state.now.state.given) }
    ensures args_within { IfOk result (λ r. All (λ id. id < length state.now.terms) r.0) }
    ensures given_within { IfOk result (λ r. All (λ id. id < length state.now.terms) r.1) }
{
    let args = copied(alloc, state.args())?;
    let given = copied(alloc, state.given())?;
    Ok((args, given))
}

/// The state entails the postcondition of its function.
fn entails_post(
    alloc: Global,
    state: &mut TrackedState,
    post: &Assertion,
    passed_on: Option<TermId>,
    with: &With,
) -> Result<(), Refused>
    requires passed_on { IfSome passed_on (λ id. id < length state.old.terms) }
    requires with { IsTrue (well_formed_with with.now) }
    ensures done { Gives refusal_of (λ _. tt) result (entails_with post.now state.old.state.args (option_map (tree_at state.old.terms) passed_on) state.old.state.given with.now state.old.state) }
    ensures state { IfOk result (λ _. state.new.state ≡ state.old.state) }
    ensures kept { IfOk result (λ _. Grown state.old state.new) }
{
    let (args, given) = terms_of(alloc, state)?;
    entails_with(
        alloc,
        state,
        post,
        args.as_slice(),
        passed_on,
        given.as_slice(),
        with,
    )
}

/// The state entails what a contract says at the end, or the invariant without one.
fn leaves_by(
    alloc: Global,
    state: &mut TrackedState,
    setting: &Setting<'_>,
    contract: Option<&Contract>,
    passed_on: Option<TermId>,
    with: &With,
) -> Result<(), Refused>
    requires passed_on { IfSome passed_on (λ id. id < length state.old.terms) }
    requires with { IsTrue (well_formed_with with.now) }
    ensures done { Gives refusal_of (λ _. tt) result (leaves_by setting.now (option_map (λ k. k.now) contract.entry) (option_map (tree_at state.old.terms) passed_on) with.now state.old.state) }
    ensures state { IfOk result (λ _. state.new.state ≡ state.old.state) }
    ensures kept { IfOk result (λ _. Grown state.old state.new) }
{
    match contract {
        Some(contract) => entails_post(alloc, state, &contract.post, passed_on, with),
        None => entails_invariant(alloc, state, setting, passed_on, with),
    }
}

/// The state entails the invariant.
fn entails_invariant(
    alloc: Global,
    state: &mut TrackedState,
    setting: &Setting<'_>,
    passed_on: Option<TermId>,
    with: &With,
) -> Result<(), Refused>
    requires passed_on { IfSome passed_on (λ id. id < length state.old.terms) }
    requires with { IsTrue (well_formed_with with.now) }
    ensures done { Gives refusal_of (λ _. tt) result (entails_with (invariant_of setting.now) [] (option_map (tree_at state.old.terms) passed_on) [] with.now state.old.state) }
    ensures state { IfOk result (λ _. state.new.state ≡ state.old.state) }
    ensures kept { IfOk result (λ _. Grown state.old state.new) }
{
    entails_with(
        alloc,
        state,
        setting.invariant_of(),
        &[],
        passed_on,
        &[],
        with,
    )
}

/// The function is left: the state entails its postcondition, or the invariant where it has no contract.
#[tactic(auto, using(crate::proofs::Leavings::leavings, symbolic_state::proofs::Grows::grown, symbolic_state::proofs::Grows::grown_ids))]
pub fn leaves_function(
    alloc: Global,
    state: &mut TrackedState,
    setting: &Setting<'_>,
    func: u32,
    with: &With,
) -> Result<(), Refused>
    requires { IsTrue (well_formed_with with.now) }
    ensures done { Gives refusal_of (λ _. tt) result (leaves_function setting.now func with.now state.old.state) }
    ensures state { IfOk result (λ _. state.new.state ≡ state.old.state) }
    ensures kept { IfOk result (λ _. Grown state.old state.new) }
{
    let passed_on = passed(state, result_type(setting, func))?;
    leaves_by(
        alloc,
        state,
        setting,
        setting.contract_of(func),
        passed_on,
        with,
    )
}
