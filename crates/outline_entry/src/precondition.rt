// What a function knows at its entry: its precondition.

ghost use Rattle.std.specs.Prelude.{◌≡◌, ◌+◌, ◌^◌, ◌<◌, [], length, map, None, IfOk, IsTrue};
ghost use Rattle.std.specs.List.{All};
ghost use Rattle.std.specs.Option.{option_map};
ghost use Rattle.wasm_values.specs.Answers.{Gives};
ghost use Rattle.term_logic.specs.Table.{tree_at};
ghost use Rattle.notes.specs.WellFormed.{where_there, well_formed_assertion, well_formed_contract, well_formed_notes};
ghost use Rattle.outline_rules.specs.Settings.{contract_of, precondition_by};
ghost use Rattle.outline_rules.specs.Renewal.{variables_from, assumed};
ghost use Rattle.outline_rules.specs.Entry.{given_count, with_given, precondition_known};
ghost use Rattle.symbolic_state.specs.Refused.{refusal_of};
ghost use Rattle.outline_entry.specs.words.Parts.{precondition_assumed};

use notes::{Assertion, Contract};
use outline_setting::Setting;
use std::alloc::Global;
use symbolic_renewal::assume;
use symbolic_state::{Refused, TrackedState};
use term_logic::TermId;
use wasm_values::{List, OutOfMemory};

/// So many variables, from one on.
#[tactic(auto, using(crate::proofs::Numbered::numbered))]
fn variables_from(
    alloc: Global,
    state: &mut TrackedState,
    first: u32,
    count: u32,
) -> Result<List<TermId>, OutOfMemory>
    requires { first + count < 2 ^ 32 }
    ensures terms { IfOk result (λ ids. map (tree_at state.new.terms) ids ≡ variables_from first count) }
    ensures within { IfOk result (λ ids. All (λ id. id < length state.new.terms) ids) }
    ensures state { IfOk result (λ _. state.new.state ≡ state.old.state) }
{
    let mut ids = List::new(alloc);
    for k in 0..count {
        ids.push(state.variable(first + k)?)?;
    }
    Ok(ids)
}

/// How many own variables of a precondition the postcondition speaks of.
fn given_count(contract: Option<&Contract>) -> u32
    ensures { result ≡ given_count (option_map (λ c. c.now) contract.entry) }
{
    match contract {
        Some(contract) => contract.pre.own,
        None => 0,
    }
}

/// The own variables of a precondition, which begin at this variable, are those that the postcondition speaks of.
fn give(
    alloc: Global,
    state: &mut TrackedState,
    first: u32,
    contract: Option<&Contract>,
) -> Result<(), OutOfMemory>
    requires { first + given_count (option_map (λ c. c.now) contract) < 2 ^ 32 }
    ensures { IfOk result (λ _. state.new.state ≡ with_given first (option_map (λ c. c.now) contract.entry) state.old.state) }
{
    let ids = variables_from(alloc, state, first, given_count(contract))?;
    state.remember_given(ids);
    Ok(())
}

/// The contract of a function, where it has one.
#[tactic(auto, using(crate::proofs::Noted::contracts))]
fn contract_of<'a>(setting: &Setting<'a>, func: u32) -> Option<&'a Contract>
    requires { IsTrue (well_formed_notes setting.now.notes) }
    ensures contract { option_map (λ c. c.now) result ≡ contract_of setting.now func }
    ensures well_formed { IsTrue (where_there well_formed_contract (option_map (λ c. c.now) result)) }
{
    setting.contract_of(func)
}

/// The precondition that a contract gives, or the invariant without one.
#[tactic(auto, using(crate::proofs::Noted::assertions))]
fn precondition_by<'a>(setting: &Setting<'a>, contract: Option<&'a Contract>) -> &'a Assertion
    requires notes { IsTrue (well_formed_notes setting.now.notes) }
    requires contract { IsTrue (where_there well_formed_contract (option_map (λ c. c.now) contract)) }
    ensures assertion { result.now ≡ precondition_by setting.now (option_map (λ c. c.now) contract.entry) }
    ensures well_formed { IsTrue (well_formed_assertion result.now) }
{
    match contract {
        Some(contract) => &contract.pre,
        None => setting.invariant_of(),
    }
}

/// The terms of the parameters.
fn args_of(alloc: Global, state: &TrackedState) -> Result<List<TermId>, OutOfMemory>
    ensures args { IfOk result (λ ids. map (tree_at state.now.terms) ids ≡ state.now.state.args) }
    ensures within { IfOk result (λ ids. All (λ id. id < length state.now.terms) ids) }
{
    let mut ids = List::new(alloc);
    for id in state.args() {
        ids.push(*id)?;
    }
    Ok(ids)
}

/// An assertion is known for these terms of the parameters.
fn assume_for(
    state: &mut TrackedState,
    assertion: &Assertion,
    args: &List<TermId>,
) -> Result<(), Refused>
    requires assertion { IsTrue (well_formed_assertion assertion.now) }
    requires args { All (λ id. id < length state.old.terms) args.now }
    ensures { Gives refusal_of (λ _. state.new.state) result (assumed assertion.now [] (map (tree_at state.old.terms) args.now) None state.old.state) }
{
    assume(state, assertion, &[], args.as_slice(), None)
}

/// A precondition is known.
fn assume_precondition(
    alloc: Global,
    state: &mut TrackedState,
    setting: &Setting<'_>,
    contract: Option<&Contract>,
) -> Result<(), Refused>
    requires notes { IsTrue (well_formed_notes setting.now.notes) }
    requires contract { IsTrue (where_there well_formed_contract (option_map (λ c. c.now) contract)) }
    ensures { Gives refusal_of (λ _. state.new.state) result (precondition_assumed setting.now (option_map (λ c. c.now) contract.entry) state.old.state) }
{
    let args = args_of(alloc, state)?;
    let assertion = precondition_by(setting, contract);
    assume_for(state, assertion, &args)
}

/// The precondition that a contract gives is known, or the invariant without one.
fn know(
    alloc: Global,
    state: &mut TrackedState,
    setting: &Setting<'_>,
    contract: Option<&Contract>,
) -> Result<(), Refused>
    requires notes { IsTrue (well_formed_notes setting.now.notes) }
    requires contract { IsTrue (where_there well_formed_contract (option_map (λ c. c.now) contract)) }
    ensures { Gives refusal_of (λ _. state.new.state) result (precondition_known setting.now (option_map (λ c. c.now) contract.entry) state.old.state) }
{
    let first = state.variables();
    assume_precondition(alloc, state, setting, contract)?;
    give(alloc, state, first, contract)?;
    Ok(())
}

/// The precondition of a function is known.
pub(crate) fn know_precondition(
    alloc: Global,
    state: &mut TrackedState,
    setting: &Setting<'_>,
    func: u32,
) -> Result<(), Refused>
    requires { IsTrue (well_formed_notes setting.now.notes) }
    ensures { Gives refusal_of (λ _. state.new.state) result (precondition_known setting.now (contract_of setting.now func) state.old.state) }
{
    know(alloc, state, setting, contract_of(setting, func))
}
