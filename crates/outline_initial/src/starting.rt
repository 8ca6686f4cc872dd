// What the initial state entails, without an inner start function and with one.

ghost use Rattle.std.specs.Prelude.{◌≡◌, ◌<◌, [], length, map, None, IfOk, IsTrue, Ok};
ghost use Rattle.std.specs.List.{All};
ghost use Rattle.std.specs.Option.{option_map};
ghost use Rattle.wasm_values.specs.Answers.{Gives};
ghost use Rattle.term_logic.specs.Table.{tree_at};
ghost use Rattle.notes.specs.WellFormed.{where_there, well_formed_assertion, well_formed_with, well_formed_take, well_formed_contract, well_formed_initial, well_formed_notes};
ghost use Rattle.outline_rules.specs.Settings.{func_type, contract_of};
ghost use Rattle.outline_rules.specs.Entailment.{chunks_besides};
ghost use Rattle.outline_rules.specs.Calls.{comes_back};
ghost use Rattle.outline_rules.specs.Initial.{settled_after, start_inner, start_none, start_by, started};
ghost use Rattle.symbolic_state.specs.Refused.{refusal_of};
ghost use Rattle.symbolic_state.specs.Growth.{Grown};
ghost use Rattle.symbolic_calls.specs.words.Parts.{left_by};
ghost use Rattle.outline_initial.specs.words.Parts.{entailed_plainly, terms_entailed, after_wanted, no_after, resumed, resumed_with};

use notes::{Assertion, Contract, Initial, Reason, Take, With};
use outline_setting::Setting;
use std::alloc::Global;
use symbolic_assertions::{Wanted, entail, entails};
use symbolic_calls::come_back;
use symbolic_moves::make_moves;
use symbolic_state::{Refused, TrackedState};
use term_logic::TermId;
use wasm_values::List;

/// The state has to entail an assertion alone.
fn entails_plainly(
    alloc: Global,
    state: &mut TrackedState,
    assertion: &Assertion,
    with: &With,
) -> Result<(), Refused>
    requires { IsTrue (well_formed_with with.now) }
    ensures { Gives refusal_of (λ _. tt) result (entailed_plainly assertion.now with.now state.old.state) }
{
    let wanted = Wanted {
        assertion,
        args: &[],
        result: None,
        fixed: &[],
    };
    entails(alloc, state, &wanted, with)
}

/// The terms for which the state entails an assertion alone.
fn entail_plainly(
    alloc: Global,
    state: &mut TrackedState,
    assertion: &Assertion,
    with: &With,
) -> Result<List<TermId>, Refused>
    requires { IsTrue (well_formed_with with.now) }
    ensures done { Gives refusal_of (λ ids. record { terms = map (tree_at state.new.terms) ids; left = chunks_besides with.now.chunks 0 state.old.state.chunks }) result (terms_entailed assertion.now with.now state.old.state) }
    ensures within { IfOk result (λ ids. All (λ id. id < length state.new.terms) ids) }
    ensures state { IfOk result (λ _. state.new.state ≡ state.old.state) }
    ensures kept { IfOk result (λ _. Grown state.old state.new) }
{
    let wanted = Wanted {
        assertion,
        args: &[],
        result: None,
        fixed: &[],
    };
    entail(alloc, state, &wanted, with)
}

/// The invariant is entailed after an inner start function: its moves and its `with`.
fn settle_after(
    alloc: Global,
    state: &mut TrackedState,
    setting: &Setting<'_>,
    after: &Take,
) -> Result<(), Refused>
    requires notes { IsTrue (well_formed_notes setting.now.notes) }
    requires after { IsTrue (well_formed_take after.now) }
    ensures { Gives refusal_of (λ _. tt) result (settled_after setting.now after.now state.old.state) }
{
    make_moves(alloc, state, setting, after.moves.as_slice())?;
    entails_plainly(alloc, state, setting.invariant_of(), &after.with)
}

/// The part `after`, which an inner start function wants.
fn after_wanted(initial: &Initial) -> Result<&Take, Refused>
    requires { IsTrue (well_formed_initial initial.now) }
    ensures after { Gives refusal_of (λ t. t.now) result (after_wanted initial.now) }
    ensures well_formed { IfOk result (λ t. IsTrue (well_formed_take t.now)) }
{
    match &initial.after {
        Some(after) => Ok(after),
        None => Err(Refused::Reason(Reason::Use)),
    }
}

/// Without an inner start function there is no part `after`.
fn no_after(initial: &Initial) -> Result<(), Refused>
    ensures { Gives refusal_of (λ _. tt) result (no_after initial.now) }
{
    match &initial.after {
        Some(_) => Err(Refused::Reason(Reason::Use)),
        None => Ok(()),
    }
}

/// What comes back from a start function with this contract, whose precondition was entailed with these terms and chunks.
fn come_back_from(
    state: &mut TrackedState,
    setting: &Setting<'_>,
    func: u32,
    contract: &Contract,
    with: &With,
    terms: &List<TermId>,
) -> Result<(), Refused>
    requires contract { IsTrue (well_formed_contract contract.now) }
    requires terms { All (λ id. id < length state.old.terms) terms.now }
    ensures { Gives refusal_of (λ _. state.new.state) result (comes_back setting.now contract.now (func_type setting.now func) [] state.old.state (left_by (map (tree_at state.old.terms) terms.now) with.now.chunks state.old.state)) }
{
    let ty = setting.func_type(func);
    come_back(
        state,
        setting,
        contract,
        ty,
        &[],
        terms.as_slice(),
        with.chunks.as_slice(),
    )
}

/// The start function comes back, and its `after` leads to the invariant.
fn resume_with(
    alloc: Global,
    state: &mut TrackedState,
    setting: &Setting<'_>,
    func: u32,
    contract: &Contract,
    with: &With,
    terms: &List<TermId>,
    after: &Take,
) -> Result<(), Refused>
    requires notes { IsTrue (well_formed_notes setting.now.notes) }
    requires contract { IsTrue (well_formed_contract contract.now) }
    requires terms { All (λ id. id < length state.old.terms) terms.now }
    requires after { IsTrue (well_formed_take after.now) }
    ensures { Gives refusal_of (λ _. tt) result (resumed_with setting.now func contract.now after.now state.old.state (left_by (map (tree_at state.old.terms) terms.now) with.now.chunks state.old.state)) }
{
    come_back_from(state, setting, func, contract, with, terms)?;
    settle_after(alloc, state, setting, after)
}

/// What is wanted once the precondition of a start function was entailed for these terms.
fn resume(
    alloc: Global,
    state: &mut TrackedState,
    setting: &Setting<'_>,
    func: u32,
    contract: &Contract,
    initial: &Initial,
    terms: &List<TermId>,
) -> Result<(), Refused>
    requires notes { IsTrue (well_formed_notes setting.now.notes) }
    requires contract { IsTrue (well_formed_contract contract.now) }
    requires initial { IsTrue (well_formed_initial initial.now) }
    requires terms { All (λ id. id < length state.old.terms) terms.now }
    ensures { Gives refusal_of (λ _. tt) result (resumed setting.now func contract.now initial.now state.old.state (left_by (map (tree_at state.old.terms) terms.now) initial.now.with.chunks state.old.state)) }
{
    let after = after_wanted(initial)?;
    let with = &initial.with;
    resume_with(alloc, state, setting, func, contract, with, terms, after)
}

/// A start function with this contract: its precondition is entailed, and `after` tells of its return.
fn start_inner(
    alloc: Global,
    state: &mut TrackedState,
    setting: &Setting<'_>,
    func: u32,
    contract: &Contract,
    initial: &Initial,
) -> Result<(), Refused>
    requires notes { IsTrue (well_formed_notes setting.now.notes) }
    requires contract { IsTrue (well_formed_contract contract.now) }
    requires initial { IsTrue (well_formed_initial initial.now) }
    ensures { Gives refusal_of (λ _. tt) result (start_inner setting.now func contract.now initial.now state.old.state) }
{
    let terms = entail_plainly(alloc, state, &contract.pre, &initial.with)?;
    resume(alloc, state, setting, func, contract, initial, &terms)
}

/// No inner start function: the invariant is entailed, and there is no `after`.
fn start_none(
    alloc: Global,
    state: &mut TrackedState,
    setting: &Setting<'_>,
    initial: &Initial,
) -> Result<(), Refused>
    requires { IsTrue (well_formed_initial initial.now) }
    ensures { Gives refusal_of (λ _. tt) result (start_none setting.now initial.now state.old.state) }
{
    entails_plainly(alloc, state, setting.invariant_of(), &initial.with)?;
    no_after(initial)
}

/// The contract of a function, where it has one.
#[tactic(auto, using(outline_entry::proofs::Noted::contracts))]
fn contract_of<'a>(setting: &Setting<'a>, func: u32) -> Option<&'a Contract>
    requires { IsTrue (well_formed_notes setting.now.notes) }
    ensures contract { option_map (λ c. c.now) result ≡ contract_of setting.now func }
    ensures well_formed { IsTrue (where_there well_formed_contract (option_map (λ c. c.now) result)) }
{
    setting.contract_of(func)
}

/// The start by the contract of the start function, where it has one.
fn start_by(
    alloc: Global,
    state: &mut TrackedState,
    setting: &Setting<'_>,
    func: u32,
    initial: &Initial,
) -> Result<(), Refused>
    requires notes { IsTrue (well_formed_notes setting.now.notes) }
    requires initial { IsTrue (well_formed_initial initial.now) }
    ensures { Gives refusal_of (λ _. tt) result (start_by setting.now func (contract_of setting.now func) initial.now state.old.state) }
{
    match contract_of(setting, func) {
        Some(contract) => start_inner(alloc, state, setting, func, contract, initial),
        None => start_none(alloc, state, setting, initial),
    }
}

/// The start, by the start function, where there is one.
pub(crate) fn started(
    alloc: Global,
    state: &mut TrackedState,
    setting: &Setting<'_>,
    initial: &Initial,
) -> Result<(), Refused>
    requires notes { IsTrue (well_formed_notes setting.now.notes) }
    requires initial { IsTrue (well_formed_initial initial.now) }
    ensures { Gives refusal_of (λ _. tt) result (started setting.now setting.now.code.start initial.now state.old.state) }
{
    match setting.module().start {
        Some(func) => start_by(alloc, state, setting, func, initial),
        None => start_none(alloc, state, setting, initial),
    }
}
