// Renewal: globals, the page count and a result are variables again, and an assertion is known.

ghost use Rattle.std.specs.Prelude.{◌≡◌, ◌<◌, length, true, map, option_map, IfOk, IfSome, IsTrue};
ghost use Rattle.wasm_values.specs.Answers.{Gives};
ghost use Rattle.term_logic.specs.Table.{tree_at};
ghost use Rattle.notes.specs.WellFormed.{well_formed_assertion};
ghost use Rattle.outline_rules.specs.Renewal.{globals_renewed, pages_renewed, pages_added_to, result_renewed, renewed};
ghost use Rattle.symbolic_state.specs.Refused.{refusal_of};
ghost use Rattle.symbolic_state.specs.Growth.{Grown};
ghost use Rattle.symbolic_renewal.specs.Renewings.{renewing_of, RenewingWithin};
ghost use Rattle.symbolic_renewal.specs.words.Parts.{places_renewed, slots_renewed};

use crate::assuming::assume;
use notes::Assertion;
use symbolic_state::{Refused, TrackedState};
use term_logic::TermId;
use wasm_values::ValType;

/// What a renewal goes by: the globals that take part, whether the page count does, the type of the result, and the terms of the
/// first own variables and of `(arg i)`.
#[derive(Clone, Copy)]
pub struct Renewing<'a> {
    pub globals: &'a [(usize, ValType)],
    pub pages: bool,
    pub result: Option<ValType>,
    pub fixed: &'a [TermId],
    pub args: &'a [TermId],
}

/// These globals are typed variables again.
#[tactic(auto, using(crate::proofs::Renewals::globals))]
fn renew_globals(state: &mut TrackedState, globals: &[(usize, ValType)]) -> Result<(), Refused>
    ensures done { Gives refusal_of (λ _. state.new.state) result (globals_renewed (λ k. true) globals.now state.old.state) }
    ensures kept { IfOk result (λ _. Grown state.old state.new) }
{
    for global in globals {
        state.renew_global(global.0, global.1)?;
    }
    Ok(())
}

/// The page count is added, where there is one.
#[tactic(auto, using(crate::proofs::Renewals::same))]
fn add_pages(state: &mut TrackedState) -> Result<(), Refused>
    ensures done { Gives refusal_of (λ _. state.new.state) result (pages_added_to state.old.state.pages state.old.state) }
    ensures kept { IfOk result (λ _. Grown state.old state.new) }
{
    match state.pages() {
        Some(before) => {
            state.add_pages(before)?;
            Ok(())
        }
        None => Ok(()),
    }
}

/// The page count is added, where it takes part.
#[tactic(auto, using(crate::proofs::Renewals::same))]
fn renew_pages(state: &mut TrackedState, takes_part: bool) -> Result<(), Refused>
    ensures done { Gives refusal_of (λ _. state.new.state) result (pages_renewed takes_part state.old.state) }
    ensures kept { IfOk result (λ _. Grown state.old state.new) }
{
    if takes_part { add_pages(state) } else { Ok(()) }
}

/// Globals, and the page count where it takes part.
#[tactic(auto, using(symbolic_state::proofs::Grows::grown))]
fn renew_places(
    state: &mut TrackedState,
    globals: &[(usize, ValType)],
    pages: bool,
) -> Result<(), Refused>
    ensures done { Gives refusal_of (λ _. state.new.state) result (places_renewed globals.now pages state.old.state) }
    ensures kept { IfOk result (λ _. Grown state.old state.new) }
{
    renew_globals(state, globals)?;
    renew_pages(state, pages)
}

/// The result is a typed variable on top, where there is one.
#[tactic(auto, using(crate::proofs::Renewals::same))]
fn renew_result(state: &mut TrackedState, ty: Option<ValType>) -> Result<Option<TermId>, Refused>
    ensures done { Gives refusal_of (λ id. (option_map (tree_at state.new.terms) id, state.new.state)) result (result_renewed ty state.old.state) }
    ensures within { IfOk result (λ id. IfSome id (λ i. i < length state.new.terms)) }
    ensures kept { IfOk result (λ _. Grown state.old state.new) }
{
    match ty {
        Some(ty) => Ok(Some(state.push_typed(ty)?)),
        None => Ok(None),
    }
}

/// All that is renewed before the assertion is known.
#[tactic(auto, using(symbolic_state::proofs::Grows::grown))]
fn renew_slots(
    state: &mut TrackedState,
    globals: &[(usize, ValType)],
    pages: bool,
    ty: Option<ValType>,
) -> Result<Option<TermId>, Refused>
    ensures done { Gives refusal_of (λ id. (option_map (tree_at state.new.terms) id, state.new.state)) result (slots_renewed globals.now pages ty state.old.state) }
    ensures within { IfOk result (λ id. IfSome id (λ i. i < length state.new.terms)) }
    ensures kept { IfOk result (λ _. Grown state.old state.new) }
{
    renew_places(state, globals, pages)?;
    renew_result(state, ty)
}

/// A typed variable for each global, the page count, a typed variable for the result, fresh own variables, and the assertion is
/// known.
#[tactic(auto, using(symbolic_state::proofs::Grows::grown, symbolic_state::proofs::Grows::grown_ids))]
pub fn renew(
    state: &mut TrackedState,
    renewing: &Renewing<'_>,
    assertion: &Assertion,
) -> Result<(), Refused>
    requires assertion { IsTrue (well_formed_assertion assertion.now) }
    requires within { RenewingWithin (length state.old.terms) renewing.now }
    ensures done { Gives refusal_of (λ _. state.new.state) result (renewed (renewing_of state.old.terms renewing.now) assertion.now state.old.state) }
    ensures kept { IfOk result (λ _. Grown state.old state.new) }
{
    let answer = renew_slots(state, renewing.globals, renewing.pages, renewing.result)?;
    assume(state, assertion, renewing.fixed, renewing.args, answer)
}
