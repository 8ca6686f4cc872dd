// Moves on slots: the locals, the operands, the stable globals and the page count of a private memory.

ghost use Rattle.std.specs.Prelude.{◌≡◌, ◌<◌, length, IfOk, IfSome, IsTrue};
ghost use Rattle.std.specs.Option.{option_map};
ghost use Rattle.wasm_values.specs.Answers.{Gives};
ghost use Rattle.term_trees.specs.Terms.{well_formed};
ghost use Rattle.term_logic.specs.Table.{tree_at};
ghost use Rattle.outline_rules.specs.States.{greatest_of};
ghost use Rattle.outline_rules.specs.Moves.{slot_at, name, let_, put};
ghost use Rattle.symbolic_moves.specs.words.Parts.{slot_wanted, put_taken};
ghost use Rattle.symbolic_state.specs.Refused.{refusal_of};
ghost use Rattle.symbolic_state.specs.Growth.{Grown};

use crate::facts::equal_wanted;
use notes::Reason;
use outline_setting::Setting;
use symbolic_state::{Refused, TrackedState};
use term_logic::{Place, Term, TermId};
use wasm_values::ValType;

/// The greatest value of a type.
fn greatest_of(ty: ValType) -> u64
    ensures { result ≡ greatest_of ty }
{
    match ty {
        ValType::I32 => 4_294_967_295,
        ValType::I64 => 18_446_744_073_709_551_615,
    }
}

/// The slot that an entry with a type is.
fn typed_slot(entry: Option<(ValType, TermId)>) -> Option<(u64, TermId)>
    ensures { result ≡ option_map (λ e. (greatest_of e.0, e.1)) entry }
{
    match entry {
        Some((ty, id)) => Some((greatest_of(ty), id)),
        None => None,
    }
}

/// The slot that a term is, where there is one.
fn slot_of(greatest: u64, id: Option<TermId>) -> Option<(u64, TermId)>
    ensures { result ≡ option_map (λ i. (greatest, i)) id }
{
    match id {
        Some(id) => Some((greatest, id)),
        None => None,
    }
}

/// The slot at a place, if there is one: the greatest value that it can have, and its term.
pub(crate) fn slot_at(
    setting: &Setting<'_>,
    state: &TrackedState,
    place: Place,
) -> Option<(u64, TermId)>
    ensures slot { option_map (λ e. (e.0, tree_at state.now.terms e.1)) result ≡ slot_at setting.now state.now.state place }
    ensures within { IfSome result (λ e. e.1 < length state.now.terms) }
{
    match place {
        Place::Local(k) => typed_slot(state.local(k)),
        Place::Stack(k) => typed_slot(state.operand(k)),
        Place::Global(k) => slot_of(greatest_of(setting.global_type(k)), state.global(k)),
        Place::Pages => slot_of(65_536, state.pages()),
        _ => None,
    }
}

/// The slot at a place that a move names.
fn slot_wanted(
    setting: &Setting<'_>,
    state: &TrackedState,
    place: Place,
) -> Result<(u64, TermId), Refused>
    ensures slot { Gives refusal_of (λ e. (e.0, tree_at state.now.terms e.1)) result (slot_wanted setting.now place state.now.state) }
    ensures within { IfOk result (λ e. e.1 < length state.now.terms) }
{
    match slot_at(setting, state, place) {
        Some(slot) => Ok(slot),
        None => Err(Refused::Reason(Reason::Scope)),
    }
}

/// `let`: a fresh variable with the fact that it is the term.
pub fn let_term(state: &mut TrackedState, t: &Term) -> Result<(), Refused>
    requires { IsTrue (well_formed t.now) }
    ensures done { Gives refusal_of (λ _. state.new.state) result (let_ t.now state.old.state) }
    ensures kept { IfOk result (λ _. Grown state.old state.new) }
{
    let id = state.taken(t)?;
    state.let_variable(id)
}

/// What `put` does once its term is taken.
fn put_taken(
    setting: &Setting<'_>,
    state: &mut TrackedState,
    place: Place,
    id: TermId,
    fact: u32,
) -> Result<(), Refused>
    requires { id < length state.old.terms }
    ensures done { Gives refusal_of (λ _. state.new.state) result (put_taken setting.now place (tree_at state.old.terms id) fact state.old.state) }
    ensures kept { IfOk result (λ _. Grown state.old state.new) }
{
    let (_, before) = slot_wanted(setting, state, place)?;
    equal_wanted(state, fact, before, id)?;
    state.set_slot(place, id)
}

/// `put`: another term in a slot, which is equal by a fact.
pub fn put(
    setting: &Setting<'_>,
    state: &mut TrackedState,
    place: Place,
    t: &Term,
    fact: u32,
) -> Result<(), Refused>
    requires { IsTrue (well_formed t.now) }
    ensures done { Gives refusal_of (λ _. state.new.state) result (put setting.now place t.now fact state.old.state) }
    ensures kept { IfOk result (λ _. Grown state.old state.new) }
{
    let id = state.taken(t)?;
    put_taken(setting, state, place, id, fact)
}

/// `name`: a fresh variable in a slot, with the fact that it is the slot's term, in the slot's range.
pub fn name(setting: &Setting<'_>, state: &mut TrackedState, place: Place) -> Result<(), Refused>
    ensures done { Gives refusal_of (λ _. state.new.state) result (name setting.now place state.old.state) }
    ensures kept { IfOk result (λ _. Grown state.old state.new) }
{
    let (greatest, id) = slot_wanted(setting, state, place)?;
    state.name_slot(place, id, greatest)
}
