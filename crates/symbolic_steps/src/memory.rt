// Accesses of the memory, its size and its growth.

ghost use Rattle.std.specs.Prelude.{◌≡◌, ◌*◌, ◌<◌, length, true, None, IfOk};
ghost use Rattle.wasm_values.specs.Answers.{Gives};
ghost use Rattle.wasm_values.specs.Operators.{width_of};
ghost use Rattle.wasm_syntax.specs.Accesses.{bytes_loaded, bytes_stored, loaded_type, stored_type};
ghost use Rattle.wasm_store.specs.Memory.{is_signed_load};
ghost use Rattle.term_trees.specs.declared.term.Term.TheVariants as term;
ghost use Rattle.term_logic.specs.Table.{tree_at};
ghost use Rattle.outline_rules.specs.Memory.{memory_size, pages_pushed, value_read, value_written, made_pushed, written, load_private, store_private};
ghost use Rattle.outline_rules.specs.States.{operand};
ghost use Rattle.symbolic_state.specs.Refused.{refusal_of};
ghost use Rattle.symbolic_state.specs.Growth.{Grown};

use crate::accesses::accessed;
use crate::forms::{cell_of, unused};
use crate::formulas::at_most;
use heap_logic::IdChunk;
use notes::Use;
use symbolic_state::{Refused, TrackedState};
use term_logic::TermId;
use wasm_syntax::{LoadOp, StoreOp, bytes_loaded, bytes_stored, loaded_type, stored_type};
use wasm_values::{OutOfMemory, ValType};

/// `memory.size`.
pub fn memory_size(state: &mut TrackedState, used: &Use) -> Result<(), Refused>
    ensures done { Gives refusal_of (λ _. state.new.state) result (memory_size used.now state.old.state) }
    ensures kept { IfOk result (λ _. Grown state.old state.new) }
{
    unused(used)?;
    match state.pages() {
        Some(pages) => state.push(ValType::I32, pages),
        None => unknown_size(state),
    }
}

/// A page count that isn't known.
fn unknown_size(state: &mut TrackedState) -> Result<(), Refused>
    ensures done { Gives refusal_of (λ _. state.new.state) result (pages_pushed None state.old.state) }
    ensures kept { IfOk result (λ _. Grown state.old state.new) }
{
    let variable = state.push_typed(ValType::I32)?;
    let most = state.number(65536)?;
    let bound = at_most(state.table(), variable, most);
    state.add_fact(bound)
}

/// Whether a load extends what it reads by its sign.
fn is_signed(op: LoadOp) -> bool
    ensures { result ≡ is_signed_load op }
{
    match op {
        LoadOp::I32Load8S | LoadOp::I32Load16S => true,
        LoadOp::I64Load8S | LoadOp::I64Load16S | LoadOp::I64Load32S => true,
        _ => false,
    }
}

/// A term that stands in the state already is pushed.
#[tactic(auto, using(crate::proofs::Pushing::pushing_known))]
fn push_known(state: &mut TrackedState, ty: ValType, id: TermId) -> Result<(), Refused>
    requires { id < length state.old.terms }
    ensures done { Gives refusal_of (λ _. state.new.state) result (made_pushed ty (tree_at state.old.terms id) state.old.state) }
    ensures kept { IfOk result (λ _. Grown state.old state.new) }
{
    let _ = state.table().nodes_of(id);
    state.push(ty, id)
}

/// The extension of a value by its sign is pushed.
#[tactic(auto, using(crate::proofs::Pushing::pushing))]
fn push_extended(state: &mut TrackedState, op: LoadOp, value: TermId) -> Result<(), Refused>
    requires value { value < length state.old.terms }
    requires signed { is_signed_load op ≡ true }
    ensures done { Gives refusal_of (λ _. state.new.state) result (made_pushed (loaded_type op) (term.Sext (8 * bytes_loaded op) (width_of (loaded_type op)) (tree_at state.old.terms value)) state.old.state) }
    ensures kept { IfOk result (λ _. Grown state.old state.new) }
{
    let bits = 8 * bytes_loaded(op) as u32;
    let ty = loaded_type(op);
    let made = state.sign_extended(bits, ty.bits(), value)?;
    state.push(ty, made)
}

/// What a load gives for the value of a cell is pushed.
fn push_read(state: &mut TrackedState, op: LoadOp, value: TermId) -> Result<(), Refused>
    requires { value < length state.old.terms }
    ensures done { Gives refusal_of (λ _. state.new.state) result (made_pushed (loaded_type op) (value_read op (tree_at state.old.terms value)) state.old.state) }
    ensures kept { IfOk result (λ _. Grown state.old state.new) }
{
    if is_signed(op) {
        push_extended(state, op, value)
    } else {
        push_known(state, loaded_type(op), value)
    }
}

/// A load from the private memory: by a cell.
pub fn load_private(
    state: &mut TrackedState,
    used: &Use,
    op: LoadOp,
    offset: u32,
) -> Result<(), Refused>
    ensures done { Gives refusal_of (λ _. state.new.state) result (load_private op offset used.now state.old.state) }
    ensures kept { IfOk result (λ _. Grown state.old state.new) }
{
    let chunk = cell_of(used)?;
    let (_, address) = state.entry(0)?;
    let (_, value) = accessed(state, chunk, bytes_loaded(op) as u32, address, offset)?;
    state.pop(1);
    push_read(state, op, value)
}

/// A term that stands in the state already is stored in a cell.
#[tactic(auto, using(crate::proofs::Storing::stores_known))]
fn store_known(
    state: &mut TrackedState,
    op: StoreOp,
    chunk: u32,
    at: TermId,
    value: TermId,
) -> Result<(), Refused>
    requires address { at < length state.old.terms }
    requires value { value < length state.old.terms }
    ensures done { Gives refusal_of (λ _. state.new.state) result (written op chunk (tree_at state.old.terms at) (tree_at state.old.terms value) state.old.state) }
    ensures kept { IfOk result (λ _. Grown state.old state.new) }
{
    let _ = state.table().nodes_of(value);
    let width = bytes_stored(op) as u32;
    state.set_chunk(chunk, IdChunk::Cell { width, at, value })
}

/// The lowest bits of a term are stored in a cell.
#[tactic(auto, using(crate::proofs::Storing::stores, symbolic_state::proofs::Grows::grown_ids))]
fn store_low(
    state: &mut TrackedState,
    op: StoreOp,
    chunk: u32,
    at: TermId,
    value: TermId,
) -> Result<(), Refused>
    requires address { at < length state.old.terms }
    requires value { value < length state.old.terms }
    requires narrow { 8 * bytes_stored op < width_of (stored_type op) }
    ensures done { Gives refusal_of (λ _. state.new.state) result (written op chunk (tree_at state.old.terms at) (term.Low (8 * bytes_stored op) (tree_at state.old.terms value)) state.old.state) }
    ensures kept { IfOk result (λ _. Grown state.old state.new) }
{
    let width = bytes_stored(op) as u32;
    let value = state.low(8 * width, value)?;
    state.set_chunk(chunk, IdChunk::Cell { width, at, value })
}

/// What a store writes is stored in a cell.
fn store_value(
    state: &mut TrackedState,
    op: StoreOp,
    chunk: u32,
    at: TermId,
    value: TermId,
) -> Result<(), Refused>
    requires address { at < length state.old.terms }
    requires value { value < length state.old.terms }
    ensures done { Gives refusal_of (λ _. state.new.state) result (written op chunk (tree_at state.old.terms at) (value_written op (tree_at state.old.terms value)) state.old.state) }
    ensures kept { IfOk result (λ _. Grown state.old state.new) }
{
    if 8 * (bytes_stored(op) as u32) < stored_type(op).bits() {
        store_low(state, op, chunk, at, value)
    } else {
        store_known(state, op, chunk, at, value)
    }
}

/// A store in the private memory: by a cell.
#[tactic(auto, using(symbolic_state::proofs::Grows::grown_ids))]
pub fn store_private(
    state: &mut TrackedState,
    used: &Use,
    op: StoreOp,
    offset: u32,
) -> Result<(), Refused>
    ensures done { Gives refusal_of (λ _. state.new.state) result (store_private op offset used.now state.old.state) }
    ensures kept { IfOk result (λ _. Grown state.old state.new) }
{
    let chunk = cell_of(used)?;
    let (address, value) = operands_of_store(state)?;
    let (at, _) = accessed(state, chunk, bytes_stored(op) as u32, address, offset)?;
    state.pop(2);
    store_value(state, op, chunk, at, value)
}

/// The operands of a store: the address, and the value on top.
#[tactic(auto, using(symbolic_state::proofs::Grows::grown_ids))]
fn operands_of_store(state: &mut TrackedState) -> Result<(TermId, TermId), OutOfMemory>
    ensures address { IfOk result (λ r. tree_at state.new.terms r.0 ≡ operand state.old.state 1) }
    ensures value { IfOk result (λ r. tree_at state.new.terms r.1 ≡ operand state.old.state 0) }
    ensures within { IfOk result (λ r. (r.0 < length state.new.terms) × (r.1 < length state.new.terms)) }
    ensures state { IfOk result (λ _. state.new.state ≡ state.old.state) }
    ensures kept { IfOk result (λ _. Grown state.old state.new) }
{
    let (_, address) = state.entry(1)?;
    let (_, value) = state.entry(0)?;
    Ok((address, value))
}
