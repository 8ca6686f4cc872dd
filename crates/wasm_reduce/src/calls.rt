//! Calls.

ghost use Rattle.std.specs.Prelude.{◌≡◌, ℕ, Some, slice_get};
ghost use Rattle.wasm_syntax.specs.declared.module.FuncType.{FuncType};
ghost use Rattle.wasm_store.specs.declared.store.FuncInst.{FuncInst};
ghost use Rattle.wasm_store.specs.declared.store.Instance.{Instance};
ghost use Rattle.wasm_store.specs.declared.store.TableInst.{TableInst};
ghost use Rattle.wasm_store.specs.Control.{CallStep, CallIndirectStep, is_same_func_type, type_of_inst};
ghost use Rattle.wasm_reduce.specs.words.Effects.{Can, CameOf, moved_to};

use crate::effect::Effect;
use crate::find::{entry_at, func_address};
use crate::operands::top_number;
use wasm_store::{CodeFrame, Store, TableInst, is_same_func_type};
use wasm_syntax::FuncType;

/// A type of an instance.
fn wanted_type(store: &Store, instance: u32, x: u32) -> &FuncType
    requires { (i : Instance) × (wanted : FuncType) × (slice_get store.now.instances instance ≡ Some i) × (slice_get i.types x ≡ Some wanted) }
    ensures { (i : Instance) × (slice_get store.now.instances instance ≡ Some i) × (slice_get i.types x ≡ Some result.now) }
{
    &store.instances.as_slice()[instance as usize]
        .types
        .as_slice()[x as usize]
}

/// The table of an instance.
fn table_of(store: &Store, instance: u32) -> &TableInst
    requires { (i : Instance) × (a : ℕ) × (table : TableInst) × (slice_get store.now.instances instance ≡ Some i) × (slice_get i.tables 0 ≡ Some a) × (slice_get store.now.tables a ≡ Some table) }
    ensures { (i : Instance) × (a : ℕ) × (slice_get store.now.instances instance ≡ Some i) × (slice_get i.tables 0 ≡ Some a) × (slice_get store.now.tables a ≡ Some result.now) }
{
    let a = store.instances.as_slice()[instance as usize]
        .tables
        .as_slice()[0];
    &store.tables.as_slice()[a as usize]
}

/// Whether a function has a type.
fn has_type(store: &Store, func: u32, wanted: &FuncType) -> bool
    requires { (inst : FuncInst) × (slice_get store.now.funcs func ≡ Some inst) }
    ensures { (inst : FuncInst) × (slice_get store.now.funcs func ≡ Some inst) × (result ≡ is_same_func_type (type_of_inst inst) wanted.now) }
{
    is_same_func_type(store.funcs.as_slice()[func as usize].ty(), wanted)
}

/// `call`.
pub fn call(store: &Store, frame: &CodeFrame, x: u32, on: u32) -> Effect
    requires { Can (λ below d. CallStep store.now (moved_to store.now frame.now on) below d x) }
    ensures { CameOf (λ below d. CallStep store.now (moved_to store.now frame.now on) below d x) store.now frame.now store.now frame.now result }
{
    Effect::Enter {
        func: func_address(store, frame.instance, x),
        above: 0,
        on,
    }
}

/// `call_indirect`.
pub fn call_indirect(store: &Store, frame: &CodeFrame, x: u32, on: u32) -> Effect
    requires { Can (λ below d. CallIndirectStep store.now (moved_to store.now frame.now on) below d x) }
    ensures { CameOf (λ below d. CallIndirectStep store.now (moved_to store.now frame.now on) below d x) store.now frame.now store.now frame.now result }
{
    let wanted = wanted_type(store, frame.instance, x);
    let table = table_of(store, frame.instance);
    let Some(func) = entry_at(table, top_number(frame.operands.as_slice())) else {
        return Effect::Trap;
    };
    if !has_type(store, func, wanted) {
        return Effect::Trap;
    }
    Effect::Enter { func, above: 1, on }
}
