//! Types of values and of functions.

ghost use Rattle.std.specs.Prelude.{◌≡◌, ◌<◌, length, slice_get, Some, IsTrue, IfOk, ◌↔◌, All};
ghost use Rattle.wasm_values.specs.Operators.{type_of};
ghost use Rattle.wasm_typing.specs.Valid.{ValInRange};
ghost use Rattle.wasm_store.specs.declared.store.FuncInst.{FuncInst};
ghost use Rattle.wasm_store.specs.Control.{type_of_inst};
ghost use Rattle.type_safety.specs.Shapes.{types};

use std::alloc::Global;
use wasm_store::Store;
use wasm_syntax::FuncType;
use wasm_values::{List, OutOfMemory, Val, ValType, is_same_type};

/// The type of the function at an address.
pub(crate) fn type_at(store: &Store, address: u32) -> &FuncType
    requires { address < length store.now.funcs }
    ensures { (inst : FuncInst) → slice_get store.now.funcs address ≡ Some inst → result.now ≡ type_of_inst inst }
{
    store.funcs.as_slice()[address as usize].ty()
}

fn read_type(value: Val) -> ValType
    ensures value { result ≡ type_of value }
    ensures range { ValInRange value }
{
    match value {
        Val::I32(n) => {
            let _n = n;
            ValType::I32
        }
        Val::I64(n) => {
            let _n = n;
            ValType::I64
        }
    }
}

/// Whether a value has this type.
pub(crate) fn has_type(value: Val, wanted: ValType) -> bool
    ensures same { IsTrue result ↔ (type_of value ≡ wanted) }
    ensures range { ValInRange value }
{
    is_same_type(read_type(value), wanted)
}

/// Whether values have these types.
pub(crate) fn have_types(values: &[Val], wanted: &[ValType]) -> bool
    ensures same { IsTrue result ↔ (types values.now ≡ wanted.now) }
    ensures ranges { IsTrue result → All ValInRange values.now }
{
    if values.len() != wanted.len() {
        return false;
    }
    for (k, value) in values.iter().enumerate() {
        if !is_same_type(read_type(*value), wanted[k]) {
            return false;
        }
    }
    true
}

/// A list of the same values.
pub(crate) fn copy_values(alloc: Global, values: &List<Val>) -> Result<List<Val>, OutOfMemory>
    ensures { IfOk result (λ copied. copied ≡ values.now) }
{
    let items = Vec::from_slice(alloc, values.as_slice())?;
    Ok(List::from_vec(items))
}
