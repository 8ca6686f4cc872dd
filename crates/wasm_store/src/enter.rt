//! Functions of a store, and the frames by which they are entered (section 4.4.7).

ghost use Rattle.std.specs.Prelude.{◌≡◌, slice_get, Some, IfOk};
ghost use Rattle.std.specs.Option.{option_copied};
ghost use Rattle.wasm_store.specs.declared.store.FuncInst.{FuncInst};
ghost use Rattle.wasm_store.specs.Control.{type_of_inst, is_same_func_type, IsEnterable, IsFrameOf};
ghost use Rattle.wasm_store.specs.Seen.{func_of, seen_frame};

use crate::config::{CodeFrame, Frame};
use crate::store::{FuncInst, Store};
use std::alloc::Global;
use wasm_syntax::{Func, FuncType};
use wasm_values::{List, OutOfMemory, Val, add_zeros, are_same_types};

impl FuncInst {
    /// The function's type.
    pub fn ty(&self) -> &FuncType
        ensures { result.now ≡ type_of_inst self.now }
    {
        match self {
            FuncInst::Code { ty, .. } | FuncInst::Host { ty } => ty,
        }
    }
}

/// Whether two function types have the same parameters and results.
pub fn is_same_func_type(a: &FuncType, b: &FuncType) -> bool
    ensures { result ≡ is_same_func_type a.now b.now }
{
    are_same_types(a.params.as_slice(), b.params.as_slice())
        && are_same_types(a.results.as_slice(), b.results.as_slice())
}

impl Store {
    /// The module's function at an address, if there is one. A host's has none.
    pub fn func_at(&self, address: u32) -> Option<&Func>
        ensures { option_copied result ≡ func_of self.now.instances (slice_get self.now.funcs address) }
    {
        match self.funcs.as_slice().get(address as usize) {
            Some(FuncInst::Code { instance, code, .. }) => {
                let found = self.instances.as_slice().get(*instance as usize)?;
                found.code.as_slice().get(*code as usize)
            }
            _ => None,
        }
    }
}

/// The frame of the function at an address, entered with these arguments.
pub fn make_frame(
    alloc: Global,
    store: &Store,
    address: u32,
    args: List<Val>,
) -> Result<Frame, OutOfMemory>
    requires { (inst : FuncInst) × (slice_get store.now.funcs address ≡ Some inst) × IsEnterable store.now.instances inst }
    ensures { IfOk result (λ frame. (inst : FuncInst) → slice_get store.now.funcs address ≡ Some inst → IsFrameOf store.now.instances address args inst (seen_frame store.now.funcs store.now.instances frame)) }
{
    match &store.funcs.as_slice()[address as usize] {
        FuncInst::Code { instance, .. } => {
            let func = store.func_at(address).unwrap();
            let mut locals = args;
            add_zeros(&mut locals, func.locals.as_slice())?;
            Ok(Frame::Code(CodeFrame {
                instance: *instance,
                func: address,
                locals,
                operands: List::new(alloc),
                labels: List::new(alloc),
                position: 0,
            }))
        }
        FuncInst::Host { .. } => Ok(Frame::Host {
            func: address,
            args,
            given: List::new(alloc),
        }),
    }
}
