//! What loads and stores access (section 2.4.4).

ghost use Rattle.std.specs.Prelude.{◌≡◌, ◌≤◌};
ghost use Rattle.wasm_syntax.specs.Accesses.{bytes_loaded, bytes_stored, loaded_type, stored_type};

use crate::instr::{LoadOp, StoreOp};
use wasm_values::ValType;

/// How many bytes a load reads.
pub fn bytes_loaded(op: LoadOp) -> usize
    ensures value { result ≡ bytes_loaded op }
    ensures few { result ≤ 8 }
{
    match op {
        LoadOp::I32Load8S | LoadOp::I32Load8U | LoadOp::I64Load8S | LoadOp::I64Load8U => 1,
        LoadOp::I32Load16S | LoadOp::I32Load16U | LoadOp::I64Load16S | LoadOp::I64Load16U => 2,
        LoadOp::I32Load | LoadOp::I64Load32S | LoadOp::I64Load32U => 4,
        LoadOp::I64Load => 8,
    }
}

/// How many bytes a store writes.
pub fn bytes_stored(op: StoreOp) -> usize
    ensures value { result ≡ bytes_stored op }
    ensures few { result ≤ 8 }
{
    match op {
        StoreOp::I32Store8 | StoreOp::I64Store8 => 1,
        StoreOp::I32Store16 | StoreOp::I64Store16 => 2,
        StoreOp::I32Store | StoreOp::I64Store32 => 4,
        StoreOp::I64Store => 8,
    }
}

/// The type of what a load gives.
pub fn loaded_type(op: LoadOp) -> ValType
    ensures { result ≡ loaded_type op }
{
    match op {
        LoadOp::I32Load
        | LoadOp::I32Load8S
        | LoadOp::I32Load8U
        | LoadOp::I32Load16S
        | LoadOp::I32Load16U => ValType::I32,
        _ => ValType::I64,
    }
}

/// The type of what a store writes.
pub fn stored_type(op: StoreOp) -> ValType
    ensures { result ≡ stored_type op }
{
    match op {
        StoreOp::I32Store | StoreOp::I32Store8 | StoreOp::I32Store16 => ValType::I32,
        _ => ValType::I64,
    }
}
