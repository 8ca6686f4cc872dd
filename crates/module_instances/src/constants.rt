//! The values of constant expressions (section 3.3.7).

ghost use Rattle.std.specs.Prelude.{◌≡◌, ℕ, ◌+◌, ◌<◌, ◌++◌, List, length, slice_get, slice_index, Some, All};
ghost use Rattle.std.specs.List.{range_with_len};
ghost use Rattle.wasm_values.specs.declared.number.ValType.{ValType};
ghost use Rattle.wasm_syntax.specs.declared.module.GlobalType.{GlobalType};
ghost use Rattle.wasm_syntax.specs.Trees.{sequence_of};
ghost use Rattle.wasm_typing.specs.Valid.{const_type};
ghost use Rattle.wasm_sessions.specs.Instantiation.{global_value, value_of_code};

use wasm_store::GlobalInst;
use wasm_syntax::Instr;
use wasm_values::Val;

/// The value of the global to which an index is resolved by these addresses.
fn resolved(globals: &[GlobalInst], addresses: &[u32], index: u32) -> Val
    ensures { result ≡ global_value (slice_get globals.now (slice_index addresses.now index)) }
{
    let address = addresses.get(index as usize).copied().unwrap_or(0);
    match globals.get(address as usize) {
        Some(global) => global.value,
        None => Val::I32(0),
    }
}

/// The value of a constant expression, where globals have these addresses.
pub(crate) fn value_of(globals: &[GlobalInst], addresses: &[u32], code: &[Instr]) -> Val
    ensures { (types : List GlobalType) (t : ValType) → const_type types code.now ≡ Some t → result ≡ value_of_code globals.now addresses.now (sequence_of code.now) }
{
    match code {
        [Instr::Const(value)] => *value,
        [Instr::GlobalGet(index)] => resolved(globals, addresses, *index),
        _ => Val::I32(0),
    }
}

/// The value of a global that is imported, or is among those that are being made.
fn value_before(globals: &[GlobalInst], made: &[GlobalInst], imported: &[u32], index: u32) -> Val
    requires { All (λ a. a < length globals.now) imported.now }
    ensures { index < length imported.now + length made.now → result ≡ global_value (slice_get (globals.now ++ made.now) (slice_index (imported.now ++ range_with_len (length globals.now) (length made.now)) index)) }
{
    let index = index as usize;
    if index < imported.len() {
        return globals[imported[index] as usize].value;
    }
    match made.get(index - imported.len()) {
        Some(global) => global.value,
        None => Val::I32(0),
    }
}

/// The value of a constant expression, where globals have these addresses and then the next ones, for those that are being
/// made.
pub(crate) fn value_with(
    globals: &[GlobalInst],
    made: &[GlobalInst],
    imported: &[u32],
    code: &[Instr],
) -> Val
    requires { All (λ a. a < length globals.now) imported.now }
    ensures { (types : List GlobalType) (t : ValType) → length types ≡ length imported.now + length made.now → const_type types code.now ≡ Some t → result ≡ value_of_code (globals.now ++ made.now) (imported.now ++ range_with_len (length globals.now) (length made.now)) (sequence_of code.now) }
{
    match code {
        [Instr::Const(value)] => *value,
        [Instr::GlobalGet(index)] => value_before(globals, made, imported, *index),
        _ => Val::I32(0),
    }
}
