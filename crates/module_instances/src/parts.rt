//! What an instantiation allocates (section 4.5.3).

ghost use Rattle.std.specs.Prelude.{◌≡◌, ℕ, ◌<◌, ◌≤◌, List, length, map, IfOk, Some, None, All, replicate};
ghost use Rattle.std.specs.List.{enumerate_from};
ghost use Rattle.wasm_syntax.specs.declared.module.Func.{Func};
ghost use Rattle.wasm_syntax.specs.declared.module.Global.{Global};
ghost use Rattle.wasm_syntax.specs.Trees.{sequence_of};
ghost use Rattle.wasm_typing.specs.Valid.{GlobalValid};
ghost use Rattle.wasm_store.specs.declared.store.GlobalInst.{GlobalInst};
ghost use Rattle.wasm_sessions.specs.Instantiation.{made_func, made_table, made_memory, value_of_code};

use crate::constants::value_of;
use std::alloc;
use wasm_store::{FuncInst, GlobalInst, MemInst, TableInst};
use wasm_syntax::{Limits, Module};
use wasm_values::{Bytes, List, OutOfMemory};

/// The functions that a module defines, of the instance with this number.
pub(crate) fn make_funcs(
    alloc: alloc::Global,
    module: &Module,
    instance: u32,
) -> Result<List<FuncInst>, OutOfMemory>
    requires known { All (λ (f : Func). f.ty < length «module».now.types) «module».now.funcs }
    requires few { length «module».now.funcs ≤ 4294967295 }
    ensures { IfOk result (λ made. made ≡ map (made_func «module».now instance) (enumerate_from 0 «module».now.funcs)) }
{
    let mut made = List::new(alloc);
    for (k, func) in module.funcs.as_slice().iter().enumerate() {
        let ty = module.types.as_slice()[func.ty as usize].copy(alloc)?;
        made.push(FuncInst::Code {
            ty,
            instance,
            code: k as u32,
        })?;
    }
    Ok(made)
}

/// The globals that a module defines, where the imported ones have these addresses.
pub(crate) fn make_globals(
    alloc: alloc::Global,
    globals: &[GlobalInst],
    imported: &[u32],
    module: &Module,
) -> Result<List<GlobalInst>, OutOfMemory>
    requires { All (GlobalValid «module».now) «module».now.globals }
    ensures { IfOk result (λ made. made ≡ map (λ (g : Global). record { ty = g.ty; value = value_of_code globals.now imported.now (sequence_of g.init) }) «module».now.globals) }
{
    let mut made = List::new(alloc);
    for global in module.globals.as_slice() {
        made.push(GlobalInst {
            ty: global.ty,
            value: value_of(globals, imported, global.init.as_slice()),
        })?;
    }
    Ok(made)
}

/// A table of empty entries.
fn make_table(alloc: alloc::Global, limits: Limits) -> Result<TableInst, OutOfMemory>
    ensures { IfOk result (λ table. table ≡ made_table limits) }
{
    let mut entries = List::new(alloc);
    'entries: for _ in 0..limits.min {
        entries.push(None)?;
    }
    Ok(TableInst {
        entries,
        max: limits.max,
    })
}

/// A memory of zeros.
fn make_memory(alloc: alloc::Global, limits: Limits) -> Result<MemInst, OutOfMemory>
    ensures { IfOk result (λ memory. memory ≡ made_memory limits) }
{
    let len = 65_536 * limits.min as usize;
    match vec![in alloc; 0; len] {
        Ok(bytes) => Ok(MemInst {
            bytes: Bytes::from_vec(bytes),
            max: limits.max,
        }),
        Err(_) => Err(OutOfMemory),
    }
}

/// The tables that a module defines.
pub(crate) fn make_tables(
    alloc: alloc::Global,
    module: &Module,
) -> Result<List<TableInst>, OutOfMemory>
    ensures { IfOk result (λ made. made ≡ map made_table «module».now.tables) }
{
    let mut made = List::new(alloc);
    for limits in module.tables.as_slice() {
        made.push(make_table(alloc, *limits)?)?;
    }
    Ok(made)
}

/// The memories that a module defines.
pub(crate) fn make_memories(
    alloc: alloc::Global,
    module: &Module,
) -> Result<List<MemInst>, OutOfMemory>
    ensures { IfOk result (λ made. made ≡ map made_memory «module».now.memories) }
{
    let mut made = List::new(alloc);
    for limits in module.memories.as_slice() {
        made.push(make_memory(alloc, *limits)?)?;
    }
    Ok(made)
}
