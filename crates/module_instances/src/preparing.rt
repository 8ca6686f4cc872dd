//! All of an instantiation but the change: its refusals, in their order, and the new parts.

ghost use Rattle.std.specs.Prelude.{◌≡◌, ◌<◌, length, option_map, slice_index, IfOk, All};
ghost use Rattle.wasm_syntax.specs.declared.module.Func.{Func};
ghost use Rattle.wasm_typing.specs.Valid.{Valid};
ghost use Rattle.type_safety.specs.Stores.{StoreTyped};
ghost use Rattle.module_instances.specs.words.Building.{HasRoom, full};
ghost use Rattle.module_instances.specs.words.Putting.{ArePartsFor, Prepares};

use crate::faults::InstFault;
use crate::instances::{address_of, make_instance};
use crate::limits::stays_within;
use crate::matching::find_mismatch;
use crate::numbering::{Numbering, add_numbers, imported};
use crate::parts::{make_funcs, make_globals, make_memories, make_tables};
use crate::segments::segments_fit;
use crate::storing::Parts;
use std::alloc;
use wasm_reduce::Policy;
use wasm_store::{Extern, GlobalInst, Store};
use wasm_syntax::Module;
use wasm_values::{List, OutOfMemory};

/// The addresses of all that an instance has, by those of what it imports.
fn complete(imported: Numbering, store: &Store, module: &Module) -> Result<Numbering, OutOfMemory>
    requires { HasRoom store.now «module».now }
    ensures { IfOk result (λ n. n ≡ full store.now «module».now imported) }
{
    let Numbering {
        mut funcs,
        mut tables,
        mut memories,
        mut globals,
    } = imported;
    add_numbers(&mut funcs, store.funcs.len(), module.funcs.len())?;
    add_numbers(&mut tables, store.tables.len(), module.tables.len())?;
    add_numbers(&mut memories, store.memories.len(), module.memories.len())?;
    add_numbers(&mut globals, store.globals.len(), module.globals.len())?;
    Ok(Numbering {
        funcs,
        tables,
        memories,
        globals,
    })
}

fn start_address(numbering: &Numbering, start: Option<u32>) -> Option<u32>
    ensures { result ≡ option_map (slice_index numbering.now.funcs) start }
{
    match start {
        Some(number) => Some(address_of(&numbering.funcs, number)),
        None => None,
    }
}

/// What is added to the store, by the addresses of what is imported and the new globals.
fn make_parts(
    alloc: alloc::Global,
    store: &Store,
    module: &Module,
    imported: Numbering,
    globals: List<GlobalInst>,
) -> Result<Parts, OutOfMemory>
    requires room { HasRoom store.now «module».now }
    requires known { All (λ (f : Func). f.ty < length «module».now.types) «module».now.funcs }
    ensures { IfOk result (ArePartsFor store.now «module».now imported globals) }
{
    let numbering = complete(imported, store, module)?;
    let start = start_address(&numbering, module.start);
    let funcs = make_funcs(alloc, module, store.instances.len() as u32)?;
    let tables = make_tables(alloc, module)?;
    let memories = make_memories(alloc, module)?;
    let instance = make_instance(alloc, numbering, module)?;
    Ok(Parts {
        funcs,
        tables,
        memories,
        globals,
        instance,
        start,
    })
}

/// The new parts of an instantiation, or why it is refused.
pub(crate) fn prepare(
    alloc: alloc::Global,
    store: &Store,
    module: &Module,
    externs: &[Extern],
    policy: &Policy,
) -> Result<Parts, InstFault>
    requires typed { StoreTyped store.now }
    requires valid { Valid «module».now }
    ensures { Prepares policy.now store.now «module».now externs.now result }
{
    if externs.len() != module.imports.len() {
        return Err(InstFault::Count);
    }
    match find_mismatch(store, module, externs) {
        Some(k) => return Err(InstFault::Mismatch(k)),
        None => {}
    }
    let imported = imported(alloc, externs)?;
    let globals = make_globals(
        alloc,
        store.globals.as_slice(),
        imported.globals.as_slice(),
        module,
    )?;
    if !segments_fit(store, module, &imported, globals.as_slice()) {
        return Err(InstFault::Bounds);
    }
    if !stays_within(store, module, policy) {
        return Err(InstFault::Limit);
    }
    Ok(make_parts(alloc, store, module, imported, globals)?)
}
