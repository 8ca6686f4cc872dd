//! The instance of a module (section 4.5.3.8).

ghost use Rattle.std.specs.Prelude.{◌≡◌, ◌++◌, map, slice_index, IfOk, OnOk};
ghost use Rattle.std.specs.List.{flat_map};
ghost use Rattle.wasm_syntax.specs.declared.module.Export.{Export};
ghost use Rattle.wasm_syntax.specs.declared.module.Elem.{Elem};
ghost use Rattle.wasm_store.specs.declared.store.Extern.{Extern};
ghost use Rattle.module_instances.specs.words.Building.{named_extern, numbered_instance};

use crate::numbering::Numbering;
use std::alloc;
use wasm_store::{Extern, Instance};
use wasm_syntax::{ExportKind, Module};
use wasm_values::{List, OutOfMemory, Text};

/// The address with a number, or 0 where there is none.
pub(crate) fn address_of(addresses: &List<u32>, number: u32) -> u32
    ensures { result ≡ slice_index addresses.now number }
{
    addresses
        .as_slice()
        .get(number as usize)
        .copied()
        .unwrap_or(0)
}

/// What an export names, by its address.
fn named_extern(numbering: &Numbering, kind: ExportKind) -> Extern
    ensures { result ≡ named_extern numbering.now kind }
{
    match kind {
        ExportKind::Func(x) => Extern::Func(address_of(&numbering.funcs, x)),
        ExportKind::Table(x) => Extern::Table(address_of(&numbering.tables, x)),
        ExportKind::Memory(x) => Extern::Memory(address_of(&numbering.memories, x)),
        ExportKind::Global(x) => Extern::Global(address_of(&numbering.globals, x)),
    }
}

/// The exports of an instance.
fn make_exports(
    alloc: alloc::Global,
    numbering: &Numbering,
    module: &Module,
) -> Result<List<(Text, Extern)>, OutOfMemory>
    ensures { IfOk result (λ made. made ≡ map (λ (e : Export). (e.name, named_extern numbering.now e.kind)) «module».now.exports) }
{
    let mut made = List::new(alloc);
    for export in module.exports.as_slice() {
        let name = export.name.copy(alloc)?;
        made.push((name, named_extern(numbering, export.kind)))?;
    }
    Ok(made)
}

/// Adds the addresses of functions with these numbers.
fn add_addresses(
    elems: &mut List<u32>,
    funcs: &List<u32>,
    numbers: &[u32],
) -> Result<(), OutOfMemory>
    ensures { OnOk result (elems.new ≡ elems.old ++ map (slice_index funcs.now) numbers.now) }
{
    for number in numbers {
        elems.push(address_of(funcs, *number))?;
    }
    Ok(())
}

/// The addresses of the functions that a module's element segments name.
fn make_elems(
    alloc: alloc::Global,
    funcs: &List<u32>,
    module: &Module,
) -> Result<List<u32>, OutOfMemory>
    ensures { IfOk result (λ made. made ≡ flat_map (λ (e : Elem). map (slice_index funcs.now) e.funcs) «module».now.elems) }
{
    let mut made = List::new(alloc);
    for elem in module.elems.as_slice() {
        add_addresses(&mut made, funcs, elem.funcs.as_slice())?;
    }
    Ok(made)
}

/// The instance of a module in which its parts have these addresses.
pub(crate) fn make_instance(
    alloc: alloc::Global,
    numbering: Numbering,
    module: &Module,
) -> Result<Instance, OutOfMemory>
    ensures { IfOk result (λ instance. instance ≡ numbered_instance numbering «module».now) }
{
    let types = module.types.copy(alloc)?;
    let code = module.funcs.copy(alloc)?;
    let exports = make_exports(alloc, &numbering, module)?;
    let elems = make_elems(alloc, &numbering.funcs, module)?;
    let Numbering {
        funcs,
        tables,
        memories,
        globals,
    } = numbering;
    Ok(Instance {
        types,
        code,
        funcs,
        tables,
        memories,
        globals,
        exports,
        elems,
    })
}
