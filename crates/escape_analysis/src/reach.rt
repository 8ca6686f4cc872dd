//! The exposure of a module.

ghost use Rattle.std.specs.Prelude.{◌≡◌, ◌<◌, not, length, slice_get, Some, IfOk};
ghost use Rattle.std.specs.List.{list_any};
ghost use Rattle.wasm_syntax.specs.declared.module.Export.{Export};
ghost use Rattle.escape_analysis.specs.Exposure.{exports_memory, exports_table, has_private_memory, has_private_table, exposure_of};

use crate::functions::exposed;
use crate::globals::stabilities;
use crate::stability::Exposure;
use std::alloc::Global;
use wasm_syntax::{Export, ExportKind, Module};
use wasm_validate::ValidModule;
use wasm_values::OutOfMemory;

/// Whether some of these exports is a memory.
fn is_memory_exported(exports: &[Export]) -> bool
    ensures { result ≡ list_any (λ (e : Export). exports_memory e.kind) exports.now }
{
    exports
        .iter()
        .any(|export| matches!(export.kind, ExportKind::Memory(_)))
}

/// Whether some of these exports is a table.
fn is_table_exported(exports: &[Export]) -> bool
    ensures { result ≡ list_any (λ (e : Export). exports_table e.kind) exports.now }
{
    exports
        .iter()
        .any(|export| matches!(export.kind, ExportKind::Table(_)))
}

/// Whether a memory is defined and not exported.
fn private_memory(module: &Module) -> bool
    ensures { result ≡ has_private_memory «module».now }
{
    module.memories.len() > 0 && !is_memory_exported(module.exports.as_slice())
}

/// Whether a table is defined and not exported.
fn private_table(module: &Module) -> bool
    ensures { result ≡ has_private_table «module».now }
{
    module.tables.len() > 0 && !is_table_exported(module.exports.as_slice())
}

/// What of a module others can reach.
pub fn exposure(alloc: Global, module: &ValidModule) -> Result<Exposure, OutOfMemory>
    ensures { IfOk result (λ e. e ≡ exposure_of «module».now) }
{
    let module = module.module();
    let memory = private_memory(module);
    let table = private_table(module);
    Ok(Exposure {
        globals: stabilities(alloc, module)?,
        memory,
        table,
        exposed: exposed(alloc, module, table)?,
    })
}

/// Whether a function isn't exposed, so that it may have a contract.
pub fn inner_ok(e: &Exposure, func: u32) -> bool
    requires { func < length e.now.exposed }
    ensures { slice_get e.now.exposed func ≡ Some (not result) }
{
    !e.exposed.as_slice()[func as usize]
}
