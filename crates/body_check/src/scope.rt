ghost use Rattle.std.specs.Prelude.{◌≡◌, ◌≤◌, ◌++◌, [], is_some, if◌then◌else◌, length, IfOk, OnOk};
ghost use Rattle.std.specs.List.{filter_map, cons_option};
ghost use Rattle.wasm_syntax.specs.declared.module.Import.{Import};
ghost use Rattle.body_check.specs.words.Answers.{Answers, IsScopeOf};
ghost use Rattle.wasm_typing.specs.Valid.{tables_of, memories_of, func_types_of, imported_globals_of, globals_of, table_import, memory_import, func_import, global_import};

use std::alloc::{AllocError, Global as Heap};
use wasm_syntax::{GlobalType, ImportKind, Module};
use wasm_typing::ValidFault;

/// What the entries of a module may name, imports first.
#[derive(Drop)]
pub struct Scope {
    /// The numbers of the types of functions.
    pub funcs: Vec<u32>,
    pub tables: usize,
    pub memories: usize,
    /// The types of the imported globals, and those of all globals.
    pub imported: Vec<GlobalType>,
    pub globals: Vec<GlobalType>,
}

fn push_func(funcs: &mut Vec<u32>, kind: &ImportKind) -> Result<(), AllocError>
    ensures { OnOk result (funcs.new.items ≡ funcs.old.items ++ cons_option (func_import kind.now) []) }
{
    match kind {
        ImportKind::Func(ty) => {
            funcs.push(*ty)?;
            Ok(())
        }
        _ => Ok(()),
    }
}

fn push_global(globals: &mut Vec<GlobalType>, kind: &ImportKind) -> Result<(), AllocError>
    ensures { OnOk result (globals.new.items ≡ globals.old.items ++ cons_option (global_import kind.now) []) }
{
    match kind {
        ImportKind::Global(ty) => {
            globals.push(*ty)?;
            Ok(())
        }
        _ => Ok(()),
    }
}

/// The numbers of the types of all functions.
fn func_types(alloc: Heap, module: &Module) -> Result<Vec<u32>, AllocError>
    ensures { IfOk result (λ funcs. funcs.items ≡ func_types_of «module».now) }
{
    let mut funcs = Vec::new(alloc);
    for import in module.imports.as_slice() {
        push_func(&mut funcs, &import.kind)?;
    }
    for func in module.funcs.as_slice() {
        funcs.push(func.ty)?;
    }
    Ok(funcs)
}

/// The types of the imported globals.
fn imported_globals(alloc: Heap, module: &Module) -> Result<Vec<GlobalType>, AllocError>
    ensures { IfOk result (λ globals. globals.items ≡ imported_globals_of «module».now) }
{
    let mut globals = Vec::new(alloc);
    for import in module.imports.as_slice() {
        push_global(&mut globals, &import.kind)?;
    }
    Ok(globals)
}

/// The types of all globals.
fn all_globals(alloc: Heap, module: &Module) -> Result<Vec<GlobalType>, AllocError>
    ensures { IfOk result (λ globals. globals.items ≡ globals_of «module».now) }
{
    let mut globals = imported_globals(alloc, module)?;
    for global in module.globals.as_slice() {
        globals.push(global.ty)?;
    }
    Ok(globals)
}

/// How many tables an import is.
pub fn table_count(kind: &ImportKind) -> usize
    ensures { result ≡ (if is_some (table_import kind.now) then 1 else 0) }
{
    match kind {
        ImportKind::Table(_) => 1,
        _ => 0,
    }
}

/// How many memories an import is.
pub fn memory_count(kind: &ImportKind) -> usize
    ensures { result ≡ (if is_some (memory_import kind.now) then 1 else 0) }
{
    match kind {
        ImportKind::Memory(_) => 1,
        _ => 0,
    }
}

/// How many tables are imported.
pub fn imported_tables(module: &Module) -> usize
    ensures { result ≡ length (filter_map (λ (i : Import). table_import i.kind) «module».now.imports) }
{
    let mut tables: usize = 0;
    for import in module.imports.as_slice() {
        tables += table_count(&import.kind);
    }
    tables
}

/// How many memories are imported.
pub fn imported_memories(module: &Module) -> usize
    ensures { result ≡ length (filter_map (λ (i : Import). memory_import i.kind) «module».now.imports) }
{
    let mut memories: usize = 0;
    for import in module.imports.as_slice() {
        memories += memory_count(&import.kind);
    }
    memories
}

/// What the entries of a module may name, where it has at most one table and one memory.
pub fn scope_of(alloc: Heap, module: &Module) -> Result<Scope, ValidFault>
    requires table { length (tables_of «module».now) ≤ 1 }
    requires memory { length (memories_of «module».now) ≤ 1 }
    ensures { Answers (λ s. IsScopeOf «module».now s) (λ at w. ⊥) result }
{
    let funcs = match func_types(alloc, module) {
        Ok(funcs) => funcs,
        Err(_) => return Err(ValidFault::OutOfMemory),
    };
    let imported = match imported_globals(alloc, module) {
        Ok(imported) => imported,
        Err(_) => return Err(ValidFault::OutOfMemory),
    };
    let globals = match all_globals(alloc, module) {
        Ok(globals) => globals,
        Err(_) => return Err(ValidFault::OutOfMemory),
    };
    Ok(Scope {
        funcs,
        tables: imported_tables(module) + module.tables.len(),
        memories: imported_memories(module) + module.memories.len(),
        imported,
        globals,
    })
}
