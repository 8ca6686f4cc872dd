//! The addresses that an instance gives to what it imports and defines, imports first (section 4.5.3.8).

ghost use Rattle.std.specs.Prelude.{◌≡◌, ℕ, ◌+◌, ◌<◌, ◌≤◌, ◌++◌, [], length, IfOk, OnOk};
ghost use Rattle.std.specs.List.{filter_map, cons_option, range_with_len};
ghost use Rattle.wasm_sessions.specs.Instantiation.{func_in_extern, table_in_extern, memory_in_extern, global_in_extern};
ghost use Rattle.module_instances.specs.words.Building.{IsNumbering};

use std::alloc;
use wasm_store::Extern;
use wasm_values::{List, OutOfMemory};

/// The addresses of functions, tables, memories and globals.
#[derive(Drop)]
pub(crate) struct Numbering {
    pub funcs: List<u32>,
    pub tables: List<u32>,
    pub memories: List<u32>,
    pub globals: List<u32>,
}

fn push_func(funcs: &mut List<u32>, given: Extern) -> Result<(), OutOfMemory>
    ensures { OnOk result (funcs.new ≡ funcs.old ++ cons_option (func_in_extern given) []) }
{
    match given {
        Extern::Func(address) => funcs.push(address),
        _ => Ok(()),
    }
}

fn push_table(tables: &mut List<u32>, given: Extern) -> Result<(), OutOfMemory>
    ensures { OnOk result (tables.new ≡ tables.old ++ cons_option (table_in_extern given) []) }
{
    match given {
        Extern::Table(address) => tables.push(address),
        _ => Ok(()),
    }
}

fn push_memory(memories: &mut List<u32>, given: Extern) -> Result<(), OutOfMemory>
    ensures { OnOk result (memories.new ≡ memories.old ++ cons_option (memory_in_extern given) []) }
{
    match given {
        Extern::Memory(address) => memories.push(address),
        _ => Ok(()),
    }
}

fn push_global(globals: &mut List<u32>, given: Extern) -> Result<(), OutOfMemory>
    ensures { OnOk result (globals.new ≡ globals.old ++ cons_option (global_in_extern given) []) }
{
    match given {
        Extern::Global(address) => globals.push(address),
        _ => Ok(()),
    }
}

/// The addresses of what is imported.
pub(crate) fn imported(alloc: alloc::Global, externs: &[Extern]) -> Result<Numbering, OutOfMemory>
    ensures { IfOk result (λ n. IsNumbering n (filter_map func_in_extern externs.now) (filter_map table_in_extern externs.now) (filter_map memory_in_extern externs.now) (filter_map global_in_extern externs.now)) }
{
    let mut funcs = List::new(alloc);
    let mut tables = List::new(alloc);
    let mut memories = List::new(alloc);
    let mut globals = List::new(alloc);
    for given in externs {
        push_func(&mut funcs, *given)?;
        push_table(&mut tables, *given)?;
        push_memory(&mut memories, *given)?;
        push_global(&mut globals, *given)?;
    }
    Ok(Numbering {
        funcs,
        tables,
        memories,
        globals,
    })
}

/// Adds the next so many addresses.
pub(crate) fn add_numbers(
    addresses: &mut List<u32>,
    first: usize,
    count: usize,
) -> Result<(), OutOfMemory>
    requires { first + count ≤ 4294967295 }
    ensures { OnOk result (addresses.new ≡ addresses.old ++ range_with_len first count) }
{
    for k in 0..count {
        addresses.push((first + k) as u32)?;
    }
    Ok(())
}
