//! Writes and growths of a host or of the embedder, made in a store.

ghost use Rattle.std.specs.Prelude.{◌≡◌, ℕ, ◌+◌, ◌<◌, ◌≤◌, ◌++◌, List, length, nat_le, replicate, slice_get, slice_set, sum_by, Some, None, IsTrue, false, OnOk, OnErr};
ghost use Rattle.wasm_values.specs.Types.{is_at_most};
ghost use Rattle.wasm_store.specs.declared.store.TableInst.{TableInst};
ghost use Rattle.wasm_store.specs.declared.store.MemInst.{MemInst};
ghost use Rattle.type_safety.specs.Stores.{StoreTyped};
ghost use Rattle.wasm_reduce.specs.declared.policy.Policy.{Policy};
ghost use Rattle.wasm_instantiate.specs.HostAnswers.{IsEntryOutOfReach, lets_grow_table};
ghost use Rattle.wasm_sessions.specs.Hosts.{IsEntryInReach};
ghost use Rattle.wasm_instantiate.specs.words.Writing.{is_write, WriteAnswers};

use crate::acts::HostAct;
use crate::faults::HostFault;
use crate::pool::{is_in_pool, is_in_reach};
use crate::typing::has_type;
use module_instances::entries_in;
use std::alloc::Global;
use std::mem;
use wasm_reduce::{Policy, grow_memory, lets_grow};
use wasm_store::{Extern, GlobalInst, MemInst, Store, TableInst};
use wasm_values::{List, OutOfMemory, Val};

/// The greatest number of table entries of a store.
const MAX_ENTRIES: u64 = 1_000_000;

/// Sets a byte of a memory.
fn set_byte(alloc: Global, memories: &mut List<MemInst>, m: u32, at: usize, value: u8)
    requires { (mem : MemInst) × (slice_get memories.old m ≡ Some mem) × (at < length mem.bytes) }
    ensures { (mem : MemInst) → slice_get memories.old m ≡ Some mem → memories.new ≡ slice_set memories.old m (record mem { bytes = slice_set mem.bytes at value }) }
{
    let mut all = mem::replace(memories, List::new(alloc)).into_vec();
    all[m as usize].bytes.set(at, value);
    *memories = List::from_vec(all);
}

fn write_byte(
    alloc: Global,
    store: &mut Store,
    memory: u32,
    at: u32,
    value: u8,
) -> Result<(), HostFault>
    requires { StoreTyped store.old }
    ensures { (policy : Policy) → WriteAnswers policy store.old (HostAct.Byte memory at value) store.new result }
{
    if !is_in_pool(store, Extern::Memory(memory)) {
        return Err(HostFault::NotExported);
    }
    if at as usize >= store.memories.as_slice()[memory as usize].bytes.len() {
        return Err(HostFault::Bounds);
    }
    set_byte(alloc, &mut store.memories, memory, at as usize, value);
    Ok(())
}

fn write_global(store: &mut Store, global: u32, value: Val) -> Result<(), HostFault>
    requires { StoreTyped store.old }
    ensures { (policy : Policy) → WriteAnswers policy store.old (HostAct.Global global value) store.new result }
{
    if !is_in_pool(store, Extern::Global(global)) {
        return Err(HostFault::NotExported);
    }
    let ty = store.globals.as_slice()[global as usize].ty;
    if !ty.mutable {
        return Err(HostFault::Immutable);
    }
    if !has_type(value, ty.value) {
        return Err(HostFault::WrongType);
    }
    store.globals.set(global as usize, GlobalInst { ty, value });
    Ok(())
}

/// Whether the function for an entry is within reach, or there is none.
fn is_entry_in_reach(store: &Store, func: Option<u32>) -> bool
    ensures yes { IsTrue result → IsEntryInReach store.now func }
    ensures no { result ≡ false → IsEntryOutOfReach store.now func }
{
    match func {
        Some(address) => is_in_reach(store, address),
        None => true,
    }
}

/// Sets an entry of a table.
fn set_entry(alloc: Global, tables: &mut List<TableInst>, t: u32, at: usize, func: Option<u32>)
    requires { (table : TableInst) × (slice_get tables.old t ≡ Some table) × (at < length table.entries) }
    ensures { (table : TableInst) → slice_get tables.old t ≡ Some table → tables.new ≡ slice_set tables.old t (record table { entries = slice_set table.entries at func }) }
{
    let mut all = mem::replace(tables, List::new(alloc)).into_vec();
    all[t as usize].entries.set(at, func);
    *tables = List::from_vec(all);
}

fn write_entry(
    alloc: Global,
    store: &mut Store,
    table: u32,
    at: u32,
    func: Option<u32>,
) -> Result<(), HostFault>
    requires { StoreTyped store.old }
    ensures { (policy : Policy) → WriteAnswers policy store.old (HostAct.Entry table at func) store.new result }
{
    if !is_in_pool(store, Extern::Table(table)) {
        return Err(HostFault::NotExported);
    }
    if !is_entry_in_reach(store, func) {
        return Err(HostFault::NotExported);
    }
    if at as usize >= store.tables.as_slice()[table as usize].entries.len() {
        return Err(HostFault::Bounds);
    }
    set_entry(alloc, &mut store.tables, table, at as usize, func);
    Ok(())
}

fn grow(
    alloc: Global,
    store: &mut Store,
    memory: u32,
    pages: u32,
    policy: &Policy,
) -> Result<(), HostFault>
    requires { StoreTyped store.old }
    ensures { WriteAnswers policy.now store.old (HostAct.Grow memory pages) store.new result }
{
    if !is_in_pool(store, Extern::Memory(memory)) {
        return Err(HostFault::NotExported);
    }
    if !lets_grow(policy, store.memories.as_slice(), memory, pages) {
        return Err(HostFault::Limit);
    }
    match grow_memory(alloc, &mut store.memories, memory, pages) {
        Ok(()) => Ok(()),
        Err(_) => Err(HostFault::OutOfMemory),
    }
}

/// Whether so many more entries stay within a table's maximum.
fn stay_within_maximum(count: usize, more: u32, max: Option<u32>) -> bool
    ensures { result ≡ is_at_most (count + more) max }
{
    match max {
        Some(max) => count <= max as usize && more as usize <= max as usize - count,
        None => true,
    }
}

/// Whether so many more entries stay within the limit of the store.
fn stay_within_store(tables: &[TableInst], more: u32) -> bool
    ensures { result ≡ nat_le (sum_by (λ (t : TableInst). length t.entries) tables.now + more) 1000000 }
{
    let total = entries_in(tables);
    total <= MAX_ENTRIES && more as u64 <= MAX_ENTRIES - total
}

/// Whether a table may grow by so many entries.
fn lets_grow_table(store: &Store, table: &TableInst, entries: u32) -> bool
    ensures { result ≡ lets_grow_table store.now table.now entries }
{
    stay_within_maximum(table.entries.len(), entries, table.max)
        && stay_within_store(store.tables.as_slice(), entries)
}

/// Adds empty entries.
fn add_empty(entries: &mut List<Option<u32>>, count: usize) -> Result<(), OutOfMemory>
    ensures ok { OnOk result (entries.new ≡ entries.old ++ replicate count None) }
    ensures err { OnErr result (entries.new ≡ entries.old) }
{
    let old = entries.len();
    for _ in 0..count {
        if let Err(fault) = entries.push(None) {
            entries.truncate(old);
            return Err(fault);
        }
    }
    Ok(())
}

/// Adds empty entries to a table.
fn add_entries(
    alloc: Global,
    tables: &mut List<TableInst>,
    t: u32,
    entries: u32,
) -> Result<(), OutOfMemory>
    requires { (table : TableInst) × (slice_get tables.old t ≡ Some table) }
    ensures ok { OnOk result ((table : TableInst) → slice_get tables.old t ≡ Some table → tables.new ≡ slice_set tables.old t (record table { entries = table.entries ++ replicate entries None })) }
    ensures err { OnErr result (tables.new ≡ tables.old) }
{
    let mut all = mem::replace(tables, List::new(alloc)).into_vec();
    let grown = add_empty(&mut all[t as usize].entries, entries as usize);
    *tables = List::from_vec(all);
    grown
}

fn grow_table(alloc: Global, store: &mut Store, table: u32, entries: u32) -> Result<(), HostFault>
    requires { StoreTyped store.old }
    ensures { (policy : Policy) → WriteAnswers policy store.old (HostAct.GrowTable table entries) store.new result }
{
    if !is_in_pool(store, Extern::Table(table)) {
        return Err(HostFault::NotExported);
    }
    if !lets_grow_table(store, &store.tables.as_slice()[table as usize], entries) {
        return Err(HostFault::Limit);
    }
    match add_entries(alloc, &mut store.tables, table, entries) {
        Ok(()) => Ok(()),
        Err(_) => Err(HostFault::OutOfMemory),
    }
}

/// Makes the write that an act names.
pub(crate) fn write(
    alloc: Global,
    store: &mut Store,
    act: &HostAct,
    policy: &Policy,
) -> Result<(), HostFault>
    requires typed { StoreTyped store.old }
    requires write { IsTrue (is_write act.now) }
    ensures { WriteAnswers policy.now store.old act.now store.new result }
{
    match act {
        HostAct::Byte { memory, at, value } => write_byte(alloc, store, *memory, *at, *value),
        HostAct::Global { global, value } => write_global(store, *global, *value),
        HostAct::Entry { table, at, func } => write_entry(alloc, store, *table, *at, *func),
        HostAct::Grow { memory, pages } => grow(alloc, store, *memory, *pages, policy),
        HostAct::GrowTable { table, entries } => grow_table(alloc, store, *table, *entries),
        _ => unreachable!(),
    }
}
