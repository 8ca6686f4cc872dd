//! Which externs match which imports (section 4.5.2).

ghost use Rattle.std.specs.Prelude.{◌≡◌, length, slice_get, MatchOption};
ghost use Rattle.std.specs.Option.{option_copied};
ghost use Rattle.wasm_sessions.specs.Matching.{is_func_of_type, is_max_within, is_size_within, is_table_within, is_memory_within, is_same_flag, is_global_of_type, does_match, MatchImports};
ghost use Rattle.module_instances.specs.Refusals.{IsFirstMismatch};

use wasm_store::{Extern, FuncInst, Store, is_same_func_type};
use wasm_syntax::{FuncType, GlobalType, ImportKind, Limits, Module};
use wasm_values::is_same_type;

fn is_func_of_type(func: Option<&FuncInst>, wanted: Option<&FuncType>) -> bool
    ensures { result ≡ is_func_of_type (option_copied func.entry) (option_copied wanted.entry) }
{
    match (func, wanted) {
        (Some(FuncInst::Code { ty, .. } | FuncInst::Host { ty }), Some(wanted)) => {
            is_same_func_type(ty, wanted)
        }
        _ => false,
    }
}

fn is_max_within(max: Option<u32>, wanted: Option<u32>) -> bool
    ensures { result ≡ is_max_within max wanted }
{
    match wanted {
        None => true,
        Some(wanted) => match max {
            None => false,
            Some(max) => max <= wanted,
        },
    }
}

fn is_size_within(size: usize, max: Option<u32>, wanted: Limits) -> bool
    ensures { result ≡ is_size_within size max wanted }
{
    wanted.min as usize <= size && is_max_within(max, wanted.max)
}

fn is_table_within(store: &Store, address: u32, wanted: Limits) -> bool
    ensures { result ≡ is_table_within (slice_get store.now.tables address) wanted }
{
    match store.tables.as_slice().get(address as usize) {
        Some(table) => is_size_within(table.entries.len(), table.max, wanted),
        None => false,
    }
}

fn is_memory_within(store: &Store, address: u32, wanted: Limits) -> bool
    ensures { result ≡ is_memory_within (slice_get store.now.memories address) wanted }
{
    match store.memories.as_slice().get(address as usize) {
        Some(memory) => is_size_within(memory.bytes.len() / 65_536, memory.max, wanted),
        None => false,
    }
}

fn is_same_flag(a: bool, b: bool) -> bool
    ensures { result ≡ is_same_flag a b }
{
    a == b
}

fn is_global_of_type(store: &Store, address: u32, wanted: GlobalType) -> bool
    ensures { result ≡ is_global_of_type (slice_get store.now.globals address) wanted }
{
    match store.globals.as_slice().get(address as usize) {
        Some(global) => {
            is_same_type(global.ty.value, wanted.value)
                && is_same_flag(global.ty.mutable, wanted.mutable)
        }
        None => false,
    }
}

fn does_match(store: &Store, types: &[FuncType], given: Extern, wanted: ImportKind) -> bool
    ensures { result ≡ does_match store.now types.now given wanted }
{
    match (given, wanted) {
        (Extern::Func(address), ImportKind::Func(ty)) => is_func_of_type(
            store.funcs.as_slice().get(address as usize),
            types.get(ty as usize),
        ),
        (Extern::Table(address), ImportKind::Table(limits)) => {
            is_table_within(store, address, limits)
        }
        (Extern::Memory(address), ImportKind::Memory(limits)) => {
            is_memory_within(store, address, limits)
        }
        (Extern::Global(address), ImportKind::Global(ty)) => is_global_of_type(store, address, ty),
        _ => false,
    }
}

/// The place of the first extern that doesn't match its import, or `None` where all match.
pub(crate) fn find_mismatch(store: &Store, module: &Module, externs: &[Extern]) -> Option<usize>
    requires { length externs.now ≡ length «module».now.imports }
    ensures { MatchOption result (MatchImports store.now «module».now externs.now) (IsFirstMismatch store.now «module».now externs.now) }
{
    for (k, given) in externs.iter().enumerate() {
        let kind = module.imports.as_slice()[k].kind;
        if !does_match(store, module.types.as_slice(), *given, kind) {
            return Some(k);
        }
    }
    None
}
