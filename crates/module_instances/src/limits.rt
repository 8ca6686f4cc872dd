//! How large a store may become.

ghost use Rattle.std.specs.Prelude.{◌≡◌, ℕ, ◌+◌, ◌<◌, nat_le, min, length, sum_by};
ghost use Rattle.wasm_syntax.specs.declared.module.Limits.{Limits};
ghost use Rattle.wasm_store.specs.declared.store.TableInst.{TableInst};
ghost use Rattle.wasm_store.specs.Memory.{pages_of};
ghost use Rattle.module_instances.specs.words.Building.{stays_within};

use wasm_reduce::Policy;
use wasm_store::{MemInst, Store, TableInst};
use wasm_syntax::{Limits, Module};

/// The greatest number of functions, tables, memories, globals or instances.
const MAX_ADDRESSES: usize = 4_294_967_295;

/// The greatest number of table entries of a store.
const MAX_ENTRIES: u64 = 1_000_000;

/// The pages of all these memories, or the greatest number where there are more.
fn pages_in(memories: &[MemInst]) -> u64
    ensures { result ≡ min (sum_by pages_of memories.now) 18446744073709551615 }
{
    let mut pages: u64 = 0;
    for memory in memories {
        pages = pages.saturating_add((memory.bytes.len() / 65_536) as u64);
    }
    pages
}

/// The entries of all these tables, or the greatest number where there are more.
pub fn entries_in(tables: &[TableInst]) -> u64
    ensures { result ≡ min (sum_by (λ (t : TableInst). length t.entries) tables.now) 18446744073709551615 }
{
    let mut entries: u64 = 0;
    for table in tables {
        entries = entries.saturating_add(table.entries.len() as u64);
    }
    entries
}

/// The least sizes of all these limits, or the greatest number where they are more.
fn sizes_in(all: &[Limits]) -> u64
    ensures { result ≡ min (sum_by (λ (l : Limits). l.min) all.now) 18446744073709551615 }
{
    let mut sizes: u64 = 0;
    for limits in all {
        sizes = sizes.saturating_add(limits.min as u64);
    }
    sizes
}

/// Whether so many more can have addresses.
fn are_addresses(count: usize, more: usize) -> bool
    ensures { result ≡ nat_le (count + more) 4294967295 }
{
    count <= MAX_ADDRESSES && more <= MAX_ADDRESSES - count
}

/// Whether a store stays within the limits if what a module defines is added.
pub(crate) fn stays_within(store: &Store, module: &Module, policy: &Policy) -> bool
    ensures { result ≡ stays_within policy.now store.now «module».now }
{
    let pages = pages_in(store.memories.as_slice()).saturating_add(sizes_in(
        module.memories.as_slice(),
    ));
    let entries = entries_in(store.tables.as_slice()).saturating_add(sizes_in(
        module.tables.as_slice(),
    ));
    pages <= policy.pages as u64
        && entries <= MAX_ENTRIES
        && are_addresses(store.funcs.len(), module.funcs.len())
        && are_addresses(store.tables.len(), module.tables.len())
        && are_addresses(store.memories.len(), module.memories.len())
        && are_addresses(store.globals.len(), module.globals.len())
        && are_addresses(store.instances.len(), 1)
}
