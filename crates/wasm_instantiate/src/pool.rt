//! What a host or the embedder can lay hands on.

ghost use Rattle.std.specs.Prelude.{◌≡◌, ℕ, ◌↔◌, slice_get, Some, IsTrue};
ghost use Rattle.wasm_store.specs.declared.store.Extern.{Extern};
ghost use Rattle.wasm_sessions.specs.Pool.{IsExported, IsHostFunc, InPool, InReach};
ghost use Rattle.wasm_instantiate.specs.words.Finding.{IsAmong, Shares, IsSharedBy, Reaches, ReachesAmong, IsReached};

use wasm_store::{Extern, FuncInst, Instance, Store};
use wasm_values::Text;

/// Whether two externs are the same.
fn is_same(a: Extern, b: Extern) -> bool
    ensures { IsTrue result ↔ (a ≡ b) }
{
    match (a, b) {
        (Extern::Func(x), Extern::Func(y)) => x == y,
        (Extern::Table(x), Extern::Table(y)) => x == y,
        (Extern::Memory(x), Extern::Memory(y)) => x == y,
        (Extern::Global(x), Extern::Global(y)) => x == y,
        _ => false,
    }
}

/// Whether an extern is among these exports.
fn is_among(exports: &[(Text, Extern)], wanted: Extern) -> bool
    ensures { IsTrue result ↔ IsAmong exports.now wanted }
{
    for export in exports {
        if is_same(export.1, wanted) {
            return true;
        }
    }
    false
}

/// Whether some instance exports an extern.
fn is_exported(store: &Store, wanted: Extern) -> bool
    ensures { IsTrue result ↔ IsExported store.now wanted }
{
    for instance in store.instances.as_slice() {
        if is_among(instance.exports.as_slice(), wanted) {
            return true;
        }
    }
    false
}

/// Whether an extern is a function of a host.
fn is_host_func(store: &Store, wanted: Extern) -> bool
    ensures { IsTrue result ↔ IsHostFunc store.now wanted }
{
    match wanted {
        Extern::Func(address) => {
            matches!(
                store.funcs.as_slice().get(address as usize),
                Some(FuncInst::Host { .. })
            )
        }
        _ => false,
    }
}

/// Whether an extern is in the pool.
pub fn is_in_pool(store: &Store, wanted: Extern) -> bool
    ensures { IsTrue result ↔ InPool store.now wanted }
{
    is_exported(store, wanted) || is_host_func(store, wanted)
}

/// Whether a function's address is among these.
fn is_named(addresses: &[u32], wanted: u32) -> bool
    ensures { IsTrue result ↔ ((place : ℕ) × (slice_get addresses.now place ≡ Some wanted)) }
{
    for address in addresses {
        if *address == wanted {
            return true;
        }
    }
    false
}

/// Whether an instance has a table, and its element segments name a function.
fn shares(instance: &Instance, table: u32, address: u32) -> bool
    ensures { IsTrue result ↔ Shares instance.now table address }
{
    match instance.tables.as_slice().first() {
        Some(own) => *own == table && is_named(instance.elems.as_slice(), address),
        None => false,
    }
}

/// Whether the element segments of some instance with a table name a function.
fn is_shared_by(store: &Store, table: u32, address: u32) -> bool
    ensures { IsTrue result ↔ IsSharedBy store.now table address }
{
    for instance in store.instances.as_slice() {
        if shares(instance, table, address) {
            return true;
        }
    }
    false
}

/// Whether what is exported brings a function within reach: it is that function, or a table that shares it.
fn reaches(store: &Store, export: Extern, address: u32) -> bool
    ensures { IsTrue result ↔ Reaches store.now export address }
{
    match export {
        Extern::Func(own) => own == address,
        Extern::Table(table) => is_shared_by(store, table, address),
        Extern::Memory(_) => false,
        Extern::Global(_) => false,
    }
}

/// Whether one of these exports brings a function within reach.
fn some_reaches(store: &Store, exports: &[(Text, Extern)], address: u32) -> bool
    ensures { IsTrue result ↔ ReachesAmong store.now exports.now address }
{
    for export in exports {
        if reaches(store, export.1, address) {
            return true;
        }
    }
    false
}

/// Whether an export of some instance brings a function within reach. Each export is looked at once.
fn is_reached(store: &Store, address: u32) -> bool
    ensures { IsTrue result ↔ IsReached store.now address }
{
    for instance in store.instances.as_slice() {
        if some_reaches(store, instance.exports.as_slice(), address) {
            return true;
        }
    }
    false
}

/// Whether a function is within reach.
pub fn is_in_reach(store: &Store, address: u32) -> bool
    ensures { IsTrue result ↔ InReach store.now address }
{
    is_reached(store, address) || is_host_func(store, Extern::Func(address))
}
