//! What a store and a frame name.

ghost use Rattle.std.specs.Prelude.{◌≡◌, ℕ, ◌≤◌, length, slice_get, Some, option_and_then};
ghost use Rattle.wasm_syntax.specs.FlatForm.{flat_body};
ghost use Rattle.wasm_syntax.specs.Places.{IsNext};
ghost use Rattle.wasm_store.specs.Configuration.{address_in};
ghost use Rattle.wasm_store.specs.Control.{entry_at};
ghost use Rattle.wasm_reduce.specs.words.Effects.{body_in};

use wasm_store::{CodeFrame, GlobalInst, Store, TableInst};
use wasm_syntax::Next;
use wasm_values::Val;

/// What comes next in a frame. Past the end of its code nothing is left.
pub fn next_in<'a>(store: &'a Store, frame: &CodeFrame) -> Next<'a>
    ensures next { IsNext (body_in store.now frame.now) frame.now.position result }
    ensures short { length (flat_body (body_in store.now frame.now)) ≤ 4294967295 }
{
    match store.func_at(frame.func) {
        Some(func) => {
            let position = frame.position as usize;
            if position < func.body.len() {
                func.body.next(position)
            } else {
                Next::End
            }
        }
        None => Next::End,
    }
}

/// The address of an instance's function.
pub fn func_address(store: &Store, instance: u32, x: u32) -> u32
    requires { (a : ℕ) × (address_in (λ i. i.funcs) (slice_get store.now.instances instance) x ≡ Some a) }
    ensures { address_in (λ i. i.funcs) (slice_get store.now.instances instance) x ≡ Some result }
{
    let found = &store.instances.as_slice()[instance as usize];
    found.funcs.as_slice()[x as usize]
}

/// The address of an instance's global.
pub fn global_address(store: &Store, instance: u32, x: u32) -> u32
    requires { (a : ℕ) × (address_in (λ i. i.globals) (slice_get store.now.instances instance) x ≡ Some a) }
    ensures { address_in (λ i. i.globals) (slice_get store.now.instances instance) x ≡ Some result }
{
    let found = &store.instances.as_slice()[instance as usize];
    found.globals.as_slice()[x as usize]
}

/// The address of an instance's memory.
pub fn memory_address(store: &Store, instance: u32) -> u32
    requires { (a : ℕ) × (address_in (λ i. i.memories) (slice_get store.now.instances instance) 0 ≡ Some a) }
    ensures { address_in (λ i. i.memories) (slice_get store.now.instances instance) 0 ≡ Some result }
{
    let found = &store.instances.as_slice()[instance as usize];
    found.memories.as_slice()[0]
}

/// A local of a frame.
pub fn local(locals: &[Val], x: u32) -> Val
    requires { (v : Val) × (slice_get locals.now x ≡ Some v) }
    ensures { slice_get locals.now x ≡ Some result }
{
    locals[x as usize]
}

/// The global at an address.
pub fn global(store: &Store, a: u32) -> GlobalInst
    requires { (g : GlobalInst) × (slice_get store.now.globals a ≡ Some g) }
    ensures { slice_get store.now.globals a ≡ Some result }
{
    store.globals.as_slice()[a as usize]
}

/// The function in an entry of a table, if there is one.
pub fn entry_at(table: &TableInst, i: u32) -> Option<u32>
    ensures { result ≡ entry_at table.now i }
{
    match table.entries.as_slice().get(i as usize) {
        Some(entry) => *entry,
        None => None,
    }
}
