//! New parts are put into a store.

ghost use Rattle.std.specs.Prelude.{◌≡◌, ℕ, ◌<◌, ◌++◌, length, take, slice_get, Some, IfOk, IfSome, OnOk, OnErr, All, IsTrue};
ghost use Rattle.wasm_typing.specs.Valid.{ElemValid, SegmentValid};
ghost use Rattle.wasm_store.specs.declared.store.Instance.{Instance};
ghost use Rattle.type_safety.specs.Stores.{StoreTyped};
ghost use Rattle.wasm_sessions.specs.Instantiation.{segments_fit, initialized};
ghost use Rattle.module_instances.specs.words.Putting.{with_parts, sizes_of, cut_to, Begins};

use crate::writes::{write_elems, write_segments};
use std::alloc;
use wasm_store::{Frame, FuncInst, GlobalInst, Instance, MemInst, Store, TableInst, make_frame};
use wasm_syntax::Module;
use wasm_values::{List, OutOfMemory};

/// What an instantiation adds to a store, and the address of the start function.
#[derive(Drop)]
pub(crate) struct Parts {
    pub funcs: List<FuncInst>,
    pub tables: List<TableInst>,
    pub memories: List<MemInst>,
    pub globals: List<GlobalInst>,
    pub instance: Instance,
    pub start: Option<u32>,
}

/// How many functions, tables, memories, globals and instances a store has.
#[derive(Clone, Copy)]
pub(crate) struct Sizes {
    pub funcs: usize,
    pub tables: usize,
    pub memories: usize,
    pub globals: usize,
    pub instances: usize,
}

fn sizes_of(store: &Store) -> Sizes
    ensures { result ≡ sizes_of store.now }
{
    Sizes {
        funcs: store.funcs.len(),
        tables: store.tables.len(),
        memories: store.memories.len(),
        globals: store.globals.len(),
        instances: store.instances.len(),
    }
}

/// Takes away all that lies past these sizes.
fn cut_to(store: &mut Store, sizes: Sizes)
    ensures { store.new ≡ cut_to sizes store.old }
{
    store.funcs.truncate(sizes.funcs);
    store.tables.truncate(sizes.tables);
    store.memories.truncate(sizes.memories);
    store.globals.truncate(sizes.globals);
    store.instances.truncate(sizes.instances);
}

/// Adds items at the end. After a refusal some of them may be there.
fn append<T: Drop>(list: &mut List<T>, more: List<T>) -> Result<(), OutOfMemory>
    ensures ok { OnOk result (list.new ≡ list.old ++ more) }
    ensures err { OnErr result (take (length list.old) list.new ≡ list.old) }
{
    for item in more.into_vec() {
        list.push(item)?;
    }
    Ok(())
}

/// Puts new parts into a store. After a refusal some of them may be there.
fn put(store: &mut Store, parts: Parts) -> Result<(), OutOfMemory>
    ensures ok { OnOk result (store.new ≡ with_parts store.old parts) }
    ensures err { OnErr result (cut_to (sizes_of store.old) store.new ≡ store.old) }
{
    let Parts {
        funcs,
        tables,
        memories,
        globals,
        instance,
        start: _,
    } = parts;
    append(&mut store.funcs, funcs)?;
    append(&mut store.tables, tables)?;
    append(&mut store.memories, memories)?;
    append(&mut store.globals, globals)?;
    store.instances.push(instance)
}

/// The frame of the function at this address, if there is one, entered with nothing.
fn first_frames(
    alloc: alloc::Global,
    store: &Store,
    start: Option<u32>,
) -> Result<List<Frame>, OutOfMemory>
    requires typed { StoreTyped store.now }
    requires exists { IfSome start (λ a. a < length store.now.funcs) }
    ensures { IfOk result (Begins store.now start) }
{
    match start {
        None => Ok(List::new(alloc)),
        Some(address) => {
            let frame = make_frame(alloc, store, address, List::new(alloc))?;
            let mut frames = List::new(alloc);
            frames.push(frame)?;
            Ok(frames)
        }
    }
}

/// Puts new parts into a store, and makes the frame that begins. After a refusal some parts may be there.
fn put_with_frames(
    alloc: alloc::Global,
    store: &mut Store,
    parts: Parts,
) -> Result<List<Frame>, OutOfMemory>
    requires typed { StoreTyped (with_parts store.old parts) }
    requires exists { IfSome parts.start (λ a. a < length (store.old.funcs ++ parts.funcs)) }
    ensures ok { OnOk result (store.new ≡ with_parts store.old parts) }
    ensures frames { IfOk result (Begins (with_parts store.old parts) parts.start) }
    ensures err { OnErr result (cut_to (sizes_of store.old) store.new ≡ store.old) }
{
    let start = parts.start;
    put(store, parts)?;
    first_frames(alloc, store, start)
}

/// Writes the segments of a module, whose instance has this number.
fn initialize(alloc: alloc::Global, store: &mut Store, number: usize, module: &Module)
    requires there { number < length store.old.instances }
    requires elems { All (ElemValid «module».now) «module».now.elems }
    requires segments { All (SegmentValid «module».now) «module».now.segments }
    requires fits { (i : Instance) → slice_get store.old.instances number ≡ Some i → IsTrue (segments_fit store.old i «module».now) }
    ensures { (i : Instance) → slice_get store.old.instances number ≡ Some i → store.new ≡ initialized store.old i «module».now }
{
    let instance = &store.instances.as_slice()[number];
    write_elems(
        alloc,
        &mut store.tables,
        store.globals.as_slice(),
        instance,
        module.elems.as_slice(),
    );
    write_segments(
        alloc,
        &mut store.memories,
        store.globals.as_slice(),
        instance,
        module.segments.as_slice(),
    );
}

/// Puts new parts into a store, writes the segments, and makes the frame that begins.
pub(crate) fn extend(
    alloc: alloc::Global,
    store: &mut Store,
    parts: Parts,
    module: &Module,
) -> Result<List<Frame>, OutOfMemory>
    requires typed { StoreTyped (with_parts store.old parts) }
    requires exists { IfSome parts.start (λ a. a < length (store.old.funcs ++ parts.funcs)) }
    requires elems { All (ElemValid «module».now) «module».now.elems }
    requires segments { All (SegmentValid «module».now) «module».now.segments }
    requires fits { IsTrue (segments_fit (with_parts store.old parts) parts.instance «module».now) }
    ensures ok { OnOk result (store.new ≡ initialized (with_parts store.old parts) parts.instance «module».now) }
    ensures frames { IfOk result (Begins (with_parts store.old parts) parts.start) }
    ensures err { OnErr result (store.new ≡ store.old) }
{
    let sizes = sizes_of(store);
    match put_with_frames(alloc, store, parts) {
        Ok(frames) => {
            initialize(alloc, store, sizes.instances, module);
            Ok(frames)
        }
        Err(fault) => {
            cut_to(store, sizes);
            Err(fault)
        }
    }
}
