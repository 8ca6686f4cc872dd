//! Segments: whether they lie in bounds, and how they are written (section 4.5.4).

ghost use Rattle.std.specs.Prelude.{◌≡◌, ℕ, ◌+◌, ◌<◌, ◌&&◌, nat_le, ◌++◌, length, map, slice_get, slice_index, All};
ghost use Rattle.std.specs.List.{range_with_len, list_all};
ghost use Rattle.wasm_typing.specs.Valid.{ElemValid, SegmentValid};
ghost use Rattle.wasm_sessions.specs.Instantiation.{made_table, made_memory, has_entries, has_bytes};
ghost use Rattle.module_instances.specs.words.Building.{IsBefore, elem_fits_before, segment_fits_before};

use crate::constants::value_with;
use crate::numbering::Numbering;
use wasm_store::{GlobalInst, MemInst, Store, TableInst};
use wasm_syntax::{Elem, Limits, Module, Segment};

/// Whether so many items lie in so large a table or memory, from a place on.
fn fits(at: u64, count: usize, size: usize) -> bool
    ensures { result ≡ nat_le (at + count) size }
{
    let size = size as u64;
    let count = count as u64;
    at <= size && count <= size - at
}

/// How many entries a table has that is imported, or is to be made.
fn table_size(tables: &[TableInst], made: &[Limits], imported: &[u32], index: u32) -> usize
    requires there { All (λ a. a < length tables.now) imported.now }
    requires within { index < length imported.now + length made.now }
    ensures { (count : ℕ) → has_entries (slice_get (tables.now ++ map made_table made.now) (slice_index (imported.now ++ range_with_len (length tables.now) (length made.now)) index)) count ≡ nat_le count result }
{
    let index = index as usize;
    if index < imported.len() {
        return tables[imported[index] as usize].entries.len();
    }
    made[index - imported.len()].min as usize
}

/// How many bytes a memory has that is imported, or is to be made.
fn memory_size(memories: &[MemInst], made: &[Limits], imported: &[u32], index: u32) -> usize
    requires there { All (λ a. a < length memories.now) imported.now }
    requires within { index < length imported.now + length made.now }
    ensures { (count : ℕ) → has_bytes (slice_get (memories.now ++ map made_memory made.now) (slice_index (imported.now ++ range_with_len (length memories.now) (length made.now)) index)) count ≡ nat_le count result }
{
    let index = index as usize;
    if index < imported.len() {
        return memories[imported[index] as usize].bytes.len();
    }
    65_536 * made[index - imported.len()].min as usize
}

/// Whether an element segment would lie in its table.
fn elem_fits(
    store: &Store,
    module: &Module,
    imported: &Numbering,
    globals: &[GlobalInst],
    elem: &Elem,
) -> bool
    requires before { IsBefore store.now «module».now imported.now globals.now }
    requires valid { ElemValid «module».now elem.now }
    ensures { result ≡ elem_fits_before store.now «module».now imported.now globals.now elem.now }
{
    let size = table_size(
        store.tables.as_slice(),
        module.tables.as_slice(),
        imported.tables.as_slice(),
        elem.table,
    );
    let offset = value_with(
        store.globals.as_slice(),
        globals,
        imported.globals.as_slice(),
        elem.offset.as_slice(),
    );
    fits(offset.number(), elem.funcs.len(), size)
}

/// Whether a data segment would lie in its memory.
fn segment_fits(
    store: &Store,
    module: &Module,
    imported: &Numbering,
    globals: &[GlobalInst],
    segment: &Segment,
) -> bool
    requires before { IsBefore store.now «module».now imported.now globals.now }
    requires valid { SegmentValid «module».now segment.now }
    ensures { result ≡ segment_fits_before store.now «module».now imported.now globals.now segment.now }
{
    let size = memory_size(
        store.memories.as_slice(),
        module.memories.as_slice(),
        imported.memories.as_slice(),
        segment.memory,
    );
    let offset = value_with(
        store.globals.as_slice(),
        globals,
        imported.globals.as_slice(),
        segment.offset.as_slice(),
    );
    fits(offset.number(), segment.bytes.len(), size)
}

fn elems_fit(store: &Store, module: &Module, imported: &Numbering, globals: &[GlobalInst]) -> bool
    requires before { IsBefore store.now «module».now imported.now globals.now }
    requires valid { All (ElemValid «module».now) «module».now.elems }
    ensures { result ≡ list_all (elem_fits_before store.now «module».now imported.now globals.now) «module».now.elems }
{
    for elem in module.elems.as_slice() {
        if !elem_fits(store, module, imported, globals, elem) {
            return false;
        }
    }
    true
}

fn data_fits(store: &Store, module: &Module, imported: &Numbering, globals: &[GlobalInst]) -> bool
    requires before { IsBefore store.now «module».now imported.now globals.now }
    requires valid { All (SegmentValid «module».now) «module».now.segments }
    ensures { result ≡ list_all (segment_fits_before store.now «module».now imported.now globals.now) «module».now.segments }
{
    for segment in module.segments.as_slice() {
        if !segment_fits(store, module, imported, globals, segment) {
            return false;
        }
    }
    true
}

/// Whether all segments would lie in their tables and memories, before these are made.
pub(crate) fn segments_fit(
    store: &Store,
    module: &Module,
    imported: &Numbering,
    globals: &[GlobalInst],
) -> bool
    requires before { IsBefore store.now «module».now imported.now globals.now }
    requires elems { All (ElemValid «module».now) «module».now.elems }
    requires segments { All (SegmentValid «module».now) «module».now.segments }
    ensures { result ≡ (list_all (elem_fits_before store.now «module».now imported.now globals.now) «module».now.elems && list_all (segment_fits_before store.now «module».now imported.now globals.now) «module».now.segments) }
{
    elems_fit(store, module, imported, globals) && data_fits(store, module, imported, globals)
}
