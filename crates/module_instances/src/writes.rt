//! Segments are written (section 4.5.4, steps 13 and 14). This takes no memory.

ghost use Rattle.std.specs.Prelude.{◌≡◌, ◌+◌, ◌≤◌, length, map, fold, slice_index, Some, All, IsTrue};
ghost use Rattle.std.specs.List.{list_all};
ghost use Rattle.wasm_syntax.specs.declared.module.Elem.{Elem};
ghost use Rattle.wasm_syntax.specs.declared.module.Segment.{Segment};
ghost use Rattle.wasm_store.specs.Memory.{overwritten};
ghost use Rattle.module_instances.specs.words.Building.{HasConstOffset, elem_fits_in, segment_fits_in, tables_written, memories_written};

use crate::constants::value_of;
use crate::instances::address_of;
use std::{alloc, mem};
use wasm_store::{GlobalInst, Instance, MemInst, TableInst};
use wasm_syntax::{Elem, Segment};
use wasm_values::{Bytes, List};

/// Sets entries from a place on to the addresses of functions with these numbers.
fn write_entries(entries: &mut List<Option<u32>>, at: usize, funcs: &List<u32>, numbers: &[u32])
    requires { at + length numbers.now ≤ length entries.old }
    ensures { entries.new ≡ overwritten entries.old at (map (λ x. Some (slice_index funcs.now x)) numbers.now) }
{
    let _len = entries.len();
    for (k, number) in numbers.iter().enumerate() {
        entries.set(at + k, Some(address_of(funcs, *number)));
    }
}

/// Sets bytes from a place on.
fn write_bytes(bytes: &mut Bytes, at: usize, others: &[u8])
    requires { at + length others.now ≤ length bytes.old }
    ensures { bytes.new ≡ overwritten bytes.old at others.now }
{
    let _len = bytes.len();
    for (k, byte) in others.iter().enumerate() {
        bytes.set(at + k, *byte);
    }
}

/// Writes an element segment.
fn write_elem(
    alloc: alloc::Global,
    tables: &mut List<TableInst>,
    globals: &[GlobalInst],
    instance: &Instance,
    elem: &Elem,
)
    requires constant { HasConstOffset elem.now.offset }
    requires fits { IsTrue (elem_fits_in tables.old globals.now instance.now.tables instance.now.globals elem.now) }
    ensures { tables.new ≡ tables_written instance.now globals.now tables.old elem.now }
{
    let offset = value_of(globals, instance.globals.as_slice(), elem.offset.as_slice());
    let address = address_of(&instance.tables, elem.table);
    let mut all = mem::replace(tables, List::new(alloc)).into_vec();
    let table = &mut all[address as usize];
    write_entries(
        &mut table.entries,
        offset.number() as usize,
        &instance.funcs,
        elem.funcs.as_slice(),
    );
    *tables = List::from_vec(all);
}

/// Writes a data segment.
fn write_segment(
    alloc: alloc::Global,
    memories: &mut List<MemInst>,
    globals: &[GlobalInst],
    instance: &Instance,
    segment: &Segment,
)
    requires constant { HasConstOffset segment.now.offset }
    requires fits { IsTrue (segment_fits_in memories.old globals.now instance.now.memories instance.now.globals segment.now) }
    ensures { memories.new ≡ memories_written instance.now globals.now memories.old segment.now }
{
    let offset = value_of(
        globals,
        instance.globals.as_slice(),
        segment.offset.as_slice(),
    );
    let address = address_of(&instance.memories, segment.memory);
    let mut all = mem::replace(memories, List::new(alloc)).into_vec();
    let memory = &mut all[address as usize];
    write_bytes(
        &mut memory.bytes,
        offset.number() as usize,
        segment.bytes.as_slice(),
    );
    *memories = List::from_vec(all);
}

/// Writes element segments, in their order.
pub(crate) fn write_elems(
    alloc: alloc::Global,
    tables: &mut List<TableInst>,
    globals: &[GlobalInst],
    instance: &Instance,
    elems: &[Elem],
)
    requires constant { All (λ (e : Elem). HasConstOffset e.offset) elems.now }
    requires fits { IsTrue (list_all (elem_fits_in tables.old globals.now instance.now.tables instance.now.globals) elems.now) }
    ensures { tables.new ≡ fold (tables_written instance.now globals.now) tables.old elems.now }
{
    for elem in elems {
        write_elem(alloc, tables, globals, instance, elem);
    }
}

/// Writes data segments, in their order.
pub(crate) fn write_segments(
    alloc: alloc::Global,
    memories: &mut List<MemInst>,
    globals: &[GlobalInst],
    instance: &Instance,
    segments: &[Segment],
)
    requires constant { All (λ (e : Segment). HasConstOffset e.offset) segments.now }
    requires fits { IsTrue (list_all (segment_fits_in memories.old globals.now instance.now.memories instance.now.globals) segments.now) }
    ensures { memories.new ≡ fold (memories_written instance.now globals.now) memories.old segments.now }
{
    for segment in segments {
        write_segment(alloc, memories, globals, instance, segment);
    }
}
