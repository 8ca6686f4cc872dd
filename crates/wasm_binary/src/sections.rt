ghost use Rattle.std.specs.Prelude.{◌≡◌, ◌≤◌, ◌-◌, ◌<◌, ◌^◌, ℕ, List, [], length, IfOk};
ghost use Rattle.binary_grammar.specs.Bounds.{the_bounds};
ghost use Rattle.binary_grammar.specs.words.Reading.{Gives, place, entries_at};
ghost use Rattle.binary_grammar.specs.words.TypeReading.{table_type_at, limits_at};
ghost use Rattle.binary_grammar.specs.words.SectionReading.{global_at, elem_at, segment_at, custom_at, bodies_at, types_at, imports_at, funcs_at, tables_at, memories_at, globals_at, exports_at, start_at, elems_at, segments_at, contents_at, id_at, section_at};

use crate::code::read_instrs;
use crate::entries::{Entry, read_entries, read_limited, read_list, read_vector};
use crate::read::{
    malformed, own_bytes, place, read_byte, read_bytes, read_end, read_name, read_number,
    read_region,
};
use crate::types::{read_global_type, read_limits, read_table_type};
use binary_grammar::{DecodeFault, DecodeWord, Section};
use std::alloc::Global;
use wasm_syntax::{Elem, Limits, MAX_ITEMS, Segment};
use wasm_values::{LimitWord, List};

const MAX_ENTRIES: u32 = 10_000;

impl Entry for Limits {
    ghost reads = { limits_at };

    fn read(_alloc: Global, bytes: &[u8], end: usize) -> Result<(Limits, &[u8]), DecodeFault> {
        read_limits(bytes, end)
    }
}

#[tactic(auto, unfolding(binary_grammar::specs::words::SectionReading::global_at, binary_grammar::specs::words::Reading::then_at, binary_grammar::specs::words::Reading::done_at))]
fn read_global(
    alloc: Global,
    bytes: &[u8],
    end: usize,
) -> Result<(wasm_syntax::Global, &[u8]), DecodeFault>
    requires { length bytes.now ≤ MAX_ITEMS }
    ensures gives { Gives (λ x. (x.0, x.1.now)) result (global_at the_bounds.nesting end bytes.now) }
    ensures shorter { IfOk result (λ x. length x.1.now ≤ length bytes.now) }
{
    let (ty, rest) = read_global_type(bytes, end)?;
    let (init, rest) = read_instrs(alloc, rest, end)?;
    Ok((wasm_syntax::Global { ty, init }, rest))
}

impl Entry for wasm_syntax::Global {
    ghost reads = { global_at the_bounds.nesting };

    fn read(
        alloc: Global,
        bytes: &[u8],
        end: usize,
    ) -> Result<(wasm_syntax::Global, &[u8]), DecodeFault> {
        read_global(alloc, bytes, end)
    }
}

#[tactic(auto, unfolding(binary_grammar::specs::words::SectionReading::elem_at, binary_grammar::specs::words::Reading::then_at, binary_grammar::specs::words::Reading::done_at))]
fn read_elem(alloc: Global, bytes: &[u8], end: usize) -> Result<(Elem, &[u8]), DecodeFault>
    requires { length bytes.now ≤ MAX_ITEMS }
    ensures gives { Gives (λ x. (x.0, x.1.now)) result (elem_at the_bounds.nesting end bytes.now) }
    ensures shorter { IfOk result (λ x. length x.1.now ≤ length bytes.now) }
{
    let (table, rest) = read_number(bytes, end)?;
    let (offset, rest) = read_instrs(alloc, rest, end)?;
    let (funcs, rest) = read_list(alloc, rest, end)?;
    Ok((
        Elem {
            table,
            offset,
            funcs,
        },
        rest,
    ))
}

impl Entry for Elem {
    ghost reads = { elem_at the_bounds.nesting };

    fn read(alloc: Global, bytes: &[u8], end: usize) -> Result<(Elem, &[u8]), DecodeFault> {
        read_elem(alloc, bytes, end)
    }
}

#[tactic(auto, unfolding(binary_grammar::specs::words::SectionReading::segment_at, binary_grammar::specs::words::Reading::then_at, binary_grammar::specs::words::Reading::done_at))]
fn read_segment(alloc: Global, bytes: &[u8], end: usize) -> Result<(Segment, &[u8]), DecodeFault>
    requires { length bytes.now ≤ MAX_ITEMS }
    ensures gives { Gives (λ x. (x.0, x.1.now)) result (segment_at the_bounds.nesting end bytes.now) }
    ensures shorter { IfOk result (λ x. length x.1.now ≤ length bytes.now) }
{
    let (memory, rest) = read_number(bytes, end)?;
    let (offset, rest) = read_instrs(alloc, rest, end)?;
    let (bytes, rest) = read_bytes(alloc, rest, end)?;
    Ok((
        Segment {
            memory,
            offset,
            bytes,
        },
        rest,
    ))
}

impl Entry for Segment {
    ghost reads = { segment_at the_bounds.nesting };

    fn read(alloc: Global, bytes: &[u8], end: usize) -> Result<(Segment, &[u8]), DecodeFault> {
        read_segment(alloc, bytes, end)
    }
}

#[tactic(auto, unfolding(binary_grammar::specs::words::SectionReading::custom_at, binary_grammar::specs::words::Reading::then_at, binary_grammar::specs::words::Reading::done_at))]
fn read_custom(alloc: Global, bytes: &[u8], end: usize) -> Result<Section, DecodeFault>
    ensures { Gives (λ s. (s, [])) result (custom_at end bytes.now) }
{
    let (name, rest) = read_name(alloc, bytes, end)?;
    Ok(Section::Custom(name, own_bytes(alloc, rest)?))
}

#[tactic(auto, unfolding(binary_grammar::specs::words::SectionReading::start_at, binary_grammar::specs::words::Reading::then_at, binary_grammar::specs::words::Reading::done_at))]
fn read_start(bytes: &[u8], end: usize) -> Result<(Section, &[u8]), DecodeFault>
    ensures { Gives (λ x. (x.0, x.1.now)) result (start_at end bytes.now) }
{
    let (index, rest) = read_number(bytes, end)?;
    Ok((Section::Start(index, place(bytes, end)), rest))
}

/// So many tables, and the place of each.
fn read_table_types(
    alloc: Global,
    count: u32,
    bytes: &[u8],
    end: usize,
) -> Result<(List<Limits>, List<usize>, &[u8]), DecodeFault>
    ensures { Gives (λ x. ((x.0, x.1), x.2.now)) result (entries_at table_type_at count end bytes.now) }
{
    let mut entries = List::new(alloc);
    let mut places = List::new(alloc);
    let mut rest = bytes;
    for _ in 0..count {
        places.push(place(rest, end))?;
        let (entry, after) = read_table_type(rest, end)?;
        entries.push(entry)?;
        rest = after;
    }
    Ok((entries, places, rest))
}

#[tactic(auto, unfolding(binary_grammar::specs::words::SectionReading::tables_at, binary_grammar::specs::words::Reading::vector_at, binary_grammar::specs::words::Reading::then_at, binary_grammar::specs::words::Reading::done_at))]
fn read_tables(alloc: Global, bytes: &[u8], end: usize) -> Result<(Section, &[u8]), DecodeFault>
    ensures { Gives (λ x. (x.0, x.1.now)) result (tables_at end bytes.now) }
{
    let (count, rest) = read_number(bytes, end)?;
    let (entries, places, rest) = read_table_types(alloc, count, rest, end)?;
    Ok((Section::Tables(entries, places), rest))
}

#[tactic(auto, unfolding(binary_grammar::specs::words::SectionReading::types_at, binary_grammar::specs::words::Reading::then_at, binary_grammar::specs::words::Reading::done_at))]
fn read_types(alloc: Global, bytes: &[u8], end: usize) -> Result<(Section, &[u8]), DecodeFault>
    requires { length bytes.now ≤ MAX_ITEMS }
    ensures { Gives (λ x. (x.0, x.1.now)) result (types_at the_bounds end bytes.now) }
{
    let (entries, places, rest) = read_limited(alloc, MAX_ENTRIES, LimitWord::Types, bytes, end)?;
    Ok((Section::Types(entries, places), rest))
}

#[tactic(auto, unfolding(binary_grammar::specs::words::SectionReading::imports_at, binary_grammar::specs::words::Reading::then_at, binary_grammar::specs::words::Reading::done_at))]
fn read_imports(alloc: Global, bytes: &[u8], end: usize) -> Result<(Section, &[u8]), DecodeFault>
    requires { length bytes.now ≤ MAX_ITEMS }
    ensures { Gives (λ x. (x.0, x.1.now)) result (imports_at the_bounds end bytes.now) }
{
    let (entries, places, rest) = read_limited(alloc, MAX_ENTRIES, LimitWord::Imports, bytes, end)?;
    Ok((Section::Imports(entries, places), rest))
}

#[tactic(auto, unfolding(binary_grammar::specs::words::SectionReading::funcs_at, binary_grammar::specs::words::Reading::then_at, binary_grammar::specs::words::Reading::done_at))]
fn read_funcs(alloc: Global, bytes: &[u8], end: usize) -> Result<(Section, &[u8]), DecodeFault>
    requires { length bytes.now ≤ MAX_ITEMS }
    ensures { Gives (λ x. (x.0, x.1.now)) result (funcs_at the_bounds end bytes.now) }
{
    let (entries, places, rest) = read_limited(
        alloc,
        MAX_ENTRIES,
        LimitWord::Functions,
        bytes,
        end,
    )?;
    Ok((Section::Funcs(entries, places), rest))
}

#[tactic(auto, unfolding(binary_grammar::specs::words::SectionReading::memories_at, binary_grammar::specs::words::Reading::then_at, binary_grammar::specs::words::Reading::done_at))]
fn read_memories(alloc: Global, bytes: &[u8], end: usize) -> Result<(Section, &[u8]), DecodeFault>
    requires { length bytes.now ≤ MAX_ITEMS }
    ensures { Gives (λ x. (x.0, x.1.now)) result (memories_at end bytes.now) }
{
    let (entries, places, rest) = read_vector(alloc, bytes, end)?;
    Ok((Section::Memories(entries, places), rest))
}

#[tactic(auto, unfolding(binary_grammar::specs::words::SectionReading::globals_at, binary_grammar::specs::words::Reading::then_at, binary_grammar::specs::words::Reading::done_at))]
fn read_globals(alloc: Global, bytes: &[u8], end: usize) -> Result<(Section, &[u8]), DecodeFault>
    requires { length bytes.now ≤ MAX_ITEMS }
    ensures { Gives (λ x. (x.0, x.1.now)) result (globals_at the_bounds end bytes.now) }
{
    let (entries, places, rest) = read_limited(alloc, MAX_ENTRIES, LimitWord::Globals, bytes, end)?;
    Ok((Section::Globals(entries, places), rest))
}

#[tactic(auto, unfolding(binary_grammar::specs::words::SectionReading::exports_at, binary_grammar::specs::words::Reading::then_at, binary_grammar::specs::words::Reading::done_at))]
fn read_exports(alloc: Global, bytes: &[u8], end: usize) -> Result<(Section, &[u8]), DecodeFault>
    requires { length bytes.now ≤ MAX_ITEMS }
    ensures { Gives (λ x. (x.0, x.1.now)) result (exports_at end bytes.now) }
{
    let (entries, places, rest) = read_vector(alloc, bytes, end)?;
    Ok((Section::Exports(entries, places), rest))
}

#[tactic(auto, unfolding(binary_grammar::specs::words::SectionReading::elems_at, binary_grammar::specs::words::Reading::then_at, binary_grammar::specs::words::Reading::done_at))]
fn read_elems(alloc: Global, bytes: &[u8], end: usize) -> Result<(Section, &[u8]), DecodeFault>
    requires { length bytes.now ≤ MAX_ITEMS }
    ensures { Gives (λ x. (x.0, x.1.now)) result (elems_at the_bounds end bytes.now) }
{
    let (entries, places, rest) = read_vector(alloc, bytes, end)?;
    Ok((Section::Elems(entries, places), rest))
}

#[tactic(auto, unfolding(binary_grammar::specs::words::SectionReading::segments_at, binary_grammar::specs::words::Reading::then_at, binary_grammar::specs::words::Reading::done_at))]
fn read_segments(alloc: Global, bytes: &[u8], end: usize) -> Result<(Section, &[u8]), DecodeFault>
    requires { length bytes.now ≤ MAX_ITEMS }
    ensures { Gives (λ x. (x.0, x.1.now)) result (segments_at the_bounds end bytes.now) }
{
    let (entries, places, rest) = read_vector(alloc, bytes, end)?;
    Ok((Section::Segments(entries, places), rest))
}

#[tactic(auto, unfolding(binary_grammar::specs::words::SectionReading::bodies_at, binary_grammar::specs::words::Reading::then_at, binary_grammar::specs::words::Reading::done_at))]
fn read_bodies(
    alloc: Global,
    declared: usize,
    bytes: &[u8],
    end: usize,
) -> Result<(Section, &[u8]), DecodeFault>
    requires { length bytes.now ≤ MAX_ITEMS }
    ensures { Gives (λ x. (x.0, x.1.now)) result (bodies_at the_bounds declared end bytes.now) }
{
    let (count, rest) = read_number(bytes, end)?;
    if count as usize != declared {
        return Err(malformed(place(bytes, end), DecodeWord::Count));
    }
    let (bodies, _, rest) = read_entries(alloc, count, rest, end)?;
    Ok((Section::Bodies(bodies), rest))
}

/// The contents of the section with an id.
#[tactic(auto, unfolding(binary_grammar::specs::words::SectionReading::contents_at, binary_grammar::specs::words::Reading::then_at, binary_grammar::specs::words::Reading::done_at))]
fn read_contents(
    alloc: Global,
    declared: usize,
    id: u8,
    bytes: &[u8],
    end: usize,
) -> Result<(Section, &[u8]), DecodeFault>
    requires { length bytes.now ≤ MAX_ITEMS }
    ensures { Gives (λ x. (x.0, x.1.now)) result (contents_at the_bounds declared id end bytes.now) }
{
    match id {
        0 => Ok((read_custom(alloc, bytes, end)?, &[])),
        1 => read_types(alloc, bytes, end),
        2 => read_imports(alloc, bytes, end),
        3 => read_funcs(alloc, bytes, end),
        4 => read_tables(alloc, bytes, end),
        5 => read_memories(alloc, bytes, end),
        6 => read_globals(alloc, bytes, end),
        7 => read_exports(alloc, bytes, end),
        8 => read_start(bytes, end),
        9 => read_elems(alloc, bytes, end),
        10 => read_bodies(alloc, declared, bytes, end),
        _ => read_segments(alloc, bytes, end),
    }
}

#[tactic(auto, unfolding(binary_grammar::specs::words::SectionReading::id_at, binary_grammar::specs::words::Reading::then_at, binary_grammar::specs::words::Reading::done_at))]
fn read_id(last: u8, bytes: &[u8], end: usize) -> Result<(u8, &[u8]), DecodeFault>
    ensures { Gives (λ x. (x.0, x.1.now)) result (id_at last end bytes.now) }
{
    let (id, rest) = read_byte(bytes, end)?;
    if 11 < id {
        return Err(malformed(place(bytes, end), DecodeWord::Byte));
    }
    if id != 0 && id <= last {
        return Err(malformed(place(bytes, end), DecodeWord::Order));
    }
    Ok((id, rest))
}

/// A section, behind sections of which the last that is not custom has the id `last`, and where so many functions are
/// declared.
#[tactic(auto, unfolding(binary_grammar::specs::words::SectionReading::section_at, binary_grammar::specs::words::Reading::sized_at, binary_grammar::specs::words::Reading::then_at, binary_grammar::specs::words::Reading::done_at))]
pub(crate) fn read_section(
    alloc: Global,
    last: u8,
    declared: usize,
    bytes: &[u8],
    end: usize,
) -> Result<(Section, &[u8]), DecodeFault>
    ensures { Gives (λ x. (x.0, x.1.now)) result (section_at the_bounds last declared end bytes.now) }
{
    let (id, rest) = read_id(last, bytes, end)?;
    let (inside, inner_end, after) = read_region(rest, end)?;
    let (section, rest) = read_contents(alloc, declared, id, inside, inner_end)?;
    read_end(rest, inner_end)?;
    Ok((section, after))
}
