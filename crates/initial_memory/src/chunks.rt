//! The chunks of the initial part.

ghost use Rattle.std.specs.Prelude.{◌≡◌, ◌<◌, ◌≤◌, ◌^◌, IsTrue, IfOk, Some};
ghost use Rattle.std.specs.List.{list_all};
ghost use Rattle.term_trees.specs.Formulas.{well_formed_formula};
ghost use Rattle.notes.specs.WellFormed.{well_formed_chunk};
ghost use Rattle.outline_rules.specs.Initial.{has_moved_segment, natural_of, cell_end, region_end, row_end, chunk_end, last_end, are_chunks_right};

use crate::bytes::has_moved_segment;
use crate::ends::{end_of, natural_of};
use crate::rows::{is_row_alone, is_true_below, number_at};
use notes::Chunk;
use outline_setting::Setting;
use std::alloc::Global;
use term_trees::{Formula, Term};
use wasm_values::OutOfMemory;

/// The greatest number of positions of a row.
const POSITIONS: u128 = 65_536;

/// The end of a cell with these numbers: its bytes are those of its value.
fn cell_end_at(
    alloc: Global,
    setting: &Setting<'_>,
    moved: bool,
    from: u64,
    width: u32,
    at: u128,
    value: u128,
) -> Result<Option<u64>, OutOfMemory>
    requires moved { moved ≡ has_moved_segment setting.now }
    requires few { width ≤ 8 }
    ensures { IfOk result (λ end. end ≡ cell_end setting.now from width (Some at) (Some value)) }
{
    let Some(end) = end_of(setting, from, at, width as u128) else {
        return Ok(None);
    };
    if moved {
        return Ok(None);
    }
    let number = number_at(alloc, setting, at as u64, width as usize)?;
    if number as u128 == value {
        Ok(Some(end))
    } else {
        Ok(None)
    }
}

/// The end of a cell.
fn cell_end(
    alloc: Global,
    setting: &Setting<'_>,
    moved: bool,
    from: u64,
    width: u32,
    at: &Term,
    value: &Term,
) -> Result<Option<u64>, OutOfMemory>
    requires moved { moved ≡ has_moved_segment setting.now }
    requires few { width ≤ 8 }
    ensures { IfOk result (λ end. end ≡ cell_end setting.now from width (natural_of at.now) (natural_of value.now)) }
{
    match natural_of(at) {
        Some(at) => match natural_of(value) {
            Some(value) => cell_end_at(alloc, setting, moved, from, width, at, value),
            None => Ok(None),
        },
        None => Ok(None),
    }
}

/// The end of a region.
fn region_end(setting: &Setting<'_>, from: u64, at: &Term, len: &Term) -> Option<u64>
    ensures { result ≡ region_end setting.now from (natural_of at.now) (natural_of len.now) }
{
    match natural_of(at) {
        Some(at) => match natural_of(len) {
            Some(len) => end_of(setting, from, at, len),
            None => None,
        },
        None => None,
    }
}

/// The end of a row with these numbers: its formula is true at each position.
fn row_end_at(
    alloc: Global,
    setting: &Setting<'_>,
    moved: bool,
    from: u64,
    width: u32,
    at: u128,
    count: u128,
    each: &Formula,
) -> Result<Option<u64>, OutOfMemory>
    requires moved { moved ≡ has_moved_segment setting.now }
    requires few { width ≤ 8 }
    requires well_formed { IsTrue (well_formed_formula each.now) }
    ensures { IfOk result (λ end. end ≡ row_end setting.now from width (Some at) (Some count) each.now) }
{
    if moved || count > POSITIONS || !is_row_alone(each) {
        return Ok(None);
    }
    let Some(end) = end_of(setting, from, at, width as u128 * count) else {
        return Ok(None);
    };
    if is_true_below(
        alloc,
        setting,
        count as usize,
        width as usize,
        at as u64,
        each,
    )? {
        Ok(Some(end))
    } else {
        Ok(None)
    }
}

/// The end of a row.
fn row_end(
    alloc: Global,
    setting: &Setting<'_>,
    moved: bool,
    from: u64,
    width: u32,
    at: &Term,
    count: &Term,
    each: &Formula,
) -> Result<Option<u64>, OutOfMemory>
    requires moved { moved ≡ has_moved_segment setting.now }
    requires few { width ≤ 8 }
    requires well_formed { IsTrue (well_formed_formula each.now) }
    ensures { IfOk result (λ end. end ≡ row_end setting.now from width (natural_of at.now) (natural_of count.now) each.now) }
{
    match natural_of(at) {
        Some(at) => match natural_of(count) {
            Some(count) => row_end_at(alloc, setting, moved, from, width, at, count, each),
            None => Ok(None),
        },
        None => Ok(None),
    }
}

/// The end of a chunk that keeps the rules, where the one before ends at `from`.
fn chunk_end(
    alloc: Global,
    setting: &Setting<'_>,
    moved: bool,
    from: u64,
    chunk: &Chunk,
) -> Result<Option<u64>, OutOfMemory>
    requires moved { moved ≡ has_moved_segment setting.now }
    requires well_formed { IsTrue (well_formed_chunk chunk.now) }
    ensures { IfOk result (λ end. end ≡ chunk_end setting.now from chunk.now) }
{
    match chunk {
        Chunk::Cell { width, at, value } => {
            cell_end(alloc, setting, moved, from, *width, at, value)
        }
        Chunk::Region { at, len } => Ok(region_end(setting, from, at, len)),
        Chunk::Row {
            width,
            at,
            count,
            each,
        } => row_end(alloc, setting, moved, from, *width, at, count, each),
    }
}

/// The end of the last of these chunks, where all keep the rules.
fn last_end(
    alloc: Global,
    setting: &Setting<'_>,
    chunks: &[Chunk],
) -> Result<Option<u64>, OutOfMemory>
    requires { IsTrue (list_all well_formed_chunk chunks.now) }
    ensures { IfOk result (λ end. end ≡ last_end setting.now chunks.now (Some 0)) }
{
    let moved = has_moved_segment(setting);
    let mut from: u64 = 0;
    for chunk in chunks {
        match chunk_end(alloc, setting, moved, from, chunk)? {
            Some(end) => from = end,
            None => return Ok(None),
        }
    }
    Ok(Some(from))
}

/// Whether the chunks of the initial part keep the rules; where no memory is private there are none.
pub fn are_chunks_right(
    alloc: Global,
    setting: &Setting<'_>,
    chunks: &[Chunk],
) -> Result<bool, OutOfMemory>
    requires { IsTrue (list_all well_formed_chunk chunks.now) }
    ensures { IfOk result (λ right. right ≡ are_chunks_right setting.now chunks.now) }
{
    if chunks.is_empty() {
        return Ok(true);
    }
    if !setting.is_memory_private() {
        return Ok(false);
    }
    let end = last_end(alloc, setting, chunks)?;
    Ok(end.is_some())
}
