//! The first bytes of the memory, from an address on.

ghost use Rattle.std.specs.Prelude.{◌≡◌, ◌<◌, ◌+◌, ◌^◌, length, drop, Some, IfOk, is_some, is_none};
ghost use Rattle.outline_rules.specs.Initial.{offset_of, bytes_at, has_moved_segment};
ghost use Rattle.initial_memory.specs.words.Windows.{overlaid, window_over, window_after};

use outline_setting::Setting;
use std::alloc::Global;
use wasm_syntax::{Instr, Segment};
use wasm_values::{OutOfMemory, Val};

/// The number of a segment's offset, where it is a constant.
pub(crate) fn offset_of(offset: &[Instr]) -> Option<u32>
    ensures { result ≡ offset_of offset.now }
{
    let (first, rest) = offset.split_first()?;
    if !rest.is_empty() {
        return None;
    }
    match first {
        Instr::Const(Val::I32(n)) => Some(*n),
        _ => None,
    }
}

/// Whether some data segment's offset is a `global.get`.
pub(crate) fn has_moved_segment(setting: &Setting<'_>) -> bool
    ensures { result ≡ has_moved_segment setting.now }
{
    for segment in setting.module().segments.as_slice() {
        if offset_of(segment.offset.as_slice()).is_none() {
            return true;
        }
    }
    false
}

/// Writes bytes over the first of a window, as many as there is room for.
fn overlay(window: &mut [u8], bytes: &[u8])
    ensures { window.new ≡ overlaid bytes.now window.old }
{
    let count = window.len().min(bytes.len());
    window[..count].copy_from_slice(&bytes[..count]);
}

/// Writes a segment into the window that begins at an address.
fn write_at(window: &mut [u8], at: u64, offset: u64, bytes: &[u8])
    requires { at < 2 ^ 63 }
    ensures { window.new ≡ window_over (Some offset) bytes.now at window.old }
{
    if offset <= at {
        let skip = at - offset;
        if skip < bytes.len() as u64 {
            overlay(window, &bytes[skip as usize..]);
        }
    } else {
        let gap = offset - at;
        if gap < window.len() as u64 {
            overlay(&mut window[gap as usize..], bytes);
        }
    }
}

/// Writes a segment, where its offset is a constant.
fn write_segment(window: &mut [u8], at: u64, segment: &Segment)
    requires { at < 2 ^ 63 }
    ensures { window.new ≡ window_over (offset_of segment.now.offset) segment.now.bytes at window.old }
{
    match offset_of(segment.offset.as_slice()) {
        Some(offset) => write_at(window, at, offset as u64, segment.bytes.as_slice()),
        None => {}
    }
}

/// Writes segments into a window, one after another.
fn write_segments(window: &mut [u8], at: u64, segments: &[Segment])
    requires { at < 2 ^ 63 }
    ensures { window.new ≡ window_after segments.now at window.old }
{
    for segment in segments {
        write_segment(window, at, segment);
    }
}

/// So many bytes of the memory of a new instance, from an address on.
pub(crate) fn bytes_at(
    alloc: Global,
    setting: &Setting<'_>,
    at: u64,
    count: usize,
) -> Result<Vec<u8>, OutOfMemory>
    requires { at < 2 ^ 63 }
    ensures { IfOk result (λ bytes. bytes.items ≡ bytes_at setting.now at count) }
{
    let mut window = vec![in alloc; 0u8; count]?;
    write_segments(
        window.as_mut_slice(),
        at,
        setting.module().segments.as_slice(),
    );
    Ok(window)
}
