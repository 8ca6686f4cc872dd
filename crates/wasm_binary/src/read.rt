ghost use Rattle.std.specs.Prelude.{◌≡◌, ◌≤◌, ◌-◌, ◌^◌, ◌<◌, ℕ, List, length, IfOk};
ghost use Rattle.std.specs.Prelude.{Ok};
ghost use Rattle.binary_grammar.specs.words.Reading.{Gives, Reader, number_fault_of, text_of, place, number_at, byte_at, run_at, bytes_at, name_at, region_at, ended};

use binary_grammar::{DecodeFault, DecodeWord, LebFault};
use binary_numbers::take_u32;
use std::alloc::Global;
use wasm_values::{Bytes, Text};

/// The place of the first byte that is left, in a region that ends at `end`.
#[inline(always)]
pub(crate) fn place(bytes: &[u8], end: usize) -> usize
    ensures { result ≡ place end bytes.now }
{
    end.saturating_sub(bytes.len())
}

/// A fault with this word at this place.
pub(crate) fn malformed(at: usize, word: DecodeWord) -> DecodeFault
    ensures { result ≡ DecodeFault.Malformed at word }
{
    DecodeFault::Malformed { at, word }
}

/// The fault of a number that begins at a place.
pub(crate) fn number_fault(fault: LebFault, at: usize, end: usize) -> DecodeFault
    ensures { result ≡ number_fault_of fault at end }
{
    match fault {
        LebFault::End => malformed(end, DecodeWord::End),
        LebFault::Number => malformed(at, DecodeWord::Number),
    }
}

#[tactic(auto, unfolding(binary_grammar::specs::words::Reading::number_at, binary_grammar::specs::words::Reading::then_at, binary_grammar::specs::words::Reading::done_at))]
#[inline(always)]
pub(crate) fn read_number(bytes: &[u8], end: usize) -> Result<(u32, &[u8]), DecodeFault>
    ensures gives { Gives (λ x. (x.0, x.1.now)) result (number_at end bytes.now) }
    ensures shorter { IfOk result (λ x. length x.1.now ≤ length bytes.now) }
{
    match take_u32(bytes) {
        Ok(found) => Ok(found),
        Err(fault) => Err(number_fault(fault, place(bytes, end), end)),
    }
}

#[tactic(auto, unfolding(binary_grammar::specs::words::Reading::byte_at, binary_grammar::specs::words::Reading::then_at, binary_grammar::specs::words::Reading::done_at))]
#[inline(always)]
pub(crate) fn read_byte(bytes: &[u8], end: usize) -> Result<(u8, &[u8]), DecodeFault>
    ensures gives { Gives (λ x. (x.0, x.1.now)) result (byte_at end bytes.now) }
    ensures shorter { IfOk result (λ x. length x.1.now ≤ length bytes.now) }
{
    match bytes {
        [] => Err(malformed(end, DecodeWord::End)),
        [byte, rest @ ..] => Ok((*byte, rest)),
    }
}

#[tactic(auto, unfolding(binary_grammar::specs::words::Reading::run_at, binary_grammar::specs::words::Reading::then_at, binary_grammar::specs::words::Reading::done_at))]
fn read_run(count: u32, bytes: &[u8], end: usize) -> Result<(&[u8], &[u8]), DecodeFault>
    ensures gives { Gives (λ x. (x.0.now, x.1.now)) result (run_at count end bytes.now) }
    ensures shorter { IfOk result (λ x. length x.1.now ≤ length bytes.now) }
{
    let count = count as usize;
    if bytes.len() < count {
        return Err(malformed(end, DecodeWord::End));
    }
    Ok(bytes.split_at(count))
}

/// The bytes as a value of their own.
pub(crate) fn own_bytes(alloc: Global, bytes: &[u8]) -> Result<Bytes, DecodeFault>
    ensures { Gives (λ b. b) result (Ok bytes.now) }
{
    match Vec::from_slice(alloc, bytes) {
        Ok(items) => Ok(Bytes::from_vec(items)),
        Err(_) => Err(DecodeFault::OutOfMemory),
    }
}

#[tactic(auto, unfolding(binary_grammar::specs::words::Reading::bytes_at, binary_grammar::specs::words::Reading::then_at, binary_grammar::specs::words::Reading::done_at))]
pub(crate) fn read_bytes(
    alloc: Global,
    bytes: &[u8],
    end: usize,
) -> Result<(Bytes, &[u8]), DecodeFault>
    ensures gives { Gives (λ x. (x.0, x.1.now)) result (bytes_at end bytes.now) }
    ensures shorter { IfOk result (λ x. length x.1.now ≤ length bytes.now) }
{
    let (count, rest) = read_number(bytes, end)?;
    let (run, rest) = read_run(count, rest, end)?;
    Ok((own_bytes(alloc, run)?, rest))
}

// The text of bytes that begin at a place.
fn text_of(alloc: Global, bytes: &[u8], at: usize) -> Result<Text, DecodeFault>
    ensures { Gives (λ t. t) result (text_of bytes.now at) }
{
    match std::str::from_utf8(bytes) {
        Ok(text) => Ok(Text::from_str(alloc, text)?),
        Err(_) => Err(malformed(at, DecodeWord::Utf8)),
    }
}

#[tactic(auto, unfolding(binary_grammar::specs::words::Reading::name_at, binary_grammar::specs::words::Reading::text_at, binary_grammar::specs::words::Reading::then_at, binary_grammar::specs::words::Reading::done_at))]
pub(crate) fn read_name(
    alloc: Global,
    bytes: &[u8],
    end: usize,
) -> Result<(Text, &[u8]), DecodeFault>
    ensures gives { Gives (λ x. (x.0, x.1.now)) result (name_at end bytes.now) }
    ensures shorter { IfOk result (λ x. length x.1.now ≤ length bytes.now) }
{
    let (count, contents) = read_number(bytes, end)?;
    let (run, rest) = read_run(count, contents, end)?;
    let name = text_of(alloc, run, place(contents, end))?;
    Ok((name, rest))
}

/// The bytes of a region, the place where it ends, and what follows it.
#[tactic(auto, unfolding(binary_grammar::specs::words::Reading::region_at, binary_grammar::specs::words::Reading::then_at, binary_grammar::specs::words::Reading::done_at))]
pub(crate) fn read_region(bytes: &[u8], end: usize) -> Result<(&[u8], usize, &[u8]), DecodeFault>
    ensures gives { Gives (λ x. (x.0.now, x.1, x.2.now)) result (region_at end bytes.now) }
    ensures shorter { IfOk result (λ x. length x.2.now ≤ length bytes.now) }
    ensures short { IfOk result (λ x. length x.0.now < 2 ^ 32) }
{
    let (count, rest) = read_number(bytes, end)?;
    let count = count as usize;
    if rest.len() < count {
        return Err(malformed(place(bytes, end), DecodeWord::Size));
    }
    let (inside, after) = rest.split_at(count);
    Ok((inside, place(after, end), after))
}

/// Whether a region ends where what was read of it does.
pub(crate) fn read_end(bytes: &[u8], end: usize) -> Result<(), DecodeFault>
    ensures { Gives (λ x. x) result (ended tt end bytes.now) }
{
    if bytes.is_empty() {
        Ok(())
    } else {
        Err(malformed(place(bytes, end), DecodeWord::Size))
    }
}
