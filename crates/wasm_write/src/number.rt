ghost use Rattle.std.specs.Prelude.{◌≡◌, ◌++◌, ◌∷◌, ◌<◌, ◌^◌, [], OnOk};
ghost use Rattle.wasm_write.specs.Shortest.{low_digit, digits, number_text, signed_text};
ghost use Rattle.wasm_write.specs.Encoding.{sized_text};

use wasm_values::{Bytes, OutOfMemory};

// The most digits before the last one of a number of 64 bits.
const MORE: u32 = 9;

fn low_digit(negative: bool, value: u64) -> u8
    ensures value { result ≡ low_digit negative value }
    ensures small { result < 128 }
{
    let low = (value % 128) as u8;
    if negative { 127 - low } else { low }
}

#[tactic(auto, unfolding(crate::specs::Shortest::digits))]
fn write_digits(
    out: &mut Bytes,
    negative: bool,
    bound: u64,
    more: u32,
    value: u64,
) -> Result<(), OutOfMemory>
    ensures { OnOk result (out.new ≡ out.old ++ digits negative bound more value) }
{
    let low = low_digit(negative, value);
    if more == 0 || value < bound {
        return out.push(low);
    }
    out.push(128 + low)?;
    write_digits(out, negative, bound, more - 1, value / 128)
}

/// Adds the shortest text of a number.
#[tactic(auto, unfolding(crate::specs::Shortest::number_text))]
pub(crate) fn write_number(out: &mut Bytes, value: u64) -> Result<(), OutOfMemory>
    ensures { OnOk result (out.new ≡ out.old ++ number_text value) }
{
    write_digits(out, false, 128, MORE, value)
}

/// Adds the shortest text of a number of 32 bits that is read as a two's complement number.
#[tactic(auto, unfolding(crate::specs::Shortest::signed_text))]
pub(crate) fn write_word32(out: &mut Bytes, value: u32) -> Result<(), OutOfMemory>
    ensures { OnOk result (out.new ≡ out.old ++ signed_text 32 value) }
{
    if value < 1 << 31 {
        write_digits(out, false, 64, MORE, u64::from(value))
    } else {
        write_digits(out, true, 64, MORE, u64::from(u32::MAX - value))
    }
}

/// The same, of 64 bits.
#[tactic(auto, unfolding(crate::specs::Shortest::signed_text))]
pub(crate) fn write_word64(out: &mut Bytes, value: u64) -> Result<(), OutOfMemory>
    ensures { OnOk result (out.new ≡ out.old ++ signed_text 64 value) }
{
    if value < 1 << 63 {
        write_digits(out, false, 64, MORE, value)
    } else {
        write_digits(out, true, 64, MORE, u64::MAX - value)
    }
}

/// Adds bytes.
pub(crate) fn write_bytes(out: &mut Bytes, bytes: &[u8]) -> Result<(), OutOfMemory>
    ensures { OnOk result (out.new ≡ out.old ++ bytes.now) }
{
    for byte in bytes {
        out.push(*byte)?;
    }
    Ok(())
}

/// Adds bytes behind their number.
#[tactic(auto, unfolding(crate::specs::Encoding::sized_text))]
pub(crate) fn write_sized(out: &mut Bytes, bytes: &[u8]) -> Result<(), OutOfMemory>
    ensures { OnOk result (out.new ≡ out.old ++ sized_text bytes.now) }
{
    write_number(out, bytes.len() as u64)?;
    write_bytes(out, bytes)
}
