// Pieces of lines.

ghost use Rattle.std.specs.Prelude.{◌≡◌, ◌++◌, OnOk};
ghost use Rattle.std.specs.Fmt.{decimal};
ghost use Rattle.wasm_values.specs.Places.{place_text};
ghost use Rattle.module_listing.specs.Listing.{is_plain, string_byte, quoted};

use itoa::Buffer;
use wasm_values::{Bytes, OutOfMemory, digit_char, place_text};

/// Adds bytes.
fn write_bytes(out: &mut Bytes, bytes: &[u8]) -> Result<(), OutOfMemory>
    ensures { OnOk result (out.new ≡ out.old ++ bytes.now) }
{
    for byte in bytes {
        out.push(*byte)?;
    }
    Ok(())
}

/// Adds a text.
pub(crate) fn write_text(out: &mut Bytes, text: &str) -> Result<(), OutOfMemory>
    ensures { OnOk result (out.new ≡ out.old ++ text.now) }
{
    write_bytes(out, text.as_bytes())
}

/// Adds a number in decimal.
pub(crate) fn write_number(out: &mut Bytes, number: u64) -> Result<(), OutOfMemory>
    ensures { OnOk result (out.new ≡ out.old ++ decimal number) }
{
    let mut buffer = Buffer::new();
    write_text(out, buffer.format(number))
}

/// Adds a place.
pub(crate) fn write_place(out: &mut Bytes, at: usize) -> Result<(), OutOfMemory>
    ensures { OnOk result (out.new ≡ out.old ++ place_text at) }
{
    write_bytes(out, &place_text(at))
}

// Whether a byte stands for itself in a string.
fn is_plain(byte: u8) -> bool
    ensures { result ≡ is_plain byte }
{
    matches!(byte, 32..=33 | 35..=91 | 93..=126)
}

// Adds a byte of a string, escaped where it does not stand for itself.
#[tactic(auto, unfolding(crate::specs::Listing::string_byte))]
fn write_string_byte(out: &mut Bytes, byte: u8) -> Result<(), OutOfMemory>
    ensures { OnOk result (out.new ≡ out.old ++ string_byte byte) }
{
    if is_plain(byte) {
        return out.push(byte);
    }
    out.push(b'\\')?;
    out.push(digit_char(byte / 16))?;
    out.push(digit_char(byte % 16))
}

/// Adds a name in double quotes.
#[tactic(auto, unfolding(crate::specs::Listing::quoted))]
pub(crate) fn write_quoted(out: &mut Bytes, name: &str) -> Result<(), OutOfMemory>
    ensures { OnOk result (out.new ≡ out.old ++ quoted name.now) }
{
    out.push(b'"')?;
    for byte in name.as_bytes() {
        write_string_byte(out, *byte)?;
    }
    out.push(b'"')
}
