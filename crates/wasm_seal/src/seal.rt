// Writes a module and its notes into one file.

ghost use Rattle.std.specs.Prelude.{◌≡◌, ◌+◌, ◌∷◌, ◌++◌, false, ◌<◌, ◌≤◌, ◌^◌, length, IfOk, OnOk};
ghost use Rattle.wasm_write.specs.Shortest.{digits, number_text};
ghost use Rattle.wasm_seal.specs.Sealed.{sealed_file, notes_name};

use std::alloc::{AllocError, Global};
use wasm_values::{Bytes, OutOfMemory};

/// The most bytes of a module's file.
pub const MAX_MODULE: usize = 4_194_304;

/// The most bytes of a file of notes.
pub const MAX_NOTES: usize = 16_777_216;

/// The name of the section that holds notes.
pub(crate) const NOTES_NAME: [u8; 12] = *b"robust.notes";

// The length of that name, and of what stands before the notes in its section: the name behind its length.
const NAME_LEN: u8 = 12;

const NAME_AND_LEN: usize = 13;

// The most digits before the last one.
const MORE: u32 = 9;

#[tactic(auto, unfolding(wasm_write::specs::Shortest::digits))]
fn push_digits(out: &mut Vec<u8>, more: u32, value: u64) -> Result<(), AllocError>
    ensures { OnOk result (out.new.items ≡ out.old.items ++ digits false 128 more value) }
{
    let low = (value % 128) as u8;
    if more == 0 || value < 128 {
        out.push(low)?;
        return Ok(());
    }
    out.push(128 + low)?;
    push_digits(out, more - 1, value / 128)
}

// Adds the shortest text of a number (section 5.2.2).
#[tactic(auto, unfolding(wasm_write::specs::Shortest::number_text))]
fn push_number(out: &mut Vec<u8>, value: u64) -> Result<(), AllocError>
    ensures { OnOk result (out.new.items ≡ out.old.items ++ number_text value) }
{
    push_digits(out, MORE, value)
}

// Adds a custom section that holds notes (section 5.5.3).
fn push_section(out: &mut Vec<u8>, notes: &[u8]) -> Result<(), AllocError>
    requires { length notes.now ≤ MAX_NOTES }
    ensures { OnOk result (out.new.items ≡ out.old.items ++ 0 ∷ (number_text (13 + length notes.now) ++ 12 ∷ (notes_name ++ notes.now))) }
{
    out.push(0)?;
    push_number(out, (NAME_AND_LEN + notes.len()) as u64)?;
    out.push(NAME_LEN)?;
    out.extend_from_slice(&NOTES_NAME)?;
    out.extend_from_slice(notes)
}

/// The module's bytes and behind them the notes, as one file.
#[tactic(auto, unfolding(crate::specs::Sealed::sealed_file))]
pub fn seal_bytes(alloc: Global, module: &[u8], notes: &[u8]) -> Result<Bytes, OutOfMemory>
    requires few_bytes { length «module».now ≤ MAX_MODULE }
    requires short { length notes.now ≤ MAX_NOTES }
    ensures { IfOk result (λ file. file ≡ sealed_file «module».now notes.now) }
{
    let mut out = Vec::from_slice(alloc, module)?;
    push_section(&mut out, notes)?;
    Ok(Bytes::from_vec(out))
}
