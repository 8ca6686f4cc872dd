// Bytes, words and numbers at the end of a text.

ghost use Rattle.std.specs.Prelude.{◌≡◌, ◌++◌, ◌∷◌, [], OnOk};
ghost use Rattle.std.specs.Fmt.{decimal, signed_decimal};

use std::alloc::Global;
use wasm_values::{Bytes, OutOfMemory};

/// Adds bytes at the end.
pub(crate) fn push_all(out: &mut Bytes, bytes: &[u8]) -> Result<(), OutOfMemory>
    ensures { OnOk result (out.new ≡ out.old ++ bytes.now) }
{
    for b in bytes {
        out.push(*b)?;
    }
    Ok(())
}

/// Adds a word.
pub(crate) fn push_word(out: &mut Bytes, word: &str) -> Result<(), OutOfMemory>
    ensures { OnOk result (out.new ≡ out.old ++ word.now) }
{
    push_all(out, word.as_bytes())
}

/// Adds a number in decimal.
pub(crate) fn push_number(alloc: Global, out: &mut Bytes, n: i128) -> Result<(), OutOfMemory>
    ensures { OnOk result (out.new ≡ out.old ++ signed_decimal n) }
{
    match format!(in alloc; "{n}") {
        Ok(text) => push_all(out, text.as_bytes()),
        Err(_) => Err(OutOfMemory),
    }
}

/// Adds a number of a variable in decimal.
pub(crate) fn push_index(alloc: Global, out: &mut Bytes, n: u32) -> Result<(), OutOfMemory>
    ensures { OnOk result (out.new ≡ out.old ++ decimal n) }
{
    match format!(in alloc; "{n}") {
        Ok(text) => push_all(out, text.as_bytes()),
        Err(_) => Err(OutOfMemory),
    }
}

/// Adds a parenthesis and the word that a list begins with.
pub(crate) fn open(out: &mut Bytes, word: &str) -> Result<(), OutOfMemory>
    ensures { OnOk result (out.new ≡ out.old ++ 40 ∷ word.now) }
{
    out.push(b'(')?;
    push_word(out, word)
}

/// Adds the parenthesis that closes a list.
pub(crate) fn close(out: &mut Bytes) -> Result<(), OutOfMemory>
    ensures { OnOk result (out.new ≡ out.old ++ 41 ∷ []) }
{
    out.push(b')')
}
