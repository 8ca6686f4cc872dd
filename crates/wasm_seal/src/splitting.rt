// Splits a file into a module's bytes and notes.

ghost use Rattle.std.specs.Prelude.{◌≡◌, ◌++◌, ◌<◌, ◌≤◌, ℕ, List, length, take, drop, IfSome, IfNone, MatchOption};
ghost use Rattle.binary_grammar.specs.ModuleGrammar.{magic, version};
ghost use Rattle.wasm_seal.specs.Sealed.{notes_name, HoldsNotes, Split};
ghost use Rattle.wasm_seal.specs.words.Parts.{BeginsNumber, BeginsSized, BeginsWhole, EndsWith, NotesBehindId};

use crate::seal::NOTES_NAME;
use wasm_binary::read_u32;

const HEADER: [u8; 8] = [0x00, 0x61, 0x73, 0x6d, 0x01, 0x00, 0x00, 0x00];

// A number at the front, and what follows it.
fn number(bytes: &[u8]) -> Option<(u32, &[u8])>
    ensures found { IfSome result (λ x. BeginsNumber bytes.now x.0 x.1.now) }
    ensures missing { IfNone result ((n : ℕ) (rest : List ℕ) → BeginsNumber bytes.now n rest → ⊥) }
{
    match read_u32(bytes, 0, bytes.len()) {
        Ok((value, from)) => Some((value, &bytes[from..])),
        Err(_) => None,
    }
}

// The bytes behind a size at the front, as many as it says, and what follows them.
fn sized(bytes: &[u8]) -> Option<(&[u8], &[u8])>
    ensures found { IfSome result (λ x. BeginsSized bytes.now x.0.now x.1.now) }
    ensures missing { IfNone result ((contents after : List ℕ) → BeginsSized bytes.now contents after → ⊥) }
{
    match number(bytes) {
        Some((size, rest)) => {
            let size = size as usize;
            if rest.len() < size {
                None
            } else {
                Some(rest.split_at(size))
            }
        }
        None => None,
    }
}

// What follows the section at the front.
fn behind_section(bytes: &[u8]) -> Option<&[u8]>
    ensures found { IfSome result (λ after. BeginsWhole bytes.now after.now) }
    ensures missing { IfNone result ((after : List ℕ) → BeginsWhole bytes.now after → ⊥) }
{
    match bytes {
        [] => None,
        [_, rest @ ..] => match sized(rest) {
            Some((_, after)) => Some(after),
            None => None,
        },
    }
}

// The last of the sections.
fn last_section(sections: &[u8]) -> Option<&[u8]>
    ensures found { IfSome result (λ last. EndsWith sections.now last.now) }
    ensures missing { IfNone result ((last : List ℕ) → EndsWith sections.now last → ⊥) }
{
    let mut rest = sections;
    while let Some(after) = behind_section(rest) {
        if after.is_empty() {
            return Some(rest);
        }
        rest = after;
    }
    None
}

// What stands behind the name of notes.
fn behind_name(contents: &[u8]) -> Option<&[u8]>
    ensures found { IfSome result (λ notes. BeginsSized contents.now notes_name notes.now) }
    ensures missing { IfNone result ((notes : List ℕ) → BeginsSized contents.now notes_name notes → ⊥) }
{
    match sized(contents) {
        Some((name, notes)) => {
            if name == NOTES_NAME.as_slice() {
                Some(notes)
            } else {
                None
            }
        }
        None => None,
    }
}

// The notes in a section of which this follows the id.
fn behind_id(rest: &[u8]) -> Option<&[u8]>
    ensures found { IfSome result (λ notes. NotesBehindId rest.now notes.now) }
    ensures missing { IfNone result ((notes : List ℕ) → NotesBehindId rest.now notes → ⊥) }
{
    match sized(rest) {
        Some((contents, after)) => {
            if after.is_empty() {
                behind_name(contents)
            } else {
                None
            }
        }
        None => None,
    }
}

// The notes in a section that holds some.
fn notes_in(section: &[u8]) -> Option<&[u8]>
    ensures found { IfSome result (λ notes. (at : ℕ) → HoldsNotes at section.now notes.now) }
    ensures missing { IfNone result ((at : ℕ) (notes : List ℕ) → HoldsNotes at section.now notes → ⊥) }
{
    match section {
        [] => None,
        [id, rest @ ..] => { if *id == 0 { behind_id(rest) } else { None } }
    }
}

// What follows the header of a module.
fn behind_header(file: &[u8]) -> Option<&[u8]>
    ensures { MatchOption result ((rest : List ℕ) → file.now ≡ magic ++ (version ++ rest) → ⊥) (λ rest. file.now ≡ magic ++ (version ++ rest.now)) }
{
    file.strip_prefix(&HEADER)
}

/// Where a sealed file is split: the end of the module's bytes, and the start of the notes.
///
/// Takes time in proportion to the number of sections.
pub fn split(file: &[u8]) -> Option<(usize, usize)>
    ensures found { IfSome result (λ x. Split file.now (take x.0 file.now) (drop x.1 file.now)) }
    ensures within { IfSome result (λ x. (x.0 ≤ x.1) × (x.1 ≤ length file.now)) }
    // Nothing is answered exactly where the file is no module's bytes with notes behind them.
    ensures unsealed { IfNone result ((bytes notes : List ℕ) → Split file.now bytes notes → ⊥) }
{
    let Some(sections) = behind_header(file) else {
        return None;
    };
    let Some(last) = last_section(sections) else {
        return None;
    };
    let Some(notes) = notes_in(last) else {
        return None;
    };
    Some((file.len() - last.len(), file.len() - notes.len()))
}
