// The lines of a report.

ghost use Rattle.std.specs.Prelude.{◌≡◌, ◌++◌, ◌∷◌, [], IfOk};
ghost use Rattle.report_lines.specs.Lines.{limit_text, decode_text, valid_text, word_line};

use binary_grammar::DecodeWord;
use std::alloc::{AllocError, Global};
use wasm_typing::ValidWord;
use wasm_values::{LimitWord, place_text};

/// The words of limits.
pub fn limit_text(word: LimitWord) -> &'static [u8]
    ensures { result.now ≡ limit_text word }
{
    match word {
        LimitWord::Module => b"module",
        LimitWord::Notes => b"notes",
        LimitWord::Script => b"script",
        LimitWord::Types => b"types",
        LimitWord::Imports => b"imports",
        LimitWord::Functions => b"functions",
        LimitWord::Globals => b"globals",
        LimitWord::Params => b"params",
        LimitWord::Locals => b"locals",
        LimitWord::Nesting => b"nesting",
        LimitWord::Nodes => b"nodes",
        LimitWord::State => b"state",
        LimitWord::Facts => b"facts",
        LimitWord::Chunks => b"chunks",
        LimitWord::Variables => b"variables",
        LimitWord::Derivation => b"derivation",
    }
}

/// The words of the decoder's faults.
pub fn decode_text(word: DecodeWord) -> &'static [u8]
    ensures { result.now ≡ decode_text word }
{
    match word {
        DecodeWord::End => b"end",
        DecodeWord::Magic => b"magic",
        DecodeWord::Byte => b"byte",
        DecodeWord::Order => b"order",
        DecodeWord::Size => b"size",
        DecodeWord::Number => b"number",
        DecodeWord::Utf8 => b"utf8",
        DecodeWord::Float => b"float",
        DecodeWord::Count => b"count",
    }
}

/// The words of the validator's faults.
pub fn valid_text(word: ValidWord) -> &'static [u8]
    ensures { result.now ≡ valid_text word }
{
    match word {
        ValidWord::WrongType => b"type",
        ValidWord::Count => b"count",
        ValidWord::Index => b"index",
        ValidWord::Limits => b"limits",
        ValidWord::Const => b"const",
        ValidWord::Export => b"export",
        ValidWord::Start => b"start",
        ValidWord::Label => b"label",
        ValidWord::Align => b"align",
        ValidWord::Stack => b"stack",
    }
}

/// `CAUSE: WORD at PLACE`
pub fn word_line(alloc: Global, cause: &[u8], word: &[u8], at: usize) -> Result<Vec<u8>, AllocError>
    ensures { IfOk result (λ text. text.items ≡ word_line cause.now word.now at) }
{
    let mut text = Vec::from_slice(alloc, cause)?;
    text.extend_from_slice(b": ")?;
    text.extend_from_slice(word)?;
    text.extend_from_slice(b" at ")?;
    text.extend_from_slice(&place_text(at))?;
    text.push(b'\n')?;
    Ok(text)
}
