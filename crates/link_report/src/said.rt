// What is said of a script that isn't run to its end.

ghost use Rattle.std.specs.Prelude.{◌≡◌, Err, IfOk, IsErrOf};
ghost use Rattle.report_lines.specs.Reports.{IsSpoken, seen};
ghost use Rattle.link_report.specs.Lines.{text_word, name_line, module_line};
ghost use Rattle.link_report.specs.Links.{of_module, name_report, IsTextReport, IsInvalidReport, IsEndReport};

use binary_grammar::DecodeFault;
use report_lines::{Report, Status, Stop, faulty, invalid, limited, negative, too_long, word_line};
use sexp_text::{TextFault, TextWord};
use std::alloc::{AllocError, Global};
use wasm_link::LinkFault;
use wasm_validate::ValidFault;
use wasm_values::{OutOfMemory, Text, place_text};

// The words of the faults of a text.
fn text_word(word: TextWord) -> &'static [u8]
    ensures { result.now ≡ text_word word }
{
    match word {
        TextWord::End => b"end",
        TextWord::Byte => b"byte",
        TextWord::Close => b"close",
        TextWord::Number => b"number",
        TextWord::String => b"string",
        TextWord::Utf8 => b"utf8",
        TextWord::Rest => b"rest",
        TextWord::Form => b"form",
        TextWord::Name => b"name",
    }
}

/// A text spells no script.
pub fn unread_script(alloc: Global, fault: TextFault) -> Result<Report, Stop>
    ensures made { IfOk result (λ r. IsTextReport fault (seen r)) }
    ensures read { IsErrOf result Stop.Read → ⊥ }
    ensures listed { IsErrOf result Stop.Words → ⊥ }
    ensures spoken { IfOk result (λ r. IsSpoken r.status) }
{
    match fault {
        TextFault::Refused { at, word } => {
            let text = word_line(alloc, b"script", text_word(word), at)?;
            Ok(negative(text))
        }
        TextFault::Limit { at, word } => Ok(limited(alloc, word, at)?),
        TextFault::OutOfMemory => Err(Stop::Memory),
    }
}

// `name at PLACE`
fn name_line(alloc: Global, at: usize) -> Result<Vec<u8>, AllocError>
    ensures { IfOk result (λ text. text.items ≡ name_line at) }
{
    let mut text = Vec::from_slice(alloc, b"name at ")?;
    text.extend_from_slice(&place_text(at))?;
    text.push(b'\n')?;
    Ok(text)
}

// A live instance lacks an export.
fn lacking(alloc: Global, at: usize) -> Result<Report, Stop>
    ensures made { IfOk result (λ r. seen r ≡ name_report at) }
    ensures read { IsErrOf result Stop.Read → ⊥ }
    ensures listed { IsErrOf result Stop.Words → ⊥ }
    ensures spoken { IfOk result (λ r. IsSpoken r.status) }
{
    let text = name_line(alloc, at)?;
    Ok(negative(text))
}

// `module NAME: `, and then a line.
fn module_line(alloc: Global, name: &str, said: &[u8]) -> Result<Vec<u8>, AllocError>
    ensures { IfOk result (λ text. text.items ≡ module_line name.now said.now) }
{
    let mut text = Vec::from_slice(alloc, b"module ")?;
    text.extend_from_slice(name.as_bytes())?;
    text.extend_from_slice(b": ")?;
    text.extend_from_slice(said)?;
    Ok(text)
}

// What is said of a module, told of the one of this name.
fn told_of(alloc: Global, name: &str, said: Report) -> Result<Report, Stop>
    requires { IsSpoken said.status }
    ensures made { IfOk result (λ r. seen r ≡ of_module name.now (seen said)) }
    ensures read { IsErrOf result Stop.Read → ⊥ }
    ensures listed { IsErrOf result Stop.Words → ⊥ }
    ensures spoken { IfOk result (λ r. IsSpoken r.status) }
{
    let text = module_line(alloc, name, said.text.as_slice())?;
    Ok(Report {
        text,
        status: said.status,
    })
}

// The file of the module of this name is too long.
fn long_module(alloc: Global, name: &Text) -> Result<Report, Stop>
    ensures made { IfOk result (λ r. IsEndReport (Err (LinkFault.TooLong name.now)) (seen r)) }
    ensures read { IsErrOf result Stop.Read → ⊥ }
    ensures listed { IsErrOf result Stop.Words → ⊥ }
    ensures spoken { IfOk result (λ r. IsSpoken r.status) }
{
    match too_long(alloc) {
        Ok(said) => told_of(alloc, name.as_str(), said),
        Err(OutOfMemory) => Err(Stop::Memory),
    }
}

// The bytes of the module of this name have a fault.
fn undecoded(alloc: Global, name: &Text, fault: DecodeFault) -> Result<Report, Stop>
    ensures made { IfOk result (λ r. IsEndReport (Err (LinkFault.Decode name.now fault)) (seen r)) }
    ensures read { IsErrOf result Stop.Read → ⊥ }
    ensures listed { IsErrOf result Stop.Words → ⊥ }
    ensures spoken { IfOk result (λ r. IsSpoken r.status) }
{
    match faulty(alloc, fault) {
        Ok(said) => told_of(alloc, name.as_str(), said),
        Err(OutOfMemory) => Err(Stop::Memory),
    }
}

// A module isn't valid.
fn invalid_module(alloc: Global, fault: ValidFault) -> Result<Report, OutOfMemory>
    ensures made { IfOk result (λ r. IsInvalidReport fault (seen r)) }
    ensures spoken { IfOk result (λ r. IsSpoken r.status) }
{
    match fault {
        ValidFault::Invalid { at, word } => invalid(alloc, at, word),
        ValidFault::OutOfMemory => Err(OutOfMemory),
    }
}

// The module of this name isn't valid.
fn unvalidated(alloc: Global, name: &Text, fault: ValidFault) -> Result<Report, Stop>
    ensures made { IfOk result (λ r. IsEndReport (Err (LinkFault.Invalid name.now fault)) (seen r)) }
    ensures read { IsErrOf result Stop.Read → ⊥ }
    ensures listed { IsErrOf result Stop.Words → ⊥ }
    ensures spoken { IfOk result (λ r. IsSpoken r.status) }
{
    match invalid_module(alloc, fault) {
        Ok(said) => told_of(alloc, name.as_str(), said),
        Err(OutOfMemory) => Err(Stop::Memory),
    }
}

/// A script isn't run to its end.
pub fn refused(alloc: Global, fault: LinkFault) -> Result<Report, Stop>
    ensures made { IfOk result (λ r. IsEndReport (Err fault) (seen r)) }
    ensures read { IsErrOf result Stop.Read → fault ≡ LinkFault.Shelf }
    ensures listed { IsErrOf result Stop.Words → ⊥ }
    ensures spoken { IfOk result (λ r. IsSpoken r.status) }
{
    match fault {
        LinkFault::Shelf => Err(Stop::Read),
        LinkFault::TooLong(name) => long_module(alloc, &name),
        LinkFault::Decode(name, fault) => undecoded(alloc, &name, fault),
        LinkFault::Invalid(name, fault) => unvalidated(alloc, &name, fault),
        LinkFault::UnknownName(at) => lacking(alloc, at),
        LinkFault::OutOfMemory => Err(Stop::Memory),
    }
}
