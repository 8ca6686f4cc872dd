// What is said of files, of bytes that are no module, and of modules that aren't valid.

ghost use Rattle.std.specs.Prelude.{◌≡◌, IfOk, IsErrOf};
ghost use Rattle.report_lines.specs.Lines.{limit_line};
ghost use Rattle.report_lines.specs.Reports.{IsFaultReport, IsSpoken, invalid_report, module_too_long, seen};

use crate::line::{decode_text, limit_text, valid_text, word_line};
use crate::report::{Report, Stop, negative};
use crate::status::Status;
use binary_grammar::DecodeFault;
use rw_edge::ReadFault;
use std::alloc::Global;
use wasm_typing::ValidWord;
use wasm_values::{LimitWord, OutOfMemory};

/// The most bytes of a module file.
const MODULE_LIMIT: usize = 4_194_304;

/// A limit is passed at a place.
pub fn limited(alloc: Global, word: LimitWord, at: usize) -> Result<Report, OutOfMemory>
    ensures made { IfOk result (λ r. seen r ≡ record { text = limit_line word at; status = Status.Limit }) }
    ensures spoken { IfOk result (λ r. IsSpoken r.status) }
{
    Ok(Report {
        text: word_line(alloc, b"limit", limit_text(word), at)?,
        status: Status::Limit,
    })
}

/// A module file is too long.
pub fn too_long(alloc: Global) -> Result<Report, OutOfMemory>
    ensures made { IfOk result (λ r. seen r ≡ module_too_long) }
    ensures spoken { IfOk result (λ r. IsSpoken r.status) }
{
    limited(alloc, LimitWord::Module, MODULE_LIMIT)
}

/// The bytes' fault.
pub fn faulty(alloc: Global, fault: DecodeFault) -> Result<Report, OutOfMemory>
    ensures made { IfOk result (λ r. IsFaultReport fault (seen r)) }
    ensures spoken { IfOk result (λ r. IsSpoken r.status) }
{
    match fault {
        DecodeFault::Malformed { at, word } => {
            let text = word_line(alloc, b"malformed", decode_text(word), at)?;
            Ok(negative(text))
        }
        DecodeFault::Limit { at, word } => limited(alloc, word, at),
        DecodeFault::OutOfMemory => Err(OutOfMemory),
    }
}

/// A module's first fault.
pub fn invalid(alloc: Global, at: usize, word: ValidWord) -> Result<Report, OutOfMemory>
    ensures made { IfOk result (λ r. seen r ≡ invalid_report at word) }
    ensures spoken { IfOk result (λ r. IsSpoken r.status) }
{
    let text = word_line(alloc, b"invalid", valid_text(word), at)?;
    Ok(negative(text))
}

/// What is said of a file that was not read: that it is too long, or nothing, for another cause.
pub fn unread(
    alloc: Global,
    fault: ReadFault,
    word: LimitWord,
    limit: usize,
) -> Result<Report, Stop>
    ensures made { IfOk result (λ r. (fault ≡ ReadFault.TooLong) × (seen r ≡ record { text = limit_line word limit; status = Status.Limit })) }
    ensures read { IsErrOf result Stop.Read → fault ≡ ReadFault.Failed }
    ensures listed { IsErrOf result Stop.Words → ⊥ }
{
    match fault {
        ReadFault::TooLong => Ok(limited(alloc, word, limit)?),
        ReadFault::Failed => Err(Stop::Read),
        ReadFault::OutOfMemory => Err(Stop::Memory),
    }
}
