// What is said of a module by notes.

ghost use Rattle.std.specs.Prelude.{◌≡◌, IfOk};
ghost use Rattle.outline_check.specs.Outlines.{outline};
ghost use Rattle.outline_check.specs.First.{IsFirst};
ghost use Rattle.first_reader.specs.ReadingNotes.{first_notes};
ghost use Rattle.wasm_typing.specs.faults.Faults.{Marked};
ghost use Rattle.report_lines.specs.Reports.{seen, IsSpoken};
ghost use Rattle.verify_report.specs.Reports.{OfFirst, OfModule, OfJudged, outlined, noted};

use crate::line::failed_line;
use binary_grammar::Decoded;
use first_reader::{ReadError, is_first, read_notes};
use outline_check::{Answer, CheckFault, Notes, check_module};
use report_lines::{Report, Status, faulty, fixed, invalid, limited, negative};
use std::alloc::Global;
use wasm_binary::decode;
use wasm_syntax::{Marks, Module};
use wasm_validate::{ValidFault, ValidModule, validate};
use wasm_values::OutOfMemory;

// The outline.
fn outlined(
    alloc: Global,
    module: &ValidModule,
    marks: &Marks,
    notes: &Notes,
) -> Result<Report, OutOfMemory>
    requires first { IsFirst «module».now }
    requires marked { Marked «module».now marks.now }
    ensures made { IfOk result (λ r. seen r ≡ outlined (outline «module».now marks.now notes.now)) }
    ensures spoken { IfOk result (λ r. IsSpoken r.status) }
{
    match check_module(alloc, module, notes, marks) {
        Ok(Answer::Verified) => fixed(alloc, b"verified\n", Status::Good),
        Ok(
            Answer::Failed {
                at,
                function,
                reason,
            },
        ) => {
            let text = failed_line(alloc, at, function, reason)?;
            Ok(negative(text))
        }
        Err(CheckFault::Limit { at, word }) => limited(alloc, word, at),
        Err(CheckFault::OutOfMemory) => Err(OutOfMemory),
    }
}

// The notes, and then the outline.
fn noted(
    alloc: Global,
    module: &ValidModule,
    marks: &Marks,
    notes: &[u8],
) -> Result<Report, OutOfMemory>
    requires first { IsFirst «module».now }
    requires marked { Marked «module».now marks.now }
    ensures made { IfOk result (λ r. seen r ≡ noted «module».now marks.now (first_notes notes.now)) }
    ensures spoken { IfOk result (λ r. IsSpoken r.status) }
{
    match read_notes(alloc, notes) {
        Ok(notes) => outlined(alloc, module, marks, &notes),
        Err(ReadError::OtherForm) => fixed(alloc, b"unbuilt notes\n", Status::Negative),
        Err(ReadError::Memory) => Err(OutOfMemory),
    }
}

// The form of a valid module, then the notes, then the outline.
fn judged_valid(
    alloc: Global,
    module: &ValidModule,
    marks: &Marks,
    notes: &[u8],
) -> Result<Report, OutOfMemory>
    requires { Marked «module».now marks.now }
    ensures made { IfOk result (λ r. OfFirst notes.now «module».now marks.now (seen r)) }
    ensures spoken { IfOk result (λ r. IsSpoken r.status) }
{
    if is_first(module) {
        noted(alloc, module, marks, notes)
    } else {
        fixed(alloc, b"unbuilt module\n", Status::Negative)
    }
}

// Whether a module is valid, and then what the notes say of it.
fn judged_parts(
    alloc: Global,
    module: Module,
    marks: &Marks,
    notes: &[u8],
) -> Result<Report, OutOfMemory>
    requires { Marked «module» marks.now }
    ensures made { IfOk result (λ r. OfModule (OfFirst notes.now) «module» marks.now (seen r)) }
    ensures spoken { IfOk result (λ r. IsSpoken r.status) }
{
    match validate(alloc, module, marks) {
        Ok(valid) => judged_valid(alloc, &valid, marks, notes),
        Err(ValidFault::Invalid { at, word }) => invalid(alloc, at, word),
        Err(ValidFault::OutOfMemory) => Err(OutOfMemory),
    }
}

// The same of a module with its marks.
fn judged_module(alloc: Global, decoded: Decoded, notes: &[u8]) -> Result<Report, OutOfMemory>
    requires { Marked decoded.module decoded.marks }
    ensures made { IfOk result (λ r. OfModule (OfFirst notes.now) decoded.module decoded.marks (seen r)) }
    ensures spoken { IfOk result (λ r. IsSpoken r.status) }
{
    let Decoded { module, marks } = decoded;
    judged_parts(alloc, module, &marks, notes)
}

/// Whether the notes verify the module that bytes spell.
pub fn judged(alloc: Global, bytes: &[u8], notes: &[u8]) -> Result<Report, OutOfMemory>
    ensures made { IfOk result (λ r. OfJudged bytes.now notes.now (seen r)) }
    ensures spoken { IfOk result (λ r. IsSpoken r.status) }
{
    match decode(alloc, bytes) {
        Ok(decoded) => judged_module(alloc, decoded, notes),
        Err(fault) => faulty(alloc, fault),
    }
}
