// What is said of a module and notes in one file.

ghost use Rattle.std.specs.Prelude.{◌≡◌, ◌≤◌, length, IfOk, OnOk};
ghost use Rattle.wasm_values.specs.declared.limit.LimitWord.{LimitWord};
ghost use Rattle.report_lines.specs.Lines.{limit_line};
ghost use Rattle.report_lines.specs.Reports.{seen, IsSpoken};
ghost use Rattle.verify_report.specs.Reports.{OfSealing, OfParts, OfSplit, sealing, sealed_too_long};
ghost use Rattle.verify_report.specs.Outcomes.{verified_text};

use crate::commands::{MODULE_LIMIT, NOTES_LIMIT};
use crate::judge::judged;
use report_lines::{Report, Status, fixed, limited};
use std::alloc::Global;
use wasm_seal::{seal_bytes, split};
use wasm_values::{LimitWord, OutOfMemory};

// The sealed file of a module's bytes and notes, in place of a report that is good.
fn in_place(
    alloc: Global,
    report: Report,
    bytes: &[u8],
    notes: &[u8],
) -> Result<Report, OutOfMemory>
    requires few_bytes { length bytes.now ≤ MODULE_LIMIT }
    requires short { length notes.now ≤ NOTES_LIMIT }
    requires spoken { IsSpoken report.status }
    ensures made { IfOk result (λ r. seen r ≡ sealing bytes.now notes.now (seen report)) }
    ensures spoken { IfOk result (λ r. IsSpoken r.status) }
{
    match report.status {
        Status::Good => {
            let file = seal_bytes(alloc, bytes, notes)?;
            Ok(Report {
                text: file.into_vec(),
                status: Status::Good,
            })
        }
        _ => Ok(report),
    }
}

/// The sealed file of a module's bytes and notes that verify it, or else what is said of them.
pub fn sealing(alloc: Global, bytes: &[u8], notes: &[u8]) -> Result<Report, OutOfMemory>
    requires few_bytes { length bytes.now ≤ MODULE_LIMIT }
    requires short { length notes.now ≤ NOTES_LIMIT }
    ensures made { IfOk result (λ r. OfSealing bytes.now notes.now (seen r)) }
    ensures spoken { IfOk result (λ r. IsSpoken r.status) }
{
    match judged(alloc, bytes, notes) {
        Ok(report) => in_place(alloc, report, bytes, notes),
        Err(OutOfMemory) => Err(OutOfMemory),
    }
}

// The two parts of a file.
fn judged_parts(alloc: Global, bytes: &[u8], notes: &[u8]) -> Result<Report, OutOfMemory>
    ensures made { IfOk result (λ r. OfParts bytes.now notes.now (seen r)) }
    ensures verified { IfOk result (λ r. r.status ≡ Status.Good → r.text.items ≡ verified_text) }
    ensures spoken { IfOk result (λ r. IsSpoken r.status) }
{
    if MODULE_LIMIT < bytes.len() {
        return limited(alloc, LimitWord::Module, MODULE_LIMIT);
    }
    if NOTES_LIMIT < notes.len() {
        return limited(alloc, LimitWord::Notes, NOTES_LIMIT);
    }
    judged(alloc, bytes, notes)
}

/// Whether the notes in a sealed file verify the module in it.
pub fn judged_file(alloc: Global, file: &[u8]) -> Result<Report, OutOfMemory>
    ensures made { IfOk result (λ r. OfSplit file.now (seen r)) }
    ensures verified { IfOk result (λ r. r.status ≡ Status.Good → r.text.items ≡ verified_text) }
    ensures spoken { IfOk result (λ r. IsSpoken r.status) }
{
    match split(file) {
        Some((end, start)) => judged_parts(alloc, &file[..end], &file[start..]),
        None => fixed(alloc, b"unsealed\n", Status::Negative),
    }
}
