// What is said of bytes, and of the module that they spell.

ghost use Rattle.std.specs.Prelude.{◌≡◌, IfOk};
ghost use Rattle.report_lines.specs.Reports.{IsFaultReport, invalid_report, seen, IsSpoken};
ghost use Rattle.verify_report.specs.Reports.{OfModule, OfChecked, OfShown, module_valid, module_listed};
ghost use Rattle.wasm_typing.specs.faults.Faults.{Marked};

use binary_grammar::Decoded;
use module_listing::listing;
use report_lines::{Report, Status, faulty, fixed, invalid};
use std::alloc::Global;
use wasm_binary::decode;
use wasm_syntax::{Marks, Module};
use wasm_validate::{ValidFault, ValidModule, validate};
use wasm_values::OutOfMemory;

// What is said of a valid module.
fn accepted(alloc: Global, _valid: &ValidModule) -> Result<Report, OutOfMemory>
    ensures made { IfOk result (λ r. seen r ≡ module_valid) }
    ensures spoken { IfOk result (λ r. IsSpoken r.status) }
{
    fixed(alloc, b"valid\n", Status::Good)
}

// Whether a module is valid.
fn checked_parts(alloc: Global, module: Module, marks: &Marks) -> Result<Report, OutOfMemory>
    requires { Marked «module» marks.now }
    ensures made { IfOk result (λ r. OfModule (λ m k r. r ≡ module_valid) «module» marks.now (seen r)) }
    ensures spoken { IfOk result (λ r. IsSpoken r.status) }
{
    match validate(alloc, module, marks) {
        Ok(valid) => accepted(alloc, &valid),
        Err(ValidFault::Invalid { at, word }) => invalid(alloc, at, word),
        Err(ValidFault::OutOfMemory) => Err(OutOfMemory),
    }
}

// The same of a module with its marks.
fn checked_module(alloc: Global, decoded: Decoded) -> Result<Report, OutOfMemory>
    requires { Marked decoded.module decoded.marks }
    ensures made { IfOk result (λ r. OfModule (λ m k r. r ≡ module_valid) decoded.module decoded.marks (seen r)) }
    ensures spoken { IfOk result (λ r. IsSpoken r.status) }
{
    let Decoded { module, marks } = decoded;
    checked_parts(alloc, module, &marks)
}

/// Whether bytes spell a valid module.
pub fn checked(alloc: Global, bytes: &[u8]) -> Result<Report, OutOfMemory>
    ensures made { IfOk result (λ r. OfChecked bytes.now (seen r)) }
    ensures spoken { IfOk result (λ r. IsSpoken r.status) }
{
    match decode(alloc, bytes) {
        Ok(decoded) => checked_module(alloc, decoded),
        Err(fault) => faulty(alloc, fault),
    }
}

// The listing of a module.
fn listed(alloc: Global, decoded: &Decoded) -> Result<Report, OutOfMemory>
    requires { Marked decoded.now.module decoded.now.marks }
    ensures made { IfOk result (λ r. seen r ≡ module_listed decoded.now.module decoded.now.marks) }
    ensures spoken { IfOk result (λ r. IsSpoken r.status) }
{
    let text = listing(alloc, &decoded.module, &decoded.marks)?;
    Ok(Report {
        text: text.into_vec(),
        status: Status::Good,
    })
}

// The listing of a module, which is dropped then.
fn shown_module(alloc: Global, decoded: Decoded) -> Result<Report, OutOfMemory>
    requires { Marked decoded.module decoded.marks }
    ensures made { IfOk result (λ r. seen r ≡ module_listed decoded.module decoded.marks) }
    ensures spoken { IfOk result (λ r. IsSpoken r.status) }
{
    listed(alloc, &decoded)
}

/// The listing of the module that bytes spell.
pub fn shown(alloc: Global, bytes: &[u8]) -> Result<Report, OutOfMemory>
    ensures made { IfOk result (λ r. OfShown bytes.now (seen r)) }
    ensures spoken { IfOk result (λ r. IsSpoken r.status) }
{
    match decode(alloc, bytes) {
        Ok(decoded) => shown_module(alloc, decoded),
        Err(fault) => faulty(alloc, fault),
    }
}
