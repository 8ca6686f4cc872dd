// What is said of the bounds of a module's functions.

ghost use Rattle.std.specs.Prelude.{◌≡◌, ◌<◌, ◌^◌, ◌++◌, OnOk, IfOk};
ghost use Rattle.wasm_typing.specs.faults.Faults.{Marked};
ghost use Rattle.verify_report.specs.Lines.{bound_text, bound_line, bound_lines};
ghost use Rattle.report_lines.specs.Reports.{seen, IsSpoken};
ghost use Rattle.verify_report.specs.Reports.{OfModule, OfBounds, OfBounded};

use binary_grammar::Decoded;
use report_lines::{Report, Status, faulty, invalid};
use std::alloc::{AllocError, Global};
use step_bound::{Bound, imported_funcs, step_bounds};
use wasm_binary::decode;
use wasm_syntax::{Marks, Module};
use wasm_validate::{ValidFault, ValidModule, validate};
use wasm_values::OutOfMemory;

fn push_bound(alloc: Global, text: &mut Vec<u8>, bound: Bound) -> Result<(), AllocError>
    ensures { OnOk result (text.new.items ≡ text.old.items ++ bound_text bound) }
{
    match bound {
        Bound::Steps(steps) => {
            let steps = steps.to_string(alloc)?;
            text.extend_from_slice(steps.as_bytes())
        }
        Bound::Over => text.extend_from_slice(b"over"),
        Bound::Unbounded => text.extend_from_slice(b"none"),
    }
}

// `function K: B`, `function K: over` or `function K: none`
fn push_line(
    alloc: Global,
    text: &mut Vec<u8>,
    number: usize,
    bound: Bound,
) -> Result<(), AllocError>
    ensures { OnOk result (text.new.items ≡ text.old.items ++ bound_line number bound) }
{
    text.extend_from_slice(b"function ")?;
    let number = number.to_string(alloc)?;
    text.extend_from_slice(number.as_bytes())?;
    text.extend_from_slice(b": ")?;
    push_bound(alloc, text, bound)?;
    text.push(b'\n')?;
    Ok(())
}

// A line for each function, of which the first has this number.
fn bound_lines(alloc: Global, first: usize, bounds: &[Bound]) -> Result<Vec<u8>, AllocError>
    requires { first < 2 ^ 63 }
    ensures { IfOk result (λ text. text.items ≡ bound_lines first bounds.now) }
{
    let mut text = Vec::new(alloc);
    for (n, bound) in bounds.iter().enumerate() {
        push_line(alloc, &mut text, first + n, *bound)?;
    }
    Ok(text)
}

// The bounds of a valid module's functions.
fn listed(alloc: Global, valid: &ValidModule) -> Result<Report, OutOfMemory>
    ensures made { IfOk result (λ r. OfBounds valid.now (seen r)) }
    ensures spoken { IfOk result (λ r. IsSpoken r.status) }
{
    let bounds = step_bounds(alloc, valid)?;
    let first = imported_funcs(valid.module());
    Ok(Report {
        text: bound_lines(alloc, first, bounds.as_slice())?,
        status: Status::Good,
    })
}

// Whether a module is valid, and then the bounds of its functions.
fn bounded_parts(alloc: Global, module: Module, marks: &Marks) -> Result<Report, OutOfMemory>
    requires { Marked «module» marks.now }
    ensures made { IfOk result (λ r. OfModule (λ m k. OfBounds m) «module» marks.now (seen r)) }
    ensures spoken { IfOk result (λ r. IsSpoken r.status) }
{
    match validate(alloc, module, marks) {
        Ok(valid) => listed(alloc, &valid),
        Err(ValidFault::Invalid { at, word }) => invalid(alloc, at, word),
        Err(ValidFault::OutOfMemory) => Err(OutOfMemory),
    }
}

// The same of a module with its marks.
fn bounded_module(alloc: Global, decoded: Decoded) -> Result<Report, OutOfMemory>
    requires { Marked decoded.module decoded.marks }
    ensures made { IfOk result (λ r. OfModule (λ m k. OfBounds m) decoded.module decoded.marks (seen r)) }
    ensures spoken { IfOk result (λ r. IsSpoken r.status) }
{
    let Decoded { module, marks } = decoded;
    bounded_parts(alloc, module, &marks)
}

/// The bounds of the functions of the module that bytes spell.
pub fn bounded(alloc: Global, bytes: &[u8]) -> Result<Report, OutOfMemory>
    ensures made { IfOk result (λ r. OfBounded bytes.now (seen r)) }
    ensures spoken { IfOk result (λ r. IsSpoken r.status) }
{
    match decode(alloc, bytes) {
        Ok(decoded) => bounded_module(alloc, decoded),
        Err(fault) => faulty(alloc, fault),
    }
}
