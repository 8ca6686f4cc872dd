// The lines of an outline.

ghost use Rattle.std.specs.Prelude.{◌≡◌, ◌++◌, ◌∷◌, [], OnOk, IfOk};
ghost use Rattle.verify_report.specs.Lines.{reason_text, function_text, failed_line};

use outline_check::Reason;
use std::alloc::{AllocError, Global};
use wasm_values::place_text;

fn push_reason(alloc: Global, text: &mut Vec<u8>, reason: Reason) -> Result<(), AllocError>
    ensures { OnOk result (text.new.items ≡ text.old.items ++ reason_text reason) }
{
    match reason {
        Reason::Notes => text.extend_from_slice(b"notes"),
        Reason::Stable => text.extend_from_slice(b"stable"),
        Reason::Scope => text.extend_from_slice(b"scope"),
        Reason::Exposed => text.extend_from_slice(b"exposed"),
        Reason::Use => text.extend_from_slice(b"use"),
        Reason::Fact => text.extend_from_slice(b"fact"),
        Reason::Chunk => text.extend_from_slice(b"chunk"),
        Reason::Derivation(step) => {
            text.extend_from_slice(b"derivation ")?;
            let step = step.to_string(alloc)?;
            text.extend_from_slice(step.as_bytes())
        }
        Reason::Target => text.extend_from_slice(b"target"),
        Reason::Initial => text.extend_from_slice(b"initial"),
    }
}

fn push_function(alloc: Global, text: &mut Vec<u8>, function: Option<u32>) -> Result<(), AllocError>
    ensures { OnOk result (text.new.items ≡ text.old.items ++ function_text function) }
{
    match function {
        None => Ok(()),
        Some(number) => {
            text.extend_from_slice(b" in function ")?;
            let number = number.to_string(alloc)?;
            text.extend_from_slice(number.as_bytes())
        }
    }
}

/// `failed: REASON at PLACE in function F`, without the last three words where no function is meant.
pub fn failed_line(
    alloc: Global,
    at: usize,
    function: Option<u32>,
    reason: Reason,
) -> Result<Vec<u8>, AllocError>
    ensures { IfOk result (λ text. text.items ≡ failed_line at function reason) }
{
    let mut text = Vec::from_slice(alloc, b"failed: ")?;
    push_reason(alloc, &mut text, reason)?;
    text.extend_from_slice(b" at ")?;
    text.extend_from_slice(&place_text(at))?;
    push_function(alloc, &mut text, function)?;
    text.push(b'\n')?;
    Ok(text)
}
