//! The lines of the log.

ghost use Rattle.std.specs.Prelude.{◌≡◌, ◌++◌, IfOk, OnOk};
ghost use Rattle.wasm_link.specs.Lines.{call_head, line, value_text, values_text, refusal_word};
ghost use Rattle.sexp_text.specs.Spelling.{quoted};
ghost use Rattle.wasm_link.specs.words.{Said};

use crate::run::Run;
use sexp_text::{Node, Sexp, print_sexp};
use std::alloc::{AllocError, Global};
use wasm_instantiate::InstFault;
use wasm_values::{Bytes, OutOfMemory, Text, Val};

/// Adds a line to the log.
pub(crate) fn say(run: &mut Run, head: &[u8], word: &[u8]) -> Result<(), OutOfMemory>
    ensures { OnOk result (Said run.old run.new (line head.now word.now)) }
{
    run.text.extend_from_slice(head)?;
    run.text.extend_from_slice(b": ")?;
    run.text.extend_from_slice(word)?;
    run.text.push(b'\n')?;
    Ok(())
}

// Adds a value with its type before it.
fn push_value(alloc: Global, text: &mut Vec<u8>, value: Val) -> Result<(), AllocError>
    ensures { OnOk result (text.new.items ≡ text.old.items ++ value_text value) }
{
    match value {
        Val::I32(n) => {
            text.extend_from_slice(b" i32 ")?;
            let n = n.to_string(alloc)?;
            text.extend_from_slice(n.as_bytes())
        }
        Val::I64(n) => {
            text.extend_from_slice(b" i64 ")?;
            let n = n.to_string(alloc)?;
            text.extend_from_slice(n.as_bytes())
        }
    }
}

/// `values`, and the results of a call.
pub(crate) fn values_text(alloc: Global, values: &[Val]) -> Result<Vec<u8>, OutOfMemory>
    ensures { IfOk result (λ text. text.items ≡ values_text values.now) }
{
    let mut text = Vec::from_slice(alloc, b"values")?;
    for value in values {
        push_value(alloc, &mut text, *value)?;
    }
    Ok(text)
}

// A string as texts spell it.
#[tactic(auto, unfolding(sexp_text::specs::Printing::printed))]
fn quoted(alloc: Global, text: &Text) -> Result<Bytes, OutOfMemory>
    ensures { IfOk result (λ bytes. bytes ≡ quoted text.now) }
{
    let node = Node::Str(text.copy(alloc)?);
    print_sexp(alloc, &Sexp { at: 0, node })
}

/// How the line of a call begins.
pub(crate) fn call_head(
    alloc: Global,
    instance: &str,
    export: &Text,
) -> Result<Vec<u8>, OutOfMemory>
    ensures { IfOk result (λ text. text.items ≡ call_head instance.now export.now) }
{
    let mut text = Vec::from_slice(alloc, instance.as_bytes())?;
    let export = quoted(alloc, export)?;
    text.push(b' ')?;
    text.extend_from_slice(export.as_slice())?;
    Ok(text)
}

/// The word of a refused instantiation.
pub(crate) fn refusal_word(alloc: Global, fault: InstFault) -> Result<Vec<u8>, OutOfMemory>
    ensures { IfOk result (λ text. text.items ≡ refusal_word fault) }
{
    match fault {
        InstFault::Count => Ok(Vec::from_slice(alloc, b"count")?),
        InstFault::Mismatch(k) => {
            let mut text = Vec::from_slice(alloc, b"mismatch ")?;
            let k = k.to_string(alloc)?;
            text.extend_from_slice(k.as_bytes())?;
            Ok(text)
        }
        InstFault::Bounds => Ok(Vec::from_slice(alloc, b"bounds")?),
        InstFault::Limit => Ok(Vec::from_slice(alloc, b"limit")?),
        InstFault::OutOfMemory => Err(OutOfMemory),
    }
}
