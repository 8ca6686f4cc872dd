// Printing a value as its one text.

ghost use Rattle.std.specs.Prelude.{◌≡◌, ◌++◌, ◌<◌, IfOk, OnOk};
ghost use Rattle.std.specs.Char.{digit_char};
ghost use Rattle.std.specs.Fmt.{signed_decimal};
ghost use Rattle.sexp_text.specs.Spelling.{string_byte, quoted};
ghost use Rattle.sexp_text.specs.Printing.{printed, printed_node};
ghost use Rattle.sexp_text.specs.words.Parts.{printed_parts};

use crate::bytes::is_plain;
use crate::sexp::{Node, Sexp};
use std::alloc::Global;
use wasm_values::{Bytes, OutOfMemory};

// Adds bytes at the end.
fn push_all(out: &mut Bytes, bytes: &[u8]) -> Result<(), OutOfMemory>
    ensures { OnOk result (out.new ≡ out.old ++ bytes.now) }
{
    for b in bytes {
        out.push(*b)?;
    }
    Ok(())
}

// The character of a hexadecimal digit, in lower case.
fn digit_char(d: u8) -> u8
    requires { d < 16 }
    ensures { result ≡ digit_char d }
{
    if d < 10 { b'0' + d } else { 87 + d }
}

// Adds a byte of a string, escaped where it is not plain.
fn print_byte(out: &mut Bytes, b: u8) -> Result<(), OutOfMemory>
    ensures { OnOk result (out.new ≡ out.old ++ string_byte b) }
{
    if is_plain(b) {
        return out.push(b);
    }
    out.push(b'\\')?;
    out.push(digit_char(b / 16))?;
    out.push(digit_char(b % 16))
}

// Adds a string with its quotes.
fn print_string(out: &mut Bytes, bytes: &[u8]) -> Result<(), OutOfMemory>
    ensures { OnOk result (out.new ≡ out.old ++ quoted bytes.now) }
{
    out.push(b'"')?;
    for b in bytes {
        print_byte(out, *b)?;
    }
    out.push(b'"')
}

// Adds a number in decimal.
fn print_number(alloc: Global, out: &mut Bytes, n: i128) -> Result<(), OutOfMemory>
    ensures { OnOk result (out.new ≡ out.old ++ signed_decimal n) }
{
    match format!(in alloc; "{n}") {
        Ok(text) => push_all(out, text.as_bytes()),
        Err(_) => Err(OutOfMemory),
    }
}

// Adds the parts of a list, with a space between two of them.
#[cycle(printing)]
fn print_parts(alloc: Global, out: &mut Bytes, parts: &[Sexp]) -> Result<(), OutOfMemory>
    ensures { OnOk result (out.new ≡ out.old ++ printed_parts parts.now) }
{
    let [first, rest @ ..] = parts else {
        return Ok(());
    };
    print_node(alloc, out, &first.node)?;
    for part in rest {
        out.push(b' ')?;
        print_node(alloc, out, &part.node)?;
    }
    Ok(())
}

// Adds a part.
#[cycle(printing)]
fn print_node(alloc: Global, out: &mut Bytes, node: &Node) -> Result<(), OutOfMemory>
    ensures { OnOk result (out.new ≡ out.old ++ printed_node node.now) }
{
    match node {
        Node::Num(n) => print_number(alloc, out, *n),
        Node::Word(text) => push_all(out, text.as_str().as_bytes()),
        Node::Str(text) => print_string(out, text.as_str().as_bytes()),
        Node::List { parts, .. } => {
            out.push(b'(')?;
            print_parts(alloc, out, parts.as_slice())?;
            out.push(b')')
        }
    }
}

/// The one text of a value, with one space between two parts of a list.
pub fn print_sexp(alloc: Global, s: &Sexp) -> Result<Bytes, OutOfMemory>
    ensures { IfOk result (λ text. text ≡ printed s.now) }
{
    let mut out = Bytes::new(alloc);
    print_node(alloc, &mut out, &s.node)?;
    Ok(out)
}
