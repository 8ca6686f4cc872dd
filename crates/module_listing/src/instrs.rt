// The lines of instructions.

ghost use Rattle.std.specs.Prelude.{◌≡◌, ◌++◌, ◌∷◌, [], codes, length, OnOk};
ghost use Rattle.wasm_syntax.specs.FlatForm.{flat_body};
ghost use Rattle.wasm_syntax.specs.Items.{instr_seen};
ghost use Rattle.module_listing.specs.Instructions.{value_type_text, block_type_text, const_number, immediates, numbers_text, item_text, item_line, items_text};

use crate::names::write_name;
use crate::text::{write_number, write_place, write_text};
use wasm_syntax::{Code, Item, Seen, Simple};
use wasm_values::{Bytes, OutOfMemory, Val, ValType};

/// The name of a value type.
pub(crate) fn value_type_text(ty: ValType) -> &'static str
    ensures { result.now ≡ value_type_text ty }
{
    match ty {
        ValType::I32 => "i32",
        ValType::I64 => "i64",
    }
}

fn write_block_type(out: &mut Bytes, ty: Option<ValType>) -> Result<(), OutOfMemory>
    ensures { OnOk result (out.new ≡ out.old ++ block_type_text ty) }
{
    match ty {
        None => Ok(()),
        Some(ty) => {
            out.push(b' ')?;
            write_text(out, value_type_text(ty))
        }
    }
}

fn const_number(value: Val) -> u64
    ensures { result ≡ const_number value }
{
    match value {
        Val::I32(number) => u64::from(number),
        Val::I64(number) => number,
    }
}

fn write_one(out: &mut Bytes, number: u64) -> Result<(), OutOfMemory>
    ensures { OnOk result (out.new ≡ out.old ++ numbers_text (number ∷ [])) }
{
    out.push(b' ')?;
    write_number(out, number)
}

fn write_two(out: &mut Bytes, first: u32, second: u32) -> Result<(), OutOfMemory>
    ensures { OnOk result (out.new ≡ out.old ++ numbers_text (first ∷ second ∷ [])) }
{
    write_one(out, u64::from(first))?;
    write_one(out, u64::from(second))
}

fn write_all(out: &mut Bytes, numbers: &[u32]) -> Result<(), OutOfMemory>
    ensures { OnOk result (out.new ≡ out.old ++ numbers_text numbers.now) }
{
    for number in numbers {
        write_one(out, u64::from(*number))?;
    }
    Ok(())
}

fn write_labels(out: &mut Bytes, labels: &[u32], last: u32) -> Result<(), OutOfMemory>
    ensures { OnOk result (out.new ≡ out.old ++ numbers_text (labels.now ++ last ∷ [])) }
{
    write_all(out, labels)?;
    write_one(out, u64::from(last))
}

fn write_immediates(out: &mut Bytes, instr: Simple<'_>) -> Result<(), OutOfMemory>
    ensures { OnOk result (out.new ≡ out.old ++ numbers_text (immediates (instr_seen instr.entry))) }
{
    match instr {
        Simple::Plain(_) | Simple::Num(_) => Ok(()),
        Simple::Const(value) => write_one(out, const_number(value)),
        Simple::LocalGet(x)
        | Simple::LocalSet(x)
        | Simple::LocalTee(x)
        | Simple::GlobalGet(x)
        | Simple::GlobalSet(x)
        | Simple::Br(x)
        | Simple::BrIf(x)
        | Simple::Call(x)
        | Simple::CallIndirect(x) => write_one(out, u64::from(x)),
        Simple::Load(_, align, offset) | Simple::Store(_, align, offset) => {
            write_two(out, align, offset)
        }
        Simple::BrTable(labels, last) => write_labels(out, labels, last),
    }
}

fn write_head(out: &mut Bytes, name: &str, ty: Option<ValType>) -> Result<(), OutOfMemory>
    ensures { OnOk result (out.new ≡ out.old ++ name.now ++ block_type_text ty) }
{
    write_text(out, name)?;
    write_block_type(out, ty)
}

/// Adds the name and the immediates of an item.
#[tactic(auto, unfolding(crate::specs::Instructions::item_text))]
pub(crate) fn write_item(out: &mut Bytes, item: &Item) -> Result<(), OutOfMemory>
    ensures { OnOk result (out.new ≡ out.old ++ item_text item.now) }
{
    match item.seen() {
        Seen::One(instr) => {
            write_name(out, instr)?;
            write_immediates(out, instr)
        }
        Seen::Block(ty) => write_head(out, "block", ty),
        Seen::Loop(ty) => write_head(out, "loop", ty),
        Seen::If(ty) => write_head(out, "if", ty),
        Seen::Else => write_text(out, "else"),
        Seen::End => write_text(out, "end"),
    }
}

#[tactic(auto, unfolding(crate::specs::Instructions::item_line))]
fn write_line(out: &mut Bytes, at: usize, item: &Item) -> Result<(), OutOfMemory>
    ensures { OnOk result (out.new ≡ out.old ++ item_line at item.now) }
{
    write_text(out, "  ")?;
    write_place(out, at)?;
    out.push(b' ')?;
    write_item(out, item)?;
    out.push(b'\n')
}

/// Adds the lines of a body's instructions, its last `end` included.
pub(crate) fn write_code(out: &mut Bytes, places: &[usize], code: &Code) -> Result<(), OutOfMemory>
    requires { length places.now ≡ length (flat_body code.now) }
    ensures { OnOk result (out.new ≡ out.old ++ items_text places.now (flat_body code.now)) }
{
    for i in 0..code.len() {
        write_line(out, places[i], code.at(i))?;
    }
    Ok(())
}
