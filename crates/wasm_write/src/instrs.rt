ghost use Rattle.std.specs.Prelude.{◌≡◌, ◌++◌, ◌∷◌, [], OnOk};
ghost use Rattle.wasm_write.specs.Shortest.{number_text};
ghost use Rattle.wasm_syntax.specs.FlatForm.{flat_of, flat};
ghost use Rattle.wasm_syntax.specs.declared.flat.Flat.{Flat};
ghost use Rattle.wasm_syntax.specs.Items.{instr_seen, item_seen};
ghost use Rattle.wasm_syntax.specs.Opcodes.{code_of};
ghost use Rattle.wasm_write.specs.Encoding.{plain_opcode, const_opcode, opcode_of, plain_immediates, const_text, immediates, item_text, items_text, expression_text, block_type_code};

use crate::entry::write_vector;
use crate::number::{write_number, write_word32, write_word64};
use crate::types::block_type_code;
use std::alloc::Global;
use wasm_syntax::{Code, Instr, Opcode, Plain, Seen, Simple, byte_of};
use wasm_values::{Bytes, List, OutOfMemory, Val, ValType};

fn plain_opcode(plain: Plain) -> Opcode
    ensures { result ≡ plain_opcode plain }
{
    match plain {
        Plain::Unreachable => Opcode::Unreachable,
        Plain::Nop => Opcode::Nop,
        Plain::Return => Opcode::Return,
        Plain::Drop => Opcode::Drop,
        Plain::Select => Opcode::Select,
        Plain::MemorySize => Opcode::MemorySize,
        Plain::MemoryGrow => Opcode::MemoryGrow,
    }
}

fn const_opcode(value: Val) -> Opcode
    ensures { result ≡ const_opcode value }
{
    match value {
        Val::I32(_) => Opcode::I32Const,
        Val::I64(_) => Opcode::I64Const,
    }
}

fn opcode_of(instr: Simple<'_>) -> Opcode
    ensures { result ≡ opcode_of (instr_seen instr.entry) }
{
    match instr {
        Simple::Plain(plain) => plain_opcode(plain),
        Simple::Num(op) => Opcode::Num(op),
        Simple::Const(value) => const_opcode(value),
        Simple::LocalGet(_) => Opcode::LocalGet,
        Simple::LocalSet(_) => Opcode::LocalSet,
        Simple::LocalTee(_) => Opcode::LocalTee,
        Simple::GlobalGet(_) => Opcode::GlobalGet,
        Simple::GlobalSet(_) => Opcode::GlobalSet,
        Simple::Load(op, _, _) => Opcode::Load(op),
        Simple::Store(op, _, _) => Opcode::Store(op),
        Simple::Br(_) => Opcode::Br,
        Simple::BrIf(_) => Opcode::BrIf,
        Simple::BrTable(_, _) => Opcode::BrTable,
        Simple::Call(_) => Opcode::Call,
        Simple::CallIndirect(_) => Opcode::CallIndirect,
    }
}

fn write_plain(out: &mut Bytes, plain: Plain) -> Result<(), OutOfMemory>
    ensures { OnOk result (out.new ≡ out.old ++ plain_immediates plain) }
{
    match plain {
        Plain::MemorySize | Plain::MemoryGrow => out.push(0),
        Plain::Unreachable | Plain::Nop | Plain::Return | Plain::Drop | Plain::Select => Ok(()),
    }
}

fn write_const(out: &mut Bytes, value: Val) -> Result<(), OutOfMemory>
    ensures { OnOk result (out.new ≡ out.old ++ const_text value) }
{
    match value {
        Val::I32(value) => write_word32(out, value),
        Val::I64(value) => write_word64(out, value),
    }
}

fn write_two(out: &mut Bytes, first: u32, second: u32) -> Result<(), OutOfMemory>
    ensures { OnOk result (out.new ≡ out.old ++ number_text first ++ number_text second) }
{
    write_number(out, u64::from(first))?;
    write_number(out, u64::from(second))
}

fn write_immediates(alloc: Global, out: &mut Bytes, instr: Simple<'_>) -> Result<(), OutOfMemory>
    ensures { OnOk result (out.new ≡ out.old ++ immediates (instr_seen instr.entry)) }
{
    match instr {
        Simple::Plain(plain) => write_plain(out, plain),
        Simple::Num(_) => Ok(()),
        Simple::Const(value) => write_const(out, value),
        Simple::LocalGet(x)
        | Simple::LocalSet(x)
        | Simple::LocalTee(x)
        | Simple::GlobalGet(x)
        | Simple::GlobalSet(x)
        | Simple::Br(x)
        | Simple::BrIf(x)
        | Simple::Call(x) => write_number(out, u64::from(x)),
        Simple::Load(_, align, offset) | Simple::Store(_, align, offset) => {
            write_two(out, align, offset)
        }
        Simple::BrTable(labels, last) => {
            write_vector(alloc, out, labels)?;
            write_number(out, u64::from(last))
        }
        Simple::CallIndirect(ty) => {
            write_number(out, u64::from(ty))?;
            out.push(0)
        }
    }
}

#[tactic(auto, unfolding(crate::specs::Encoding::item_text))]
fn write_one(alloc: Global, out: &mut Bytes, instr: Simple<'_>) -> Result<(), OutOfMemory>
    ensures { OnOk result (out.new ≡ out.old ++ item_text (Flat.One (instr_seen instr.entry))) }
{
    out.push(byte_of(opcode_of(instr)))?;
    write_immediates(alloc, out, instr)
}

fn write_head(out: &mut Bytes, opcode: Opcode, ty: Option<ValType>) -> Result<(), OutOfMemory>
    ensures { OnOk result (out.new ≡ out.old ++ code_of opcode ∷ block_type_code ty ∷ []) }
{
    out.push(byte_of(opcode))?;
    out.push(block_type_code(ty))
}

#[tactic(auto, unfolding(crate::specs::Encoding::item_text))]
fn write_item(alloc: Global, out: &mut Bytes, item: Seen<'_>) -> Result<(), OutOfMemory>
    ensures { OnOk result (out.new ≡ out.old ++ item_text (item_seen item.entry)) }
{
    match item {
        Seen::One(instr) => write_one(alloc, out, instr),
        Seen::Block(ty) => write_head(out, Opcode::Block, ty),
        Seen::Loop(ty) => write_head(out, Opcode::Loop, ty),
        Seen::If(ty) => write_head(out, Opcode::If, ty),
        Seen::Else => out.push(byte_of(Opcode::Else)),
        Seen::End => out.push(byte_of(Opcode::End)),
    }
}

/// Adds a body, with its last `end`.
pub(crate) fn write_code(alloc: Global, out: &mut Bytes, code: &Code) -> Result<(), OutOfMemory>
    ensures { OnOk result (out.new ≡ out.old ++ expression_text code.now) }
{
    for i in 0..code.len() {
        write_item(alloc, out, code.at(i).seen())?;
    }
    Ok(())
}

#[cycle(flatten)]
fn write_all(alloc: Global, out: &mut Bytes, instrs: &[Instr]) -> Result<(), OutOfMemory>
    ensures { OnOk result (out.new ≡ out.old ++ items_text (flat instrs.now)) }
{
    for instr in instrs {
        write_instr(alloc, out, instr)?;
    }
    Ok(())
}

#[cycle(flatten)]
fn write_instr(alloc: Global, out: &mut Bytes, instr: &Instr) -> Result<(), OutOfMemory>
    ensures { OnOk result (out.new ≡ out.old ++ items_text (flat_of instr.now)) }
{
    match instr {
        Instr::Block(ty, body) => {
            write_item(alloc, out, Seen::Block(*ty))?;
            write_all(alloc, out, body.as_slice())?;
            write_item(alloc, out, Seen::End)
        }
        Instr::Loop(ty, body) => {
            write_item(alloc, out, Seen::Loop(*ty))?;
            write_all(alloc, out, body.as_slice())?;
            write_item(alloc, out, Seen::End)
        }
        Instr::If(ty, first, other) => {
            write_item(alloc, out, Seen::If(*ty))?;
            write_all(alloc, out, first.as_slice())?;
            match other {
                None => write_item(alloc, out, Seen::End),
                Some(other) => {
                    write_item(alloc, out, Seen::Else)?;
                    write_all(alloc, out, other.as_slice())?;
                    write_item(alloc, out, Seen::End)
                }
            }
        }
        _ => write_one(alloc, out, instr.simple()),
    }
}

/// Adds an expression, with its last `end`.
pub(crate) fn write_expression(
    alloc: Global,
    out: &mut Bytes,
    instrs: &List<Instr>,
) -> Result<(), OutOfMemory>
    ensures { OnOk result (out.new ≡ out.old ++ expression_text instrs.now) }
{
    write_all(alloc, out, instrs.as_slice())?;
    write_item(alloc, out, Seen::End)
}
