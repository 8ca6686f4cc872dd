// The names of instructions.

ghost use Rattle.std.specs.Prelude.{◌≡◌, ◌++◌, OnOk};
ghost use Rattle.wasm_syntax.specs.Items.{instr_seen};
ghost use Rattle.wasm_values.specs.Names.{num_name};
ghost use Rattle.module_listing.specs.Names.{plain_name, const_name, load_name, store_name, instr_name};

use crate::text::write_text;
use wasm_syntax::{LoadOp, Plain, Simple, StoreOp};
use wasm_values::{Bytes, NumOp, OutOfMemory, Val};

fn plain_name(plain: Plain) -> &'static str
    ensures { result.now ≡ plain_name plain }
{
    match plain {
        Plain::Unreachable => "unreachable",
        Plain::Nop => "nop",
        Plain::Return => "return",
        Plain::Drop => "drop",
        Plain::Select => "select",
        Plain::MemorySize => "memory.size",
        Plain::MemoryGrow => "memory.grow",
    }
}

fn load_name(op: LoadOp) -> &'static str
    ensures { result.now ≡ load_name op }
{
    match op {
        LoadOp::I32Load => "i32.load",
        LoadOp::I64Load => "i64.load",
        LoadOp::I32Load8S => "i32.load8_s",
        LoadOp::I32Load8U => "i32.load8_u",
        LoadOp::I32Load16S => "i32.load16_s",
        LoadOp::I32Load16U => "i32.load16_u",
        LoadOp::I64Load8S => "i64.load8_s",
        LoadOp::I64Load8U => "i64.load8_u",
        LoadOp::I64Load16S => "i64.load16_s",
        LoadOp::I64Load16U => "i64.load16_u",
        LoadOp::I64Load32S => "i64.load32_s",
        LoadOp::I64Load32U => "i64.load32_u",
    }
}

fn store_name(op: StoreOp) -> &'static str
    ensures { result.now ≡ store_name op }
{
    match op {
        StoreOp::I32Store => "i32.store",
        StoreOp::I64Store => "i64.store",
        StoreOp::I32Store8 => "i32.store8",
        StoreOp::I32Store16 => "i32.store16",
        StoreOp::I64Store8 => "i64.store8",
        StoreOp::I64Store16 => "i64.store16",
        StoreOp::I64Store32 => "i64.store32",
    }
}

fn const_name(value: Val) -> &'static str
    ensures { result.now ≡ const_name value }
{
    match value {
        Val::I32(_) => "i32.const",
        Val::I64(_) => "i64.const",
    }
}

fn write_num_name(out: &mut Bytes, op: NumOp) -> Result<(), OutOfMemory>
    ensures { OnOk result (out.new ≡ out.old ++ num_name op) }
{
    let (width, name) = op.name();
    write_text(out, width)?;
    write_text(out, name)
}

/// Adds the name of an instruction.
pub(crate) fn write_name(out: &mut Bytes, instr: Simple<'_>) -> Result<(), OutOfMemory>
    ensures { OnOk result (out.new ≡ out.old ++ instr_name (instr_seen instr.entry)) }
{
    match instr {
        Simple::Plain(plain) => write_text(out, plain_name(plain)),
        Simple::Num(op) => write_num_name(out, op),
        Simple::Const(value) => write_text(out, const_name(value)),
        Simple::LocalGet(_) => write_text(out, "local.get"),
        Simple::LocalSet(_) => write_text(out, "local.set"),
        Simple::LocalTee(_) => write_text(out, "local.tee"),
        Simple::GlobalGet(_) => write_text(out, "global.get"),
        Simple::GlobalSet(_) => write_text(out, "global.set"),
        Simple::Load(op, _, _) => write_text(out, load_name(op)),
        Simple::Store(op, _, _) => write_text(out, store_name(op)),
        Simple::Br(_) => write_text(out, "br"),
        Simple::BrIf(_) => write_text(out, "br_if"),
        Simple::BrTable(_, _) => write_text(out, "br_table"),
        Simple::Call(_) => write_text(out, "call"),
        Simple::CallIndirect(_) => write_text(out, "call_indirect"),
    }
}
