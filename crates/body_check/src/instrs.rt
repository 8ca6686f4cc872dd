// What an instruction that holds no others does to the operands, where its other needs are met.

ghost use Rattle.std.specs.Prelude.{◌≡◌, [], ◌∷◌, ◌++◌, None, IfOk, IsTrue, reverse, length};
ghost use Rattle.wasm_values.specs.Operators.{operand_type, result_type};
ghost use Rattle.wasm_syntax.specs.declared.instr.Instr.{Instr};
ghost use Rattle.wasm_syntax.specs.Items.{instr_seen};
ghost use Rattle.wasm_syntax.specs.Accesses.{loaded_type, stored_type};
ghost use Rattle.wasm_typing.specs.Typing.{Types, types_of, num_takes, Turns, Takes};
ghost use Rattle.body_check.specs.words.Operands.{Are, Goes};
ghost use Rattle.body_check.specs.words.Steps.{context_in, AreNames, labels_in, is_variable, is_transfer, IsReady, Acts, Steps};

use crate::names::{self, Names};
use crate::needs::first_need;
use crate::open::{Labels, label_at};
use crate::operands::Operands;
use wasm_syntax::{Plain, Simple, loaded_type, stored_type};
use wasm_typing::ValidWord;
use wasm_values::{NumOp, OutOfMemory, ValType};

fn act_plain(
    operands: &mut Operands,
    names: &Names<'_>,
    labels: &Labels<'_>,
    op: Plain,
) -> Result<bool, OutOfMemory>
    requires names { AreNames names.now }
    requires ready { IsReady (context_in names.now) (labels_in labels.now) (Instr.Plain op) }
    ensures below { operands.new.below ≡ operands.old.below }
    ensures goes { Acts result (Are operands.old) (Are operands.new) (context_in names.now) (labels_in labels.now) (Instr.Plain op) }
{
    match op {
        Plain::Unreachable => {
            operands.die();
            Ok(true)
        }
        Plain::Nop => Ok(true),
        Plain::Return => Ok(operands.leave_with(names.results)),
        Plain::Drop => Ok(operands.drop_one()),
        Plain::Select => operands.select(),
        Plain::MemorySize => operands.turn(&[], &[ValType::I32]),
        Plain::MemoryGrow => operands.turn(&[ValType::I32], &[ValType::I32]),
    }
}

fn act_variable(
    operands: &mut Operands,
    names: &Names<'_>,
    labels: &Labels<'_>,
    instr: Simple<'_>,
) -> Result<bool, OutOfMemory>
    requires names { AreNames names.now }
    requires kind { IsTrue (is_variable (instr_seen instr)) }
    requires ready { IsReady (context_in names.now) (labels_in labels.now) (instr_seen instr) }
    ensures below { operands.new.below ≡ operands.old.below }
    ensures goes { Acts result (Are operands.old) (Are operands.new) (context_in names.now) (labels_in labels.now) (instr_seen instr.entry) }
{
    match instr {
        Simple::LocalGet(x) => match names::local_type(names, x) {
            Some(ty) => operands.turn(&[], &[ty]),
            None => Ok(false),
        },
        Simple::LocalSet(x) => match names::local_type(names, x) {
            Some(ty) => operands.turn(&[ty], &[]),
            None => Ok(false),
        },
        Simple::LocalTee(x) => match names::local_type(names, x) {
            Some(ty) => operands.turn(&[ty], &[ty]),
            None => Ok(false),
        },
        Simple::GlobalGet(x) => match names::global_type(names, x) {
            Some(ty) => operands.turn(&[], &[ty.value]),
            None => Ok(false),
        },
        Simple::GlobalSet(x) => match names::global_type(names, x) {
            Some(ty) => operands.turn(&[ty.value], &[]),
            None => Ok(false),
        },
        _ => unreachable!(),
    }
}

fn act_num(operands: &mut Operands, op: NumOp) -> Result<bool, OutOfMemory>
    ensures below { operands.new.below ≡ operands.old.below }
    ensures goes { IfOk result (λ went. Goes went (Are operands.old) (Are operands.new) (Turns (num_takes op) (result_type op ∷ []))) }
{
    let (ty, is_one, gives) = match op {
        NumOp::W32(op) => (ValType::I32, op.is_unary(), ValType::I32),
        NumOp::W64(op) => (
            ValType::I64,
            op.is_unary(),
            if op.is_test() {
                ValType::I32
            } else {
                ValType::I64
            },
        ),
        NumOp::Wrap => (ValType::I64, true, ValType::I32),
        NumOp::ExtendS | NumOp::ExtendU => (ValType::I32, true, ValType::I64),
    };
    if is_one {
        operands.turn(&[ty], &[gives])
    } else {
        operands.turn(&[ty, ty], &[gives])
    }
}

/// An operand of type i32 and operands of these types become operands of others, if they are there.
fn turn_over(
    operands: &mut Operands,
    takes: &[ValType],
    gives: &[ValType],
) -> Result<bool, OutOfMemory>
    ensures below { operands.new.below ≡ operands.old.below }
    ensures goes { IfOk result (λ went. Goes went (Are operands.old) (Are operands.new) (Turns (ValType.I32 ∷ reverse takes.now) (reverse gives.now))) }
{
    if !operands.take(ValType::I32) {
        return Ok(false);
    }
    operands.turn(takes, gives)
}

fn act_transfer(
    operands: &mut Operands,
    names: &Names<'_>,
    labels: &Labels<'_>,
    instr: Simple<'_>,
) -> Result<bool, OutOfMemory>
    requires names { AreNames names.now }
    requires kind { IsTrue (is_transfer (instr_seen instr)) }
    requires ready { IsReady (context_in names.now) (labels_in labels.now) (instr_seen instr) }
    ensures below { operands.new.below ≡ operands.old.below }
    ensures goes { Acts result (Are operands.old) (Are operands.new) (context_in names.now) (labels_in labels.now) (instr_seen instr.entry) }
{
    match instr {
        Simple::Br(l) => match label_at(labels, l) {
            Some(ty) => Ok(operands.leave_with(ty)),
            None => Ok(false),
        },
        Simple::BrIf(l) => match label_at(labels, l) {
            Some(ty) => operands.keep_with(ty),
            None => Ok(false),
        },
        Simple::BrTable(_, l) => match label_at(labels, l) {
            Some(ty) => Ok(operands.choose_with(ty)),
            None => Ok(false),
        },
        Simple::Call(f) => match names::func_type(names, f) {
            Some(ty) => operands.turn(ty.params.as_slice(), ty.results.as_slice()),
            None => Ok(false),
        },
        Simple::CallIndirect(t) => match names::numbered_type(names, t) {
            Some(ty) => turn_over(operands, ty.params.as_slice(), ty.results.as_slice()),
            None => Ok(false),
        },
        _ => unreachable!(),
    }
}

/// What an instruction does to the operands, where its other needs are met. It tells whether they were there.
fn act(
    operands: &mut Operands,
    names: &Names<'_>,
    labels: &Labels<'_>,
    instr: Simple<'_>,
) -> Result<bool, OutOfMemory>
    requires names { AreNames names.now }
    requires ready { IsReady (context_in names.now) (labels_in labels.now) (instr_seen instr) }
    ensures below { operands.new.below ≡ operands.old.below }
    ensures goes { Acts result (Are operands.old) (Are operands.new) (context_in names.now) (labels_in labels.now) (instr_seen instr.entry) }
{
    match instr {
        Simple::Plain(op) => act_plain(operands, names, labels, op),
        Simple::Num(op) => act_num(operands, op),
        Simple::Const(value) => operands.turn(&[], &[value.ty()]),
        Simple::Load(op, _, _) => operands.turn(&[ValType::I32], &[loaded_type(op)]),
        Simple::Store(op, _, _) => operands.turn(&[ValType::I32, stored_type(op)], &[]),
        Simple::LocalGet(_) | Simple::LocalSet(_) | Simple::LocalTee(_) => act_variable(
            operands, names, labels, instr,
        ),
        Simple::GlobalGet(_) | Simple::GlobalSet(_) => act_variable(operands, names, labels, instr),
        Simple::Br(_) | Simple::BrIf(_) | Simple::BrTable(_, _) => act_transfer(
            operands, names, labels, instr,
        ),
        Simple::Call(_) | Simple::CallIndirect(_) => act_transfer(operands, names, labels, instr),
    }
}

/// One instruction that holds no others: its word, if it is at fault.
pub(crate) fn step(
    operands: &mut Operands,
    names: &Names<'_>,
    labels: &Labels<'_>,
    instr: Simple<'_>,
) -> Result<Option<ValidWord>, OutOfMemory>
    requires names { AreNames names.now }
    ensures below { operands.new.below ≡ operands.old.below }
    ensures goes { IfOk result (λ fault. Steps fault (Are operands.old) (Are operands.new) (context_in names.now) (labels_in labels.now) (instr_seen instr.entry)) }
{
    match first_need(names, labels, instr) {
        Some(word) => Ok(Some(word)),
        None => {
            if act(operands, names, labels, instr)? {
                Ok(None)
            } else {
                Ok(Some(ValidWord::Stack))
            }
        }
    }
}
