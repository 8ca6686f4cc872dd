// Instructions and items as code lends them.

ghost use Rattle.std.specs.Prelude.{◌≡◌, IfOk, IsTrue};
ghost use Rattle.wasm_syntax.specs.FlatForm.{is_simple};
ghost use Rattle.wasm_syntax.specs.Items.{instr_seen};

use crate::instr::{Instr, LoadOp, Plain, StoreOp};
use std::alloc::Global;
use wasm_values::{List, NumOp, OutOfMemory, Val, ValType};

/// An instruction that holds no others, with its numbers, and its labels lent (section 2.4).
#[derive(Clone, Copy)]
pub enum Simple<'a> {
    Plain(Plain),
    Num(NumOp),
    Const(Val),
    LocalGet(u32),
    LocalSet(u32),
    LocalTee(u32),
    GlobalGet(u32),
    GlobalSet(u32),
    Load(LoadOp, u32, u32),
    Store(StoreOp, u32, u32),
    Br(u32),
    BrIf(u32),
    BrTable(&'a [u32], u32),
    Call(u32),
    CallIndirect(u32),
}

/// An item of code, taken apart (section 5.4).
#[derive(Clone, Copy)]
pub enum Seen<'a> {
    One(Simple<'a>),
    Block(Option<ValType>),
    Loop(Option<ValType>),
    If(Option<ValType>),
    Else,
    End,
}

/// A list of these labels.
pub(crate) fn kept_labels(alloc: Global, labels: &[u32]) -> Result<List<u32>, OutOfMemory>
    ensures { IfOk result (λ kept. kept ≡ labels.now) }
{
    let mut kept = List::new(alloc);
    for label in labels {
        kept.push(*label)?;
    }
    Ok(kept)
}

impl Simple<'_> {
    /// The instruction with its own labels.
    pub fn instr(self, alloc: Global) -> Result<Instr, OutOfMemory>
        ensures { IfOk result (λ instr. instr ≡ instr_seen self.entry) }
    {
        match self {
            Simple::Plain(op) => Ok(Instr::Plain(op)),
            Simple::Num(op) => Ok(Instr::Num(op)),
            Simple::Const(value) => Ok(Instr::Const(value)),
            Simple::LocalGet(x) => Ok(Instr::LocalGet(x)),
            Simple::LocalSet(x) => Ok(Instr::LocalSet(x)),
            Simple::LocalTee(x) => Ok(Instr::LocalTee(x)),
            Simple::GlobalGet(x) => Ok(Instr::GlobalGet(x)),
            Simple::GlobalSet(x) => Ok(Instr::GlobalSet(x)),
            Simple::Load(op, align, offset) => Ok(Instr::Load(op, align, offset)),
            Simple::Store(op, align, offset) => Ok(Instr::Store(op, align, offset)),
            Simple::Br(l) => Ok(Instr::Br(l)),
            Simple::BrIf(l) => Ok(Instr::BrIf(l)),
            Simple::BrTable(labels, l) => Ok(Instr::BrTable(kept_labels(alloc, labels)?, l)),
            Simple::Call(f) => Ok(Instr::Call(f)),
            Simple::CallIndirect(t) => Ok(Instr::CallIndirect(t)),
        }
    }
}

impl Instr {
    /// The instruction, lent.
    pub fn simple(&self) -> Simple<'_>
        requires { IsTrue (is_simple self.now) }
        ensures { instr_seen result ≡ self.now }
    {
        match self {
            Instr::Plain(op) => Simple::Plain(*op),
            Instr::Num(op) => Simple::Num(*op),
            Instr::Const(value) => Simple::Const(*value),
            Instr::LocalGet(x) => Simple::LocalGet(*x),
            Instr::LocalSet(x) => Simple::LocalSet(*x),
            Instr::LocalTee(x) => Simple::LocalTee(*x),
            Instr::GlobalGet(x) => Simple::GlobalGet(*x),
            Instr::GlobalSet(x) => Simple::GlobalSet(*x),
            Instr::Load(op, align, offset) => Simple::Load(*op, *align, *offset),
            Instr::Store(op, align, offset) => Simple::Store(*op, *align, *offset),
            Instr::Br(l) => Simple::Br(*l),
            Instr::BrIf(l) => Simple::BrIf(*l),
            Instr::BrTable(labels, l) => Simple::BrTable(labels.as_slice(), *l),
            Instr::Call(f) => Simple::Call(*f),
            Instr::CallIndirect(t) => Simple::CallIndirect(*t),
            Instr::Block(_, _) | Instr::Loop(_, _) | Instr::If(_, _, _) => unreachable!(),
        }
    }
}
