ghost use Rattle.std.specs.Prelude.{◌≡◌, [], ◌∷◌, ◌++◌, IfOk};

use std::alloc::Global;
use wasm_values::{Duplicate, List, NumOp, OutOfMemory, Val, ValType};

/// An instruction without immediates that is no numeric operator (sections 2.4.2, 2.4.4 and 2.4.5).
#[derive(Clone, Copy, Debug, PartialEq, Eq)]
pub enum Plain {
    Unreachable,
    Nop,
    Return,
    Drop,
    Select,
    MemorySize,
    MemoryGrow,
}

/// A load, by the type of its result and the width and extension of what it reads (section 2.4.4).
#[derive(Clone, Copy, Debug, PartialEq, Eq)]
pub enum LoadOp {
    I32Load,
    I64Load,
    I32Load8S,
    I32Load8U,
    I32Load16S,
    I32Load16U,
    I64Load8S,
    I64Load8U,
    I64Load16S,
    I64Load16U,
    I64Load32S,
    I64Load32U,
}

/// A store, by the type of its operand and the width of what it writes (section 2.4.4).
#[derive(Clone, Copy, Debug, PartialEq, Eq)]
pub enum StoreOp {
    I32Store,
    I64Store,
    I32Store8,
    I32Store16,
    I64Store8,
    I64Store16,
    I64Store32,
}

/// An instruction with the instructions in it (section 2.4). The numbers of a load or store are the alignment exponent and
/// the offset; those of the others are numbers of locals, globals, labels, functions and types.
#[derive(Debug, PartialEq, Drop)]
pub enum Instr {
    Plain(Plain),
    Num(NumOp),
    Const(Val),
    LocalGet(u32),
    LocalSet(u32),
    LocalTee(u32),
    GlobalGet(u32),
    GlobalSet(u32),
    Load(LoadOp, u32, u32),
    Store(StoreOp, u32, u32),
    Block(Option<ValType>, List<Instr>),
    Loop(Option<ValType>, List<Instr>),
    If(Option<ValType>, List<Instr>, Option<List<Instr>>),
    Br(u32),
    BrIf(u32),
    BrTable(List<u32>, u32),
    Call(u32),
    CallIndirect(u32),
}

#[cycle(copy)]
fn copy_instrs(alloc: Global, instrs: &[Instr]) -> Result<List<Instr>, OutOfMemory>
    ensures { IfOk result (λ l. l ≡ instrs.now) }
{
    let mut copied = List::new(alloc);
    for instr in instrs {
        copied.push(instr.copy(alloc)?)?;
    }
    Ok(copied)
}

impl Instr {
    /// An instruction that equals this one.
    #[cycle(copy)]
    pub fn copy(&self, alloc: Global) -> Result<Instr, OutOfMemory>
        ensures { IfOk result (λ i. i ≡ self.now) }
    {
        match self {
            Instr::Plain(op) => Ok(Instr::Plain(*op)),
            Instr::Num(op) => Ok(Instr::Num(*op)),
            Instr::Const(value) => Ok(Instr::Const(*value)),
            Instr::LocalGet(x) => Ok(Instr::LocalGet(*x)),
            Instr::LocalSet(x) => Ok(Instr::LocalSet(*x)),
            Instr::LocalTee(x) => Ok(Instr::LocalTee(*x)),
            Instr::GlobalGet(x) => Ok(Instr::GlobalGet(*x)),
            Instr::GlobalSet(x) => Ok(Instr::GlobalSet(*x)),
            Instr::Load(op, align, offset) => Ok(Instr::Load(*op, *align, *offset)),
            Instr::Store(op, align, offset) => Ok(Instr::Store(*op, *align, *offset)),
            Instr::Block(ty, body) => Ok(Instr::Block(*ty, copy_instrs(alloc, body.as_slice())?)),
            Instr::Loop(ty, body) => Ok(Instr::Loop(*ty, copy_instrs(alloc, body.as_slice())?)),
            Instr::If(ty, first, None) => Ok(Instr::If(
                *ty,
                copy_instrs(alloc, first.as_slice())?,
                None,
            )),
            Instr::If(ty, first, Some(other)) => {
                let first = copy_instrs(alloc, first.as_slice())?;
                Ok(Instr::If(*ty, first, Some(copy_instrs(alloc, other.as_slice())?)))
            }
            Instr::Br(l) => Ok(Instr::Br(*l)),
            Instr::BrIf(l) => Ok(Instr::BrIf(*l)),
            Instr::BrTable(ls, l) => Ok(Instr::BrTable(ls.copy(alloc)?, *l)),
            Instr::Call(f) => Ok(Instr::Call(*f)),
            Instr::CallIndirect(t) => Ok(Instr::CallIndirect(*t)),
        }
    }
}

impl Duplicate for Instr {
    fn duplicate(&self, alloc: Global) -> Result<Instr, OutOfMemory> {
        self.copy(alloc)
    }
}
