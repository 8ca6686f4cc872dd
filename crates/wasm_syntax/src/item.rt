// The items that code stores.

ghost use Rattle.std.specs.Prelude.{◌≡◌, IfOk};
ghost use Rattle.wasm_syntax.specs.declared.flat.Flat.TheVariants as flat;
ghost use Rattle.wasm_syntax.specs.declared.instr.Instr.{Instr};
ghost use Rattle.wasm_syntax.specs.Items.{instr_seen, item_seen};
ghost use Rattle.wasm_syntax.specs.Parts.{head_item};

use crate::flat::Head;
use crate::instr::{LoadOp, Plain, StoreOp};
use crate::seen::{Seen, Simple, kept_labels};
use std::alloc::Global;
use std::marker::Model;
use wasm_values::{Duplicate, List, NumOp, OutOfMemory, Val, ValType};

/// The labels of a `br_table`, and the label where none of them is meant.
#[derive(Debug, Drop)]
struct Targets {
    labels: List<u32>,
    last: u32,
}

// What is stored of an item. A constant is a variant of its own for each width, and labels lie behind a pointer: so 16 bytes
// are enough.
#[derive(Debug, Drop)]
enum Form {
    Plain(Plain),
    Num(NumOp),
    Const32(u32),
    Const64(u64),
    LocalGet(u32),
    LocalSet(u32),
    LocalTee(u32),
    GlobalGet(u32),
    GlobalSet(u32),
    Load(LoadOp, u32, u32),
    Store(StoreOp, u32, u32),
    Br(u32),
    BrIf(u32),
    BrTable(Box<Targets>),
    Call(u32),
    CallIndirect(u32),
    Block(Option<ValType>),
    Loop(Option<ValType>),
    If(Option<ValType>),
    Else,
    End,
}

/// An item of code in the order of the file, in 16 bytes. Contracts see the item of the flat form that it is.
#[derive(Debug, Drop)]
pub struct Item {
    form: Form,
}

impl Model for Item {
    ghost use Rattle.wasm_syntax.specs.declared.flat.Flat.{Flat};
    ghost use Rattle.wasm_syntax.specs.contracts.flat.Flat as of_flat;

    ghost Value = { Flat };

    ghost coded = { of_flat.the_row.coded };

    ghost use Rattle.wasm_syntax.specs.Forms.{item_of_form};

    ghost view = { λ i. item_of_form i.form };
}

impl Item {
    /// An instruction without immediates that is no numeric operator.
    #[inline(always)]
    pub fn plain(op: Plain) -> Item
        ensures { result ≡ flat.One (Instr.Plain op) }
    {
        Item {
            form: Form::Plain(op),
        }
    }

    /// A numeric operator.
    #[inline(always)]
    pub fn num(op: NumOp) -> Item
        ensures { result ≡ flat.One (Instr.Num op) }
    {
        Item {
            form: Form::Num(op),
        }
    }

    /// `local.get`.
    #[inline(always)]
    pub fn local_get(x: u32) -> Item
        ensures { result ≡ flat.One (Instr.LocalGet x) }
    {
        Item {
            form: Form::LocalGet(x),
        }
    }

    /// `local.set`.
    #[inline(always)]
    pub fn local_set(x: u32) -> Item
        ensures { result ≡ flat.One (Instr.LocalSet x) }
    {
        Item {
            form: Form::LocalSet(x),
        }
    }

    /// `local.tee`.
    #[inline(always)]
    pub fn local_tee(x: u32) -> Item
        ensures { result ≡ flat.One (Instr.LocalTee x) }
    {
        Item {
            form: Form::LocalTee(x),
        }
    }

    /// `global.get`.
    #[inline(always)]
    pub fn global_get(x: u32) -> Item
        ensures { result ≡ flat.One (Instr.GlobalGet x) }
    {
        Item {
            form: Form::GlobalGet(x),
        }
    }

    /// `global.set`.
    #[inline(always)]
    pub fn global_set(x: u32) -> Item
        ensures { result ≡ flat.One (Instr.GlobalSet x) }
    {
        Item {
            form: Form::GlobalSet(x),
        }
    }

    /// A load.
    #[inline(always)]
    pub fn load(op: LoadOp, align: u32, offset: u32) -> Item
        ensures { result ≡ flat.One (Instr.Load op align offset) }
    {
        Item {
            form: Form::Load(op, align, offset),
        }
    }

    /// A store.
    #[inline(always)]
    pub fn store(op: StoreOp, align: u32, offset: u32) -> Item
        ensures { result ≡ flat.One (Instr.Store op align offset) }
    {
        Item {
            form: Form::Store(op, align, offset),
        }
    }

    /// `br`.
    #[inline(always)]
    pub fn br(l: u32) -> Item
        ensures { result ≡ flat.One (Instr.Br l) }
    {
        Item { form: Form::Br(l) }
    }

    /// `br_if`.
    #[inline(always)]
    pub fn br_if(l: u32) -> Item
        ensures { result ≡ flat.One (Instr.BrIf l) }
    {
        Item {
            form: Form::BrIf(l),
        }
    }

    /// `call`.
    #[inline(always)]
    pub fn call(f: u32) -> Item
        ensures { result ≡ flat.One (Instr.Call f) }
    {
        Item {
            form: Form::Call(f),
        }
    }

    /// `call_indirect`.
    #[inline(always)]
    pub fn call_indirect(t: u32) -> Item
        ensures { result ≡ flat.One (Instr.CallIndirect t) }
    {
        Item {
            form: Form::CallIndirect(t),
        }
    }

    /// A constant.
    #[inline(always)]
    pub fn constant(value: Val) -> Item
        ensures { result ≡ flat.One (Instr.Const value) }
    {
        match value {
            Val::I32(value) => Item {
                form: Form::Const32(value),
            },
            Val::I64(value) => Item {
                form: Form::Const64(value),
            },
        }
    }

    /// `br_table` with these labels.
    pub fn br_table(alloc: Global, labels: List<u32>, last: u32) -> Result<Item, OutOfMemory>
        ensures { IfOk result (λ item. item ≡ flat.One (Instr.BrTable labels last)) }
    {
        match Box::new(alloc, Targets { labels, last }) {
            Ok(targets) => Ok(Item {
                form: Form::BrTable(targets),
            }),
            Err(_) => Err(OutOfMemory),
        }
    }

    /// The item of an instruction that holds no others.
    pub fn one(alloc: Global, instr: Simple<'_>) -> Result<Item, OutOfMemory>
        ensures { IfOk result (λ item. item ≡ flat.One (instr_seen instr.entry)) }
    {
        match instr {
            Simple::Plain(op) => Ok(Item::plain(op)),
            Simple::Num(op) => Ok(Item::num(op)),
            Simple::Const(value) => Ok(Item::constant(value)),
            Simple::LocalGet(x) => Ok(Item::local_get(x)),
            Simple::LocalSet(x) => Ok(Item::local_set(x)),
            Simple::LocalTee(x) => Ok(Item::local_tee(x)),
            Simple::GlobalGet(x) => Ok(Item::global_get(x)),
            Simple::GlobalSet(x) => Ok(Item::global_set(x)),
            Simple::Load(op, align, offset) => Ok(Item::load(op, align, offset)),
            Simple::Store(op, align, offset) => Ok(Item::store(op, align, offset)),
            Simple::Br(l) => Ok(Item::br(l)),
            Simple::BrIf(l) => Ok(Item::br_if(l)),
            Simple::BrTable(labels, l) => Item::br_table(alloc, kept_labels(alloc, labels)?, l),
            Simple::Call(f) => Ok(Item::call(f)),
            Simple::CallIndirect(t) => Ok(Item::call_indirect(t)),
        }
    }

    /// The item, taken apart.
    #[inline(always)]
    pub fn seen(&self) -> Seen<'_>
        ensures { self.now ≡ item_seen result }
    {
        match &self.form {
            Form::Plain(op) => Seen::One(Simple::Plain(*op)),
            Form::Num(op) => Seen::One(Simple::Num(*op)),
            Form::Const32(value) => Seen::One(Simple::Const(Val::I32(*value))),
            Form::Const64(value) => Seen::One(Simple::Const(Val::I64(*value))),
            Form::LocalGet(x) => Seen::One(Simple::LocalGet(*x)),
            Form::LocalSet(x) => Seen::One(Simple::LocalSet(*x)),
            Form::LocalTee(x) => Seen::One(Simple::LocalTee(*x)),
            Form::GlobalGet(x) => Seen::One(Simple::GlobalGet(*x)),
            Form::GlobalSet(x) => Seen::One(Simple::GlobalSet(*x)),
            Form::Load(op, align, offset) => Seen::One(Simple::Load(*op, *align, *offset)),
            Form::Store(op, align, offset) => Seen::One(Simple::Store(*op, *align, *offset)),
            Form::Br(l) => Seen::One(Simple::Br(*l)),
            Form::BrIf(l) => Seen::One(Simple::BrIf(*l)),
            Form::BrTable(targets) => Seen::One(Simple::BrTable(
                targets.labels.as_slice(),
                targets.last,
            )),
            Form::Call(f) => Seen::One(Simple::Call(*f)),
            Form::CallIndirect(t) => Seen::One(Simple::CallIndirect(*t)),
            Form::Block(ty) => Seen::Block(*ty),
            Form::Loop(ty) => Seen::Loop(*ty),
            Form::If(ty) => Seen::If(*ty),
            Form::Else => Seen::Else,
            Form::End => Seen::End,
        }
    }

    /// The item that begins a part.
    #[inline(always)]
    pub fn head(head: Head) -> Item
        ensures { result ≡ head_item head }
    {
        match head {
            Head::Block(ty) => Item {
                form: Form::Block(ty),
            },
            Head::Loop(ty) => Item {
                form: Form::Loop(ty),
            },
            Head::If(ty) => Item { form: Form::If(ty) },
        }
    }

    /// The `else` of an `if`.
    #[inline(always)]
    pub fn turn() -> Item
        ensures { result ≡ flat.Else }
    {
        Item { form: Form::Else }
    }

    /// The `end` of a part or a body.
    #[inline(always)]
    pub fn end() -> Item
        ensures { result ≡ flat.End }
    {
        Item { form: Form::End }
    }

    /// An item that equals this one.
    pub fn copy(&self, alloc: Global) -> Result<Item, OutOfMemory>
        ensures { IfOk result (λ copied. copied ≡ self.now) }
    {
        match self.seen() {
            Seen::One(instr) => Item::one(alloc, instr),
            Seen::Block(ty) => Ok(Item::head(Head::Block(ty))),
            Seen::Loop(ty) => Ok(Item::head(Head::Loop(ty))),
            Seen::If(ty) => Ok(Item::head(Head::If(ty))),
            Seen::Else => Ok(Item::turn()),
            Seen::End => Ok(Item::end()),
        }
    }
}

impl Duplicate for Item {
    fn duplicate(&self, alloc: Global) -> Result<Item, OutOfMemory> {
        self.copy(alloc)
    }
}
