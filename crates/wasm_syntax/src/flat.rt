use crate::instr::Instr;
use wasm_values::ValType;

/// The most items that code has, so that a `u32` counts them.
pub const MAX_ITEMS: usize = 4_294_967_295;

/// An item of code in the order of the file (section 5.4), as contracts see one. `One` holds no block, loop or if, which are
/// spread over their own items. What is stored is an `Item`.
#[derive(Drop)]
pub enum Flat {
    One(Instr),
    Block(Option<ValType>),
    Loop(Option<ValType>),
    If(Option<ValType>),
    Else,
    End,
}

/// What begins a part: a block, loop or if, with its result type (section 2.4.5).
#[derive(Clone, Copy, Debug, PartialEq, Eq)]
pub enum Head {
    Block(Option<ValType>),
    Loop(Option<ValType>),
    If(Option<ValType>),
}
