use crate::seen::Simple;
use wasm_values::ValType;

/// What stands at a place of code, with the places where its parts begin.
///
/// `after` is the place after the `end` that closes the instruction.
#[derive(Clone, Copy)]
pub enum Next<'a> {
    /// An instruction without instructions in it. The code goes on at the next place.
    One(Simple<'a>),
    Block {
        ty: Option<ValType>,
        body: usize,
        after: usize,
    },
    Loop {
        ty: Option<ValType>,
        body: usize,
        after: usize,
    },
    /// `second` is the place after the `else`, or that of the `end` where there is no `else`.
    If {
        ty: Option<ValType>,
        first: usize,
        second: usize,
        after: usize,
    },
    /// The first side of an `if` is over.
    Else,
    /// The innermost part is over.
    End,
}
