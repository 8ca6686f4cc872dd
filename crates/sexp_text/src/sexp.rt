use wasm_values::{List, Text};

/// A part of a text. `at` is the place of its first byte.
#[cycle(sexp)]
#[derive(Debug, Drop)]
pub struct Sexp {
    pub at: usize,
    pub node: Node,
}

#[cycle(sexp)]
#[derive(Debug, Drop)]
pub enum Node {
    Num(i128),
    Word(Text),
    Str(Text),
    /// A list: its parts, and the place of the `)` that ends it.
    List { parts: List<Sexp>, close: usize },
}
