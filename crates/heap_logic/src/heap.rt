use term_logic::{IdFormula, TermId};
use wasm_values::List;

/// A part of the private memory that a state owns, over terms of a table.
#[derive(Drop)]
pub enum IdChunk {
    Cell {
        width: u32,
        at: TermId,
        value: TermId,
    },
    Region {
        at: TermId,
        len: TermId,
    },
    Row {
        width: u32,
        at: TermId,
        count: TermId,
        each: IdFormula,
    },
}

/// The facts of a state, and the chunks of private memory that it owns. Its variables are those below `vars`.
#[derive(Drop)]
pub struct SymHeap {
    pub vars: u32,
    pub facts: List<IdFormula>,
    pub chunks: List<IdChunk>,
}
