use heap_logic::SymHeap;
use term_logic::TermId;
use wasm_values::{List, ValType};

/// A state over a table: its facts and chunks, and the terms of its slots. Of the operands the top is the last.
#[derive(Drop)]
pub struct SymState {
    pub heap: SymHeap,
    pub locals: List<(ValType, TermId)>,
    pub stack: List<(ValType, TermId)>,
    /// A term for each stable global.
    pub globals: List<Option<TermId>>,
    /// The page count of a private memory.
    pub pages: Option<TermId>,
    /// The terms of the parameters at entry.
    pub args: List<TermId>,
    /// The terms of the precondition's own variables.
    pub given: List<TermId>,
}
