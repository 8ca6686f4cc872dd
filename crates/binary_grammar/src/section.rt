use wasm_syntax::{Code, Elem, Export, FuncType, Global, Import, Limits, Marks, Module, Segment};
use wasm_values::{Bytes, List, Text, ValType};

/// A function's locals and code, and the place of each of its instructions.
#[derive(Drop)]
pub struct Body {
    pub locals: List<ValType>,
    pub code: Code,
    pub places: List<usize>,
}

/// A section's contents, with the place of each entry.
#[derive(Drop)]
pub enum Section {
    Custom(Text, Bytes),
    Types(List<FuncType>, List<usize>),
    Imports(List<Import>, List<usize>),
    Funcs(List<u32>, List<usize>),
    Tables(List<Limits>, List<usize>),
    Memories(List<Limits>, List<usize>),
    Globals(List<Global>, List<usize>),
    Exports(List<Export>, List<usize>),
    Start(u32, usize),
    Elems(List<Elem>, List<usize>),
    Bodies(List<Body>),
    Segments(List<Segment>, List<usize>),
}

/// A module of which some sections were read.
///
/// Its functions are apart until the end: `declared` has their types, `bodies` the rest. `last` is the id of the last
/// section that is not custom, `after` of the last such section that has an entry, or 0.
#[derive(Drop)]
pub struct Draft {
    pub module: Module,
    pub marks: Marks,
    pub declared: List<u32>,
    pub bodies: List<Body>,
    pub last: u8,
    pub after: u8,
}

/// A module with the places of its entries.
#[derive(Drop)]
pub struct Decoded {
    pub module: Module,
    pub marks: Marks,
}
