ghost use Rattle.std.specs.Prelude.{◌≡◌, IfOk};

use crate::code::Code;
use crate::instr::Instr;
use std::alloc;
use wasm_values::{Bytes, Duplicate, List, OutOfMemory, Text, ValType};

/// The limits of a table or memory: its size in elements or pages at first, and the greatest, if there is one (section
/// 2.3.4).
#[derive(Clone, Copy, Debug, PartialEq, Eq)]
pub struct Limits {
    pub min: u32,
    pub max: Option<u32>,
}

/// The type of a global: that of its value, and whether it may be written (section 2.3.7).
#[derive(Clone, Copy, Debug, PartialEq, Eq)]
pub struct GlobalType {
    pub value: ValType,
    pub mutable: bool,
}

/// What an import is: a function by the number of its type, or a table, memory or global by its type (section 2.5.11).
#[derive(Clone, Copy, Debug, PartialEq, Eq)]
pub enum ImportKind {
    Func(u32),
    Table(Limits),
    Memory(Limits),
    Global(GlobalType),
}

/// What an export is: a function, table, memory or global by its number (section 2.5.10).
#[derive(Clone, Copy, Debug, PartialEq, Eq)]
pub enum ExportKind {
    Func(u32),
    Table(u32),
    Memory(u32),
    Global(u32),
}

/// The type of a function (section 2.3.3).
#[derive(Debug, PartialEq, Drop)]
pub struct FuncType {
    pub params: List<ValType>,
    pub results: List<ValType>,
}

/// An import, by its two names (section 2.5.11).
#[derive(Debug, PartialEq, Drop)]
pub struct Import {
    pub module: Text,
    pub name: Text,
    pub kind: ImportKind,
}

/// An export, by its name (section 2.5.10).
#[derive(Debug, PartialEq, Drop)]
pub struct Export {
    pub name: Text,
    pub kind: ExportKind,
}

/// A global that the module defines, with the expression of its first value (section 2.5.6).
#[derive(Debug, PartialEq, Drop)]
pub struct Global {
    pub ty: GlobalType,
    pub init: List<Instr>,
}

/// A function that the module defines: the number of its type, its locals after the parameters, and its body (section
/// 2.5.3).
#[derive(Debug, Drop)]
pub struct Func {
    pub ty: u32,
    pub locals: List<ValType>,
    pub body: Code,
}

/// An element segment: the functions that go into a table from the offset on (section 2.5.7).
#[derive(Debug, PartialEq, Drop)]
pub struct Elem {
    pub table: u32,
    pub offset: List<Instr>,
    pub funcs: List<u32>,
}

/// A data segment: the bytes that go into a memory from the offset on (section 2.5.8).
#[derive(Debug, PartialEq, Drop)]
pub struct Segment {
    pub memory: u32,
    pub offset: List<Instr>,
    pub bytes: Bytes,
}

/// A custom section. `after` is the id of the last other section before it that has an entry, or 0 (section 5.5.3).
#[derive(Debug, PartialEq, Drop)]
pub struct Custom {
    pub after: u8,
    pub name: Text,
    pub bytes: Bytes,
}

/// A module (section 2.5).
#[derive(Debug, Drop)]
pub struct Module {
    pub types: List<FuncType>,
    pub imports: List<Import>,
    pub funcs: List<Func>,
    pub tables: List<Limits>,
    pub memories: List<Limits>,
    pub globals: List<Global>,
    pub exports: List<Export>,
    pub start: Option<u32>,
    pub elems: List<Elem>,
    pub segments: List<Segment>,
    pub customs: List<Custom>,
}

impl Limits {
    /// Limits that equal these. It takes no memory.
    pub fn copy(&self, _alloc: alloc::Global) -> Result<Limits, OutOfMemory>
        ensures { result ≡ Ok self.now }
    {
        Ok(*self)
    }
}

impl Duplicate for Limits {
    fn duplicate(&self, alloc: alloc::Global) -> Result<Limits, OutOfMemory> {
        self.copy(alloc)
    }
}

impl GlobalType {
    /// A type of a global that equals this one. It takes no memory.
    pub fn copy(&self, _alloc: alloc::Global) -> Result<GlobalType, OutOfMemory>
        ensures { result ≡ Ok self.now }
    {
        Ok(*self)
    }
}

impl ImportKind {
    /// A kind of an import that equals this one. It takes no memory.
    pub fn copy(&self, _alloc: alloc::Global) -> Result<ImportKind, OutOfMemory>
        ensures { result ≡ Ok self.now }
    {
        Ok(*self)
    }
}

impl ExportKind {
    /// A kind of an export that equals this one. It takes no memory.
    pub fn copy(&self, _alloc: alloc::Global) -> Result<ExportKind, OutOfMemory>
        ensures { result ≡ Ok self.now }
    {
        Ok(*self)
    }
}

impl FuncType {
    /// A function type that equals this one.
    pub fn copy(&self, alloc: alloc::Global) -> Result<FuncType, OutOfMemory>
        ensures { IfOk result (λ copied. copied ≡ self.now) }
    {
        Ok(FuncType {
            params: self.params.copy(alloc)?,
            results: self.results.copy(alloc)?,
        })
    }
}

impl Duplicate for FuncType {
    fn duplicate(&self, alloc: alloc::Global) -> Result<FuncType, OutOfMemory> {
        self.copy(alloc)
    }
}

impl Import {
    /// An import that equals this one.
    pub fn copy(&self, alloc: alloc::Global) -> Result<Import, OutOfMemory>
        ensures { IfOk result (λ copied. copied ≡ self.now) }
    {
        Ok(Import {
            module: self.module.copy(alloc)?,
            name: self.name.copy(alloc)?,
            kind: self.kind,
        })
    }
}

impl Duplicate for Import {
    fn duplicate(&self, alloc: alloc::Global) -> Result<Import, OutOfMemory> {
        self.copy(alloc)
    }
}

impl Export {
    /// An export that equals this one.
    pub fn copy(&self, alloc: alloc::Global) -> Result<Export, OutOfMemory>
        ensures { IfOk result (λ copied. copied ≡ self.now) }
    {
        Ok(Export {
            name: self.name.copy(alloc)?,
            kind: self.kind,
        })
    }
}

impl Duplicate for Export {
    fn duplicate(&self, alloc: alloc::Global) -> Result<Export, OutOfMemory> {
        self.copy(alloc)
    }
}

impl Global {
    /// A global that equals this one.
    pub fn copy(&self, alloc: alloc::Global) -> Result<Global, OutOfMemory>
        ensures { IfOk result (λ copied. copied ≡ self.now) }
    {
        Ok(Global {
            ty: self.ty,
            init: self.init.copy(alloc)?,
        })
    }
}

impl Duplicate for Global {
    fn duplicate(&self, alloc: alloc::Global) -> Result<Global, OutOfMemory> {
        self.copy(alloc)
    }
}

impl Func {
    /// A function that equals this one.
    pub fn copy(&self, alloc: alloc::Global) -> Result<Func, OutOfMemory>
        ensures { IfOk result (λ copied. copied ≡ self.now) }
    {
        Ok(Func {
            ty: self.ty,
            locals: self.locals.copy(alloc)?,
            body: self.body.copy(alloc)?,
        })
    }
}

impl Duplicate for Func {
    fn duplicate(&self, alloc: alloc::Global) -> Result<Func, OutOfMemory> {
        self.copy(alloc)
    }
}

impl Elem {
    /// An element segment that equals this one.
    pub fn copy(&self, alloc: alloc::Global) -> Result<Elem, OutOfMemory>
        ensures { IfOk result (λ copied. copied ≡ self.now) }
    {
        Ok(Elem {
            table: self.table,
            offset: self.offset.copy(alloc)?,
            funcs: self.funcs.copy(alloc)?,
        })
    }
}

impl Duplicate for Elem {
    fn duplicate(&self, alloc: alloc::Global) -> Result<Elem, OutOfMemory> {
        self.copy(alloc)
    }
}

impl Segment {
    /// A data segment that equals this one.
    pub fn copy(&self, alloc: alloc::Global) -> Result<Segment, OutOfMemory>
        ensures { IfOk result (λ copied. copied ≡ self.now) }
    {
        Ok(Segment {
            memory: self.memory,
            offset: self.offset.copy(alloc)?,
            bytes: self.bytes.copy(alloc)?,
        })
    }
}

impl Duplicate for Segment {
    fn duplicate(&self, alloc: alloc::Global) -> Result<Segment, OutOfMemory> {
        self.copy(alloc)
    }
}

impl Custom {
    /// A custom section that equals this one.
    pub fn copy(&self, alloc: alloc::Global) -> Result<Custom, OutOfMemory>
        ensures { IfOk result (λ copied. copied ≡ self.now) }
    {
        Ok(Custom {
            after: self.after,
            name: self.name.copy(alloc)?,
            bytes: self.bytes.copy(alloc)?,
        })
    }
}

impl Duplicate for Custom {
    fn duplicate(&self, alloc: alloc::Global) -> Result<Custom, OutOfMemory> {
        self.copy(alloc)
    }
}

impl Module {
    /// A module that equals this one.
    pub fn copy(&self, alloc: alloc::Global) -> Result<Module, OutOfMemory>
        ensures { IfOk result (λ copied. copied ≡ self.now) }
    {
        Ok(Module {
            types: self.types.copy(alloc)?,
            imports: self.imports.copy(alloc)?,
            funcs: self.funcs.copy(alloc)?,
            tables: self.tables.copy(alloc)?,
            memories: self.memories.copy(alloc)?,
            globals: self.globals.copy(alloc)?,
            exports: self.exports.copy(alloc)?,
            start: self.start,
            elems: self.elems.copy(alloc)?,
            segments: self.segments.copy(alloc)?,
            customs: self.customs.copy(alloc)?,
        })
    }
}

/// Where each entry of a module stands in its bytes, as byte offsets.
///
/// Each list has the place of each entry of the module's list of the same name. `start` is the place of the
/// start function's number, or 0 where there is no start. `code` has the places of each body's instructions in
/// file order, `else` and `end` included, the last `end` of the body too.
#[derive(Debug, PartialEq, Drop)]
pub struct Marks {
    /// The number of bytes of the module.
    pub len: usize,
    pub types: List<usize>,
    pub imports: List<usize>,
    pub funcs: List<usize>,
    pub tables: List<usize>,
    pub memories: List<usize>,
    pub globals: List<usize>,
    pub exports: List<usize>,
    pub start: usize,
    pub elems: List<usize>,
    pub segments: List<usize>,
    pub code: List<List<usize>>,
}
