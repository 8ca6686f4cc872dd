use wasm_syntax::{Func, FuncType, GlobalType};
use wasm_values::{Bytes, List, Text, Val};

/// A function (section 4.2.6): one of a module, by its type, its instance, and its position in that instance's `code`; or
/// one of a host, which has a type and no code.
#[derive(Debug, Drop)]
pub enum FuncInst {
    Code {
        ty: FuncType,
        instance: u32,
        code: u32,
    },
    Host {
        ty: FuncType,
    },
}

/// A table (section 4.2.7): for each entry a function's address, or nothing, and the greatest number of entries, if there
/// is one.
#[derive(Debug, PartialEq, Drop)]
pub struct TableInst {
    pub entries: List<Option<u32>>,
    pub max: Option<u32>,
}

/// A memory (section 4.2.8): its bytes, and the greatest number of pages, if there is one.
#[derive(Debug, Drop)]
pub struct MemInst {
    pub bytes: Bytes,
    pub max: Option<u32>,
}

/// A global (section 4.2.9): its type and its value.
#[derive(Clone, Copy, Debug, PartialEq, Eq)]
pub struct GlobalInst {
    pub ty: GlobalType,
    pub value: Val,
}

/// What an instance exports, or is given for an import: a function, table, memory or global by its address (section
/// 4.2.11).
#[derive(Clone, Copy, Debug, PartialEq, Eq)]
pub enum Extern {
    Func(u32),
    Table(u32),
    Memory(u32),
    Global(u32),
}

/// An instance of a module (section 4.2.5).
#[derive(Debug, Drop)]
pub struct Instance {
    /// The module's types.
    pub types: List<FuncType>,
    /// The functions that the module defines.
    pub code: List<Func>,
    /// Addresses of functions, imports first, and likewise of tables, memories and globals.
    pub funcs: List<u32>,
    pub tables: List<u32>,
    pub memories: List<u32>,
    pub globals: List<u32>,
    pub exports: List<(Text, Extern)>,
    /// The addresses of the functions that the module's element segments name, in the order of the segments and of their
    /// entries, each as often as it is named.
    pub elems: List<u32>,
}

/// All that instances share, by address, and the instances (section 4.2.3).
#[derive(Debug, Drop)]
pub struct Store {
    pub funcs: List<FuncInst>,
    pub tables: List<TableInst>,
    pub memories: List<MemInst>,
    pub globals: List<GlobalInst>,
    pub instances: List<Instance>,
}
