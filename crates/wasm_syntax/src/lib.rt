//! The syntax of modules, and the bytes of instructions. Sections are those of the WebAssembly Core Specification 1.0.
#![tactic(auto)]

mod access;
mod code;
mod flat;
mod instr;
mod item;
mod kind;
pub mod laws;
mod maker;
mod module;
mod next;
mod read;
mod seen;
mod table;
mod walk;

pub use access::{bytes_loaded, bytes_stored, loaded_type, stored_type};
pub use code::Code;
pub use flat::{Flat, Head, MAX_ITEMS};
pub use instr::{Instr, LoadOp, Plain, StoreOp};
pub use item::Item;
pub use kind::{Kind, Opcode};
pub use maker::CodeMaker;
pub use module::{
    Custom, Elem, Export, ExportKind, Func, FuncType, Global, GlobalType, Import, ImportKind,
    Limits, Marks, Module, Segment,
};
pub use next::Next;
pub use seen::{Seen, Simple};
pub use table::{byte_of, opcode};
