ghost use Rattle.std.specs.Prelude.{◌≡◌, []};
ghost use Rattle.wasm_store.specs.Configuration.{started};

use crate::store::Store;
use std::alloc::Global;
use std::marker::Model;
use wasm_values::{List, Val};

/// An open block (section 4.2.12, labels).
#[derive(Clone, Copy, Debug, PartialEq, Eq)]
pub struct Label {
    /// How many operands a branch to it takes.
    pub arity: u32,
    /// How many operands lie below it.
    pub height: u32,
    /// The position where the body of a loop begins. Other blocks have none.
    pub again: Option<u32>,
    /// The position after the block.
    pub after: u32,
}

/// The frame of a module's function (section 4.2.12, activations). `instance` and `func` are addresses in the store.
#[derive(Debug, PartialEq, Drop)]
pub struct CodeFrame {
    pub instance: u32,
    pub func: u32,
    pub locals: List<Val>,
    /// The operands, the topmost last.
    pub operands: List<Val>,
    /// The open blocks, the innermost last.
    pub labels: List<Label>,
    /// The position in the function's code where the rest of the innermost open part begins.
    pub position: u32,
}

/// A frame: of a module's function, or of a host's, which has been given the results of the last function that it called.
#[derive(Debug, PartialEq, Drop)]
pub enum Frame {
    Code(CodeFrame),
    Host {
        func: u32,
        args: List<Val>,
        given: List<Val>,
    },
}

/// What a run has come to.
#[derive(Debug, PartialEq, Drop)]
pub enum Outcome {
    Running,
    Done(List<Val>),
    Trapped,
}

/// A configuration: the store, the frames from bottom to top, and the outcome (section 4.2.13). Contracts see the frames
/// with the top one first, and the rest of their code as instruction trees.
#[derive(Debug, Drop)]
pub struct Config {
    pub store: Store,
    pub frames: List<Frame>,
    pub outcome: Outcome,
}

impl Model for Config {
    ghost use Rattle.std.specs.Coded.{codes};
    ghost use Rattle.wasm_syntax.specs.contracts.instr.Instr as of_instr;
    ghost use Rattle.wasm_store.specs.words.Coding.{sequence_code};
    ghost use Rattle.wasm_store.specs.Configuration.{Configuration};

    ghost Value = { Configuration };

    ghost coded = { Prim.hlevel (codes, sequence_code, of_instr.the_row.coded) };

    ghost use Rattle.wasm_store.specs.Seen.{seen};

    ghost view = { seen };
}

impl Config {
    /// Nothing in the store and no frames: done, with no values. It keeps its allocator and takes no memory.
    pub fn new(alloc: Global) -> Config
        ensures { result ≡ started }
    {
        Config {
            store: Store {
                funcs: List::new(alloc),
                tables: List::new(alloc),
                memories: List::new(alloc),
                globals: List::new(alloc),
                instances: List::new(alloc),
            },
            frames: List::new(alloc),
            outcome: Outcome::Done(List::new(alloc)),
        }
    }
}
