ghost use Rattle.std.specs.Prelude.{◌≡◌, [], None};

use crate::heap::IdChunk;
use std::alloc::Global;
use term_logic::IdFormula;
use wasm_values::List;

/// What a move changes, over terms of a table.
#[derive(Drop)]
pub(crate) struct Change {
    /// How many variables are new.
    pub(crate) variables: u32,
    /// The facts that are added.
    pub(crate) facts: List<IdFormula>,
    /// The number of the chunk that becomes another.
    pub(crate) chunk: u32,
    pub(crate) becomes: IdChunk,
    /// The chunks that are appended.
    pub(crate) more: List<IdChunk>,
    /// The number of the chunk that goes.
    pub(crate) gone: Option<u32>,
}

impl Change {
    /// A chunk becomes another, and nothing else changes.
    pub(crate) fn turned(alloc: Global, chunk: u32, becomes: IdChunk) -> Change
        ensures { result ≡ record { variables = 0; facts = []; chunk = chunk; becomes = becomes; more = []; gone = None } }
    {
        Change {
            variables: 0,
            facts: List::new(alloc),
            chunk,
            becomes,
            more: List::new(alloc),
            gone: None,
        }
    }
}
