ghost use Rattle.std.specs.Prelude.{◌≡◌, IfOk};
ghost use Rattle.outline_rules.specs.States.{State};
ghost use Rattle.symbolic_state.specs.Snapshots.{Remembers, Follows, Restorable};

use crate::copies::{copied, copied_chunks};
use crate::tracked::TrackedState;
use heap_logic::IdChunk;
use std::alloc::Global;
use term_logic::TermId;
use wasm_values::{List, OutOfMemory, ValType};

/// What is needed to come back to a state, but for its facts, of which later states have no fewer.
#[derive(Drop)]
pub struct Snapshot {
    vars: u32,
    facts: usize,
    chunks: List<IdChunk>,
    locals: List<(ValType, TermId)>,
    stack: List<(ValType, TermId)>,
    globals: List<Option<TermId>>,
    pages: Option<TermId>,
    nodes: usize,
}

impl Snapshot {
    /// An equal snapshot, of its own memory.
    pub fn copy(&self, alloc: Global) -> Result<Snapshot, OutOfMemory>
        ensures { IfOk result (λ s. s ≡ self.now) }
    {
        let chunks = copied_chunks(alloc, self.chunks.as_slice())?;
        let locals = copied(alloc, self.locals.as_slice())?;
        let stack = copied(alloc, self.stack.as_slice())?;
        let globals = copied(alloc, self.globals.as_slice())?;
        Ok(Snapshot {
            vars: self.vars,
            facts: self.facts,
            chunks,
            locals,
            stack,
            globals,
            pages: self.pages,
            nodes: self.nodes,
        })
    }
}

impl TrackedState {
    /// What is needed to come back to the state.
    pub fn snapshot(&self) -> Result<Snapshot, OutOfMemory>
        ensures { IfOk result (λ s. Remembers self.now.terms s self.now.state) }
    {
        let alloc = self.alloc;
        let chunks = copied_chunks(alloc, self.state.heap.chunks.as_slice())?;
        let locals = copied(alloc, self.state.locals.as_slice())?;
        let stack = copied(alloc, self.state.stack.as_slice())?;
        let globals = copied(alloc, self.state.globals.as_slice())?;
        Ok(Snapshot {
            vars: self.state.heap.vars,
            facts: self.state.heap.facts.len(),
            chunks,
            locals,
            stack,
            globals,
            pages: self.state.pages,
            nodes: self.nodes,
        })
    }

    /// The state of a snapshot again, over the terms that there are now.
    pub fn restore(&mut self, snapshot: Snapshot)
        requires { Restorable self.old snapshot }
        ensures { (s : State) → Remembers self.old.terms snapshot s → Follows s self.old.state → self.new ≡ record self.old { state = s } }
    {
        self.state.heap.vars = snapshot.vars;
        self.state.heap.facts.truncate(snapshot.facts);
        self.state.heap.chunks = snapshot.chunks;
        self.state.locals = snapshot.locals;
        self.state.stack = snapshot.stack;
        self.state.globals = snapshot.globals;
        self.state.pages = snapshot.pages;
        self.nodes = snapshot.nodes;
    }
}
