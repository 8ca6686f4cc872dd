ghost use Rattle.std.specs.Prelude.{◌≡◌, []};
ghost use Rattle.outline_rules.specs.States.{blank};

use crate::state::SymState;
use heap_logic::SymHeap;
use std::alloc::Global;
use std::marker::Model;
use term_logic::TermTable;
use wasm_values::List;

/// A state within the limits, with the table that its terms stand in. Contracts see the trees.
#[derive(Drop)]
pub struct TrackedState {
    pub(crate) alloc: Global,
    pub(crate) table: TermTable,
    pub(crate) state: SymState,
    /// The nodes of the state, counted as trees.
    pub(crate) nodes: usize,
}

impl Model for TrackedState {
    ghost use Rattle.symbolic_state.specs.States.{Tracked};
    ghost use Rattle.std.specs.Coded.{codes};
    ghost use Rattle.term_trees.specs.contracts.term.Term as of_term;
    ghost use Rattle.term_trees.specs.contracts.term.Formula as of_formula;

    ghost Value = { Tracked };

    ghost coded = { Prim.hlevel (codes, of_term.the_row.coded, of_formula.the_row.coded) };

    ghost use Rattle.symbolic_state.specs.Tracking.{tracked, IsTracked};

    ghost view = { tracked };

    ghost invariant = { IsTracked };
}

impl TrackedState {
    /// A state with nothing in it, over a table with no terms.
    pub fn blank(alloc: Global) -> TrackedState
        ensures { result ≡ record { terms = []; state = blank } }
    {
        TrackedState {
            alloc,
            table: TermTable::new(alloc),
            state: SymState {
                heap: SymHeap {
                    vars: 0,
                    facts: List::new(alloc),
                    chunks: List::new(alloc),
                },
                locals: List::new(alloc),
                stack: List::new(alloc),
                globals: List::new(alloc),
                pages: None,
                args: List::new(alloc),
                given: List::new(alloc),
            },
            nodes: 0,
        }
    }
}
