ghost use Rattle.std.specs.Prelude.{◌≡◌, length, IfOk, OnOk, OnErr, IsTrue};
ghost use Rattle.wasm_values.specs.Answers.{Gives};
ghost use Rattle.notes.specs.WellFormed.{well_formed_heap_move};
ghost use Rattle.term_logic.specs.Extends.{Extends};
ghost use Rattle.outline_rules.specs.States.{nodes_of};
ghost use Rattle.outline_rules.specs.HeapMoves.{heap_moved};
ghost use Rattle.heap_logic.specs.Faults as move_fault;
ghost use Rattle.heap_logic.specs.Heaps.{HasWidths};
ghost use Rattle.symbolic_state.specs.Refused.{refusal_of};
ghost use Rattle.symbolic_state.specs.States.{state_of, StateWithin, WithinLimits};
ghost use Rattle.symbolic_state.specs.Growth.{Grown};

use crate::refused::Refused;
use crate::slots::slots_from;
use crate::state::SymState;
use crate::tracked::TrackedState;
use heap_logic::MoveFault;
use notes::HeapMove;
use std::alloc::Global;
use term_logic::TermTable;

/// A heap move is made: the nodes of the state after it.
fn move_heap(
    alloc: Global,
    table: &mut TermTable,
    state: &mut SymState,
    nodes: usize,
    m: &HeapMove,
) -> Result<usize, MoveFault>
    requires within { StateWithin (length table.old) state.old }
    requires widths { HasWidths state.old.heap }
    requires nodes { nodes ≡ nodes_of (state_of table.old state.old) }
    requires well_formed { IsTrue (well_formed_heap_move m.now) }
    ensures moved { Gives move_fault.refusal_of (λ _. state_of table.new state.new) result (heap_moved m.now (state_of table.old state.old)) }
    ensures nodes { IfOk result (λ n. n ≡ nodes_of (state_of table.new state.new)) }
    ensures err { OnErr result (state_of table.new state.new ≡ state_of table.old state.old) }
    ensures within { StateWithin (length table.new) state.new }
    ensures widths { HasWidths state.new.heap }
    ensures kept { OnOk result (Grown (record { terms = table.old; state = state_of table.old state.old }) (record { terms = table.new; state = state_of table.new state.new })) }
{
    let slots = slots_from(
        &state.locals,
        &state.stack,
        &state.globals,
        state.pages,
        &state.args,
    );
    heap_logic::apply(alloc, table, &mut state.heap, &slots, nodes, m)
}

/// A heap move is made to a state within the limits, with its number of nodes.
#[tactic(auto, using(crate::proofs::HeapMoved::limits_kept))]
fn make_move(
    alloc: Global,
    table: &mut TermTable,
    state: &mut SymState,
    nodes: &mut usize,
    m: &HeapMove,
) -> Result<(), Refused>
    requires within { StateWithin (length table.old) state.old }
    requires widths { HasWidths state.old.heap }
    requires limits { WithinLimits (state_of table.old state.old) }
    requires nodes { nodes.old ≡ nodes_of (state_of table.old state.old) }
    requires well_formed { IsTrue (well_formed_heap_move m.now) }
    ensures done { Gives refusal_of (λ _. state_of table.new state.new) result (heap_moved m.now (state_of table.old state.old)) }
    ensures nodes { nodes.new ≡ nodes_of (state_of table.new state.new) }
    ensures within { StateWithin (length table.new) state.new }
    ensures widths { HasWidths state.new.heap }
    ensures limits { WithinLimits (state_of table.new state.new) }
    ensures kept { OnOk result (Grown (record { terms = table.old; state = state_of table.old state.old }) (record { terms = table.new; state = state_of table.new state.new })) }
{
    match move_heap(alloc, table, state, *nodes, m) {
        Ok(after) => {
            *nodes = after;
            Ok(())
        }
        Err(fault) => Err(Refused::from(fault)),
    }
}

impl TrackedState {
    /// A heap move is made.
    pub fn apply_heap_move(&mut self, m: &HeapMove) -> Result<(), Refused>
        requires { IsTrue (well_formed_heap_move m.now) }
        ensures done { Gives refusal_of (λ _. self.new.state) result (heap_moved m.now self.old.state) }
        ensures kept { IfOk result (λ _. Grown self.old self.new) }
    {
        make_move(
            self.alloc,
            &mut self.table,
            &mut self.state,
            &mut self.nodes,
            m,
        )
    }
}
