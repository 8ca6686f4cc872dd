ghost use Rattle.std.specs.Prelude.{◌≡◌, ◌≤◌, List, take, length, IfOk, IsTrue, OnOk, OnErr};
ghost use Rattle.wasm_values.specs.Answers.{Gives};
ghost use Rattle.term_trees.specs.declared.term.Term.{Term};
ghost use Rattle.term_logic.specs.Leaves.{LeavesWithin};
ghost use Rattle.term_logic.specs.Extends.{Extends};
ghost use Rattle.notes.specs.WellFormed.{well_formed_heap_move};
ghost use Rattle.outline_rules.specs.States.{nodes_of};
ghost use Rattle.outline_rules.specs.HeapMoves.{heap_moved};
ghost use Rattle.heap_logic.specs.Faults.{refusal_of};
ghost use Rattle.heap_logic.specs.Heaps.{seen, AreSlots, HasWidths, HeapWithin};

use crate::commit::commit;
use crate::fault::MoveFault;
use crate::heap::SymHeap;
use crate::moves::planned;
use notes::HeapMove;
use std::alloc::Global;
use term_logic::{LeafIds, TermTable};

/// Does a move to a heap, and answers the nodes of the state then. After a refusal the heap is as it was.
pub fn apply(
    alloc: Global,
    table: &mut TermTable,
    heap: &mut SymHeap,
    slots: &LeafIds<'_>,
    nodes: usize,
    m: &HeapMove,
) -> Result<usize, MoveFault>
    requires heap { HeapWithin (length table.old) heap.old }
    requires widths { HasWidths heap.old }
    requires leaves { LeavesWithin (length table.old) slots.now }
    requires slots { AreSlots slots.now }
    requires well_formed { IsTrue (well_formed_heap_move m.now) }
    requires nodes { nodes ≡ nodes_of (seen table.old heap.old slots.now) }
    ensures moved { (given : List Term) → Gives refusal_of (λ _. record (seen table.new heap.new slots.now) { given = given }) result (heap_moved m.now (record (seen table.old heap.old slots.now) { given = given })) }
    ensures nodes { IfOk result (λ n. n ≡ nodes_of (seen table.new heap.new slots.now)) }
    ensures err { OnErr result (heap.new ≡ heap.old) }
    ensures within { HeapWithin (length table.new) heap.new }
    ensures widths { HasWidths heap.new }
    ensures kept { Extends table.old table.new }
    ensures facts { OnOk result (take (length heap.old.facts) heap.new.facts ≡ heap.old.facts) }
    ensures variables { OnOk result (heap.old.vars ≤ heap.new.vars) }
{
    match planned(alloc, table, heap, slots, m) {
        Ok(change) => commit(alloc, table, heap, slots, nodes, change),
        Err(fault) => Err(fault),
    }
}
