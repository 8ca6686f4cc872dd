ghost use Rattle.std.specs.Prelude.{◌≡◌, length, IfOk, IsTrue};
ghost use Rattle.wasm_values.specs.Answers.{Gives};
ghost use Rattle.term_trees.specs.Terms.{well_formed};
ghost use Rattle.term_trees.specs.Formulas.{well_formed_formula};
ghost use Rattle.term_logic.specs.Leaves.{LeavesWithin};
ghost use Rattle.term_logic.specs.Extends.{Extends};
ghost use Rattle.notes.specs.WellFormed.{is_width, well_formed_heap_move};
ghost use Rattle.notes.specs.declared.heap_move.HeapMove.TheVariants as move;
ghost use Rattle.heap_logic.specs.Faults.{refusal_of};
ghost use Rattle.heap_logic.specs.Heaps.{AreSlots, HasWidths, HeapWithin};
ghost use Rattle.heap_logic.specs.words.Effects.{bare, effect_of, ChangeWithin};
ghost use Rattle.heap_logic.specs.words.Leaves.{slot_leaves};
ghost use Rattle.heap_logic.specs.words.Planned.{planned};

use crate::cells::{halve, unite};
use crate::change::Change;
use crate::fault::MoveFault;
use crate::heap::SymHeap;
use crate::readings::{readdr, relen, reval};
use crate::regions::{forget, merge, split, view};
use crate::rows::{enrow, join, pick, rows};
use crate::taking::{taken, taken_formula};
use notes::HeapMove;
use std::alloc::Global;
use term_logic::{Formula, LeafIds, Term, TermTable};

/// `split`.
#[tactic(auto, using(crate::proofs::Growing::growths))]
fn split_taken(
    alloc: Global,
    table: &mut TermTable,
    heap: &SymHeap,
    slots: &LeafIds<'_>,
    c: u32,
    t: &Term,
    f: u32,
    g: u32,
) -> Result<Change, MoveFault>
    requires heap { HeapWithin (length table.old) heap.now }
    requires leaves { LeavesWithin (length table.old) slots.now }
    requires slots { AreSlots slots.now }
    requires well_formed { IsTrue (well_formed t.now) }
    ensures planned { Gives refusal_of (effect_of table.new) result (planned (move.Split c t.now f g) (slot_leaves table.old heap.now.vars slots.now) (bare table.old heap.now)) }
    ensures within { IfOk result (λ change. ChangeWithin (length table.new) heap.now change) }
    ensures kept { Extends table.old table.new }
{
    let position = taken(table, heap.vars, slots, t)?;
    split(alloc, table, heap, c, position, f, g)
}

/// `readdr`.
#[tactic(auto, using(crate::proofs::Growing::growths))]
fn readdr_taken(
    alloc: Global,
    table: &mut TermTable,
    heap: &SymHeap,
    slots: &LeafIds<'_>,
    c: u32,
    t: &Term,
    f: u32,
) -> Result<Change, MoveFault>
    requires heap { HeapWithin (length table.old) heap.now }
    requires leaves { LeavesWithin (length table.old) slots.now }
    requires slots { AreSlots slots.now }
    requires well_formed { IsTrue (well_formed t.now) }
    ensures planned { Gives refusal_of (effect_of table.new) result (planned (move.Readdr c t.now f) (slot_leaves table.old heap.now.vars slots.now) (bare table.old heap.now)) }
    ensures within { IfOk result (λ change. ChangeWithin (length table.new) heap.now change) }
    ensures kept { Extends table.old table.new }
{
    let term = taken(table, heap.vars, slots, t)?;
    readdr(alloc, table, heap, c, term, f)
}

/// `reval`.
#[tactic(auto, using(crate::proofs::Growing::growths))]
fn reval_taken(
    alloc: Global,
    table: &mut TermTable,
    heap: &SymHeap,
    slots: &LeafIds<'_>,
    c: u32,
    t: &Term,
    f: u32,
) -> Result<Change, MoveFault>
    requires heap { HeapWithin (length table.old) heap.now }
    requires leaves { LeavesWithin (length table.old) slots.now }
    requires slots { AreSlots slots.now }
    requires well_formed { IsTrue (well_formed t.now) }
    ensures planned { Gives refusal_of (effect_of table.new) result (planned (move.Reval c t.now f) (slot_leaves table.old heap.now.vars slots.now) (bare table.old heap.now)) }
    ensures within { IfOk result (λ change. ChangeWithin (length table.new) heap.now change) }
    ensures kept { Extends table.old table.new }
{
    let term = taken(table, heap.vars, slots, t)?;
    reval(alloc, table, heap, c, term, f)
}

/// `relen`.
#[tactic(auto, using(crate::proofs::Growing::growths))]
fn relen_taken(
    alloc: Global,
    table: &mut TermTable,
    heap: &SymHeap,
    slots: &LeafIds<'_>,
    c: u32,
    t: &Term,
    f: u32,
) -> Result<Change, MoveFault>
    requires heap { HeapWithin (length table.old) heap.now }
    requires leaves { LeavesWithin (length table.old) slots.now }
    requires slots { AreSlots slots.now }
    requires well_formed { IsTrue (well_formed t.now) }
    ensures planned { Gives refusal_of (effect_of table.new) result (planned (move.Relen c t.now f) (slot_leaves table.old heap.now.vars slots.now) (bare table.old heap.now)) }
    ensures within { IfOk result (λ change. ChangeWithin (length table.new) heap.now change) }
    ensures kept { Extends table.old table.new }
{
    let term = taken(table, heap.vars, slots, t)?;
    relen(alloc, table, heap, c, term, f)
}

/// `pick`.
#[tactic(auto, using(crate::proofs::Growing::growths))]
fn pick_taken(
    alloc: Global,
    table: &mut TermTable,
    heap: &SymHeap,
    slots: &LeafIds<'_>,
    c: u32,
    t: &Term,
    f: u32,
    g: u32,
) -> Result<Change, MoveFault>
    requires heap { HeapWithin (length table.old) heap.now }
    requires leaves { LeavesWithin (length table.old) slots.now }
    requires slots { AreSlots slots.now }
    requires widths { HasWidths heap.now }
    requires well_formed { IsTrue (well_formed t.now) }
    ensures planned { Gives refusal_of (effect_of table.new) result (planned (move.Pick c t.now f g) (slot_leaves table.old heap.now.vars slots.now) (bare table.old heap.now)) }
    ensures within { IfOk result (λ change. ChangeWithin (length table.new) heap.now change) }
    ensures kept { Extends table.old table.new }
{
    let index = taken(table, heap.vars, slots, t)?;
    pick(alloc, table, heap, c, index, f, g)
}

/// `enrow`.
#[tactic(auto, using(crate::proofs::Growing::growths))]
fn enrow_taken(
    alloc: Global,
    table: &mut TermTable,
    heap: &SymHeap,
    slots: &LeafIds<'_>,
    c: u32,
    each: &Formula,
    f: u32,
) -> Result<Change, MoveFault>
    requires heap { HeapWithin (length table.old) heap.now }
    requires leaves { LeavesWithin (length table.old) slots.now }
    requires slots { AreSlots slots.now }
    requires well_formed { IsTrue (well_formed_formula each.now) }
    ensures planned { Gives refusal_of (effect_of table.new) result (planned (move.Enrow c each.now f) (slot_leaves table.old heap.now.vars slots.now) (bare table.old heap.now)) }
    ensures within { IfOk result (λ change. ChangeWithin (length table.new) heap.now change) }
    ensures kept { Extends table.old table.new }
{
    let each = taken_formula(table, heap.vars, slots, each)?;
    enrow(alloc, table, heap, c, each, f)
}

/// `rows`.
#[tactic(auto, using(crate::proofs::Growing::growths))]
fn rows_taken(
    alloc: Global,
    table: &mut TermTable,
    heap: &SymHeap,
    slots: &LeafIds<'_>,
    c: u32,
    width: u32,
    each: &Formula,
) -> Result<Change, MoveFault>
    requires heap { HeapWithin (length table.old) heap.now }
    requires leaves { LeavesWithin (length table.old) slots.now }
    requires slots { AreSlots slots.now }
    requires width { IsTrue (is_width width) }
    requires well_formed { IsTrue (well_formed_formula each.now) }
    ensures planned { Gives refusal_of (effect_of table.new) result (planned (move.Rows c width each.now) (slot_leaves table.old heap.now.vars slots.now) (bare table.old heap.now)) }
    ensures within { IfOk result (λ change. ChangeWithin (length table.new) heap.now change) }
    ensures kept { Extends table.old table.new }
{
    let each = taken_formula(table, heap.vars, slots, each)?;
    rows(alloc, table, heap, c, width, each)
}

/// What a move changes, its terms taken first.
pub(crate) fn planned(
    alloc: Global,
    table: &mut TermTable,
    heap: &SymHeap,
    slots: &LeafIds<'_>,
    m: &HeapMove,
) -> Result<Change, MoveFault>
    requires heap { HeapWithin (length table.old) heap.now }
    requires leaves { LeavesWithin (length table.old) slots.now }
    requires slots { AreSlots slots.now }
    requires widths { HasWidths heap.now }
    requires well_formed { IsTrue (well_formed_heap_move m.now) }
    ensures planned { Gives refusal_of (effect_of table.new) result (planned (m.now) (slot_leaves table.old heap.now.vars slots.now) (bare table.old heap.now)) }
    ensures within { IfOk result (λ change. ChangeWithin (length table.new) heap.now change) }
    ensures kept { Extends table.old table.new }
{
    match m {
        HeapMove::Split(c, t, f, g) => split_taken(alloc, table, heap, slots, *c, t, *f, *g),
        HeapMove::Merge(c, d, f) => merge(alloc, table, heap, *c, *d, *f),
        HeapMove::Forget(c) => forget(alloc, table, heap, *c),
        HeapMove::View(c) => view(alloc, table, heap, *c),
        HeapMove::Halve(c) => halve(alloc, table, heap, *c),
        HeapMove::Unite(c, d, f) => unite(alloc, table, heap, *c, *d, *f),
        HeapMove::Readdr(c, t, f) => readdr_taken(alloc, table, heap, slots, *c, t, *f),
        HeapMove::Reval(c, t, f) => reval_taken(alloc, table, heap, slots, *c, t, *f),
        HeapMove::Relen(c, t, f) => relen_taken(alloc, table, heap, slots, *c, t, *f),
        HeapMove::Pick(c, t, f, g) => pick_taken(alloc, table, heap, slots, *c, t, *f, *g),
        HeapMove::Join(c, d, f) => join(alloc, table, heap, *c, *d, *f),
        HeapMove::Enrow(c, each, f) => enrow_taken(alloc, table, heap, slots, *c, each, *f),
        HeapMove::Rows(c, width, each) => rows_taken(alloc, table, heap, slots, *c, *width, each),
    }
}
