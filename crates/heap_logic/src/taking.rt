ghost use Rattle.std.specs.Prelude.{◌≡◌, ◌<◌, ◌≤◌, length, IfOk, IsTrue};
ghost use Rattle.wasm_values.specs.Answers.{Gives};
ghost use Rattle.term_trees.specs.Terms.{well_formed};
ghost use Rattle.term_trees.specs.Formulas.{well_formed_formula};
ghost use Rattle.term_logic.specs.Table.{tree_at};
ghost use Rattle.term_logic.specs.Formulas.{formula_bound, formula_of};
ghost use Rattle.term_logic.specs.Leaves.{LeavesWithin};
ghost use Rattle.term_logic.specs.Extends.{Extends};
ghost use Rattle.outline_rules.specs.Leaves.{taken, taken_formula, in_row};
ghost use Rattle.heap_logic.specs.Faults.{refusal_of};
ghost use Rattle.heap_logic.specs.Heaps.{AreSlots};
ghost use Rattle.heap_logic.specs.words.Leaves.{slot_leaves, slot_scope, row_scope};

use crate::fault::MoveFault;
use notes::Reason;
use term_logic::{
    Formula, IdFormula, LeafIds, Place, Scoped, Term, TermId, TermTable, formula_in_scope, in_scope,
};
use wasm_values::LimitWord;

/// The greatest number of nodes of a term or formula.
pub(crate) const NODES: usize = 4096;

/// The leaves of a term of a move: the first variables, and the places that have a term.
#[derive(Clone, Copy)]
struct SlotScope<'a> {
    variables: u32,
    slots: &'a LeafIds<'a>,
}

impl Scoped for SlotScope<'_> {
    ghost scope = { slot_scope };

    fn has_variable(&self, k: u32) -> bool {
        k < self.variables
    }

    fn has_own(&self, _k: u32) -> bool {
        false
    }

    fn has_place(&self, place: Place) -> bool {
        self.slots.place(place).is_some()
    }
}

/// The leaves of a row's formula: those, and `(index)` and `(item)`.
#[derive(Clone, Copy)]
struct RowScope<'a> {
    variables: u32,
    slots: &'a LeafIds<'a>,
}

impl Scoped for RowScope<'_> {
    ghost scope = { row_scope };

    fn has_variable(&self, k: u32) -> bool {
        k < self.variables
    }

    fn has_own(&self, _k: u32) -> bool {
        false
    }

    fn has_place(&self, place: Place) -> bool {
        match place {
            Place::Index | Place::Item => true,
            _ => self.slots.place(place).is_some(),
        }
    }
}

/// A term of a move, its leaves replaced by the terms of the slots. Variables below `vars` stand for themselves.
pub fn taken(
    table: &mut TermTable,
    vars: u32,
    slots: &LeafIds<'_>,
    t: &Term,
) -> Result<TermId, MoveFault>
    requires leaves { LeavesWithin (length table.old) slots.now }
    requires slots { AreSlots slots.now }
    requires well_formed { IsTrue (well_formed t.now) }
    ensures taken { Gives refusal_of (tree_at table.new) result (taken (slot_leaves table.old vars slots.now) t.now) }
    ensures within { IfOk result (λ id. id < length table.new) }
    ensures kept { Extends table.old table.new }
{
    let scope = SlotScope {
        variables: vars,
        slots,
    };
    if !in_scope(t, &scope) {
        return Err(MoveFault::NoMove(Reason::Scope));
    }
    if table.replaced_nodes(t, slots) > NODES {
        return Err(MoveFault::Limit(LimitWord::Nodes));
    }
    Ok(table.put_replaced(t, slots)?)
}

/// The formula of a row, likewise. `(index)` and `(item)` stay.
pub fn taken_formula(
    table: &mut TermTable,
    vars: u32,
    slots: &LeafIds<'_>,
    f: &Formula,
) -> Result<IdFormula, MoveFault>
    requires leaves { LeavesWithin (length table.old) slots.now }
    requires slots { AreSlots slots.now }
    requires well_formed { IsTrue (well_formed_formula f.now) }
    ensures taken { Gives refusal_of (formula_of table.new) result (taken_formula (in_row (slot_leaves table.old vars slots.now)) f.now) }
    ensures within { IfOk result (λ g. formula_bound g ≤ length table.new) }
    ensures kept { Extends table.old table.new }
{
    let scope = RowScope {
        variables: vars,
        slots,
    };
    if !formula_in_scope(f, &scope) {
        return Err(MoveFault::NoMove(Reason::Scope));
    }
    if table.replaced_formula_nodes(f, slots) > NODES {
        return Err(MoveFault::Limit(LimitWord::Nodes));
    }
    Ok(table.put_replaced_formula(f, slots)?)
}
