ghost use Rattle.std.specs.Prelude.{◌≡◌, ◌+◌, ◌<◌, ◌≤◌, max, length, IfOk};
ghost use Rattle.term_trees.specs.Terms.{node_count};
ghost use Rattle.term_trees.specs.Leaves.{replaced, replaced_formula};
ghost use Rattle.term_trees.specs.Rows.{row_leaves, at_position};
ghost use Rattle.term_logic.specs.Extends.{Extends};
ghost use Rattle.term_logic.specs.Table.{tree_at};
ghost use Rattle.term_logic.specs.Formulas.{formula_bound, formula_of};
ghost use Rattle.term_logic.specs.Leaves.{LeavesWithin, leaves_of};
ghost use Rattle.symbolic_state.specs.words.Instances.{KeepsNodes};
ghost use Rattle.symbolic_state.specs.Growth.{Grown};

use crate::tracked::TrackedState;
use std::alloc::Global;
use term_logic::{Boxed, IdFormula, LeafIds, TermId, TermTable};
use wasm_values::OutOfMemory;

/// A term of the table with its leaves replaced, where this adds no nodes.
fn put_term(table: &mut TermTable, id: TermId, leaves: &LeafIds<'_>) -> Result<TermId, OutOfMemory>
    requires within { id < length table.old }
    requires leaves { LeavesWithin (length table.old) leaves.now }
    requires nodes { KeepsNodes (leaves_of table.old leaves.now) }
    ensures tree { IfOk result (λ i. tree_at table.new i ≡ replaced (leaves_of table.old leaves.now) (tree_at table.old id)) }
    ensures within { IfOk result (λ i. i < length table.new) }
    ensures kept { Extends table.old table.new }
{
    let _ = table.nodes_of(id);
    table.put_replaced_id(id, leaves)
}

/// Two terms likewise.
#[tactic(auto, using(crate::proofs::Placements::over_longer))]
fn put_terms(
    table: &mut TermTable,
    a: TermId,
    b: TermId,
    leaves: &LeafIds<'_>,
) -> Result<(TermId, TermId), OutOfMemory>
    requires first { a < length table.old }
    requires second { b < length table.old }
    requires leaves { LeavesWithin (length table.old) leaves.now }
    requires nodes { KeepsNodes (leaves_of table.old leaves.now) }
    ensures first { IfOk result (λ p. tree_at table.new p.0 ≡ replaced (leaves_of table.old leaves.now) (tree_at table.old a)) }
    ensures second { IfOk result (λ p. tree_at table.new p.1 ≡ replaced (leaves_of table.old leaves.now) (tree_at table.old b)) }
    ensures within { IfOk result (λ p. (p.0 < length table.new) × (p.1 < length table.new)) }
    ensures kept { Extends table.old table.new }
{
    let first = put_term(table, a, leaves)?;
    let second = put_term(table, b, leaves)?;
    Ok((first, second))
}

#[cycle(placing)]
fn put_boxed(
    alloc: Global,
    table: &mut TermTable,
    f: &IdFormula,
    leaves: &LeafIds<'_>,
) -> Result<Boxed<IdFormula>, OutOfMemory>
    requires within { formula_bound f.now ≤ length table.old }
    requires leaves { LeavesWithin (length table.old) leaves.now }
    requires nodes { KeepsNodes (leaves_of table.old leaves.now) }
    ensures formula { IfOk result (λ g. formula_of table.new g ≡ replaced_formula (leaves_of table.old leaves.now) (formula_of table.old f.now)) }
    ensures within { IfOk result (λ g. formula_bound g ≤ length table.new) }
    ensures kept { Extends table.old table.new }
{
    let placed = put_formula(alloc, table, f, leaves)?;
    Boxed::new(alloc, placed)
}

#[cycle(placing)]
#[tactic(auto, using(crate::proofs::Placements::over_longer))]
fn put_formulas(
    alloc: Global,
    table: &mut TermTable,
    f: &IdFormula,
    g: &IdFormula,
    leaves: &LeafIds<'_>,
) -> Result<(Boxed<IdFormula>, Boxed<IdFormula>), OutOfMemory>
    requires first { formula_bound f.now ≤ length table.old }
    requires second { formula_bound g.now ≤ length table.old }
    requires leaves { LeavesWithin (length table.old) leaves.now }
    requires nodes { KeepsNodes (leaves_of table.old leaves.now) }
    ensures first { IfOk result (λ p. formula_of table.new p.0 ≡ replaced_formula (leaves_of table.old leaves.now) (formula_of table.old f.now)) }
    ensures second { IfOk result (λ p. formula_of table.new p.1 ≡ replaced_formula (leaves_of table.old leaves.now) (formula_of table.old g.now)) }
    ensures within { IfOk result (λ p. (formula_bound p.0 ≤ length table.new) × (formula_bound p.1 ≤ length table.new)) }
    ensures kept { Extends table.old table.new }
{
    let first = put_boxed(alloc, table, f, leaves)?;
    let second = put_boxed(alloc, table, g, leaves)?;
    Ok((first, second))
}

/// A formula over the table with its leaves replaced, where this adds no nodes to any term. The formula may have any number of
/// nodes.
#[cycle(placing)]
#[tactic(auto, using(crate::proofs::Placements::placements))]
fn put_formula(
    alloc: Global,
    table: &mut TermTable,
    f: &IdFormula,
    leaves: &LeafIds<'_>,
) -> Result<IdFormula, OutOfMemory>
    requires within { formula_bound f.now ≤ length table.old }
    requires leaves { LeavesWithin (length table.old) leaves.now }
    requires nodes { KeepsNodes (leaves_of table.old leaves.now) }
    ensures formula { IfOk result (λ g. formula_of table.new g ≡ replaced_formula (leaves_of table.old leaves.now) (formula_of table.old f.now)) }
    ensures within { IfOk result (λ g. formula_bound g ≤ length table.new) }
    ensures kept { Extends table.old table.new }
{
    match f {
        IdFormula::True => Ok(IdFormula::True),
        IdFormula::False => Ok(IdFormula::False),
        IdFormula::Eq(a, b) => {
            let (a, b) = put_terms(table, *a, *b, leaves)?;
            Ok(IdFormula::Eq(a, b))
        }
        IdFormula::Le(a, b) => {
            let (a, b) = put_terms(table, *a, *b, leaves)?;
            Ok(IdFormula::Le(a, b))
        }
        IdFormula::Lt(a, b) => {
            let (a, b) = put_terms(table, *a, *b, leaves)?;
            Ok(IdFormula::Lt(a, b))
        }
        IdFormula::Not(f) => {
            let f = put_boxed(alloc, table, f.get(), leaves)?;
            Ok(IdFormula::Not(f))
        }
        IdFormula::And(f, g) => {
            let (f, g) = put_formulas(alloc, table, f.get(), g.get(), leaves)?;
            Ok(IdFormula::And(f, g))
        }
        IdFormula::Or(f, g) => {
            let (f, g) = put_formulas(alloc, table, f.get(), g.get(), leaves)?;
            Ok(IdFormula::Or(f, g))
        }
        IdFormula::Imp(f, g) => {
            let (f, g) = put_formulas(alloc, table, f.get(), g.get(), leaves)?;
            Ok(IdFormula::Imp(f, g))
        }
    }
}

/// Terms of one node for `(index)` and `(item)`.
#[tactic(auto, using(crate::proofs::Placements::cells))]
fn cell_leaves<'a>(table: &TermTable, index: TermId, item: TermId) -> LeafIds<'a>
    requires index { index < length table.now }
    requires item { item < length table.now }
    requires single_index { node_count (tree_at table.now index) ≡ 1 }
    requires single_item { node_count (tree_at table.now item) ≡ 1 }
    ensures trees { leaves_of table.now result ≡ row_leaves (tree_at table.now index) (tree_at table.now item) }
    ensures within { LeavesWithin (length table.now) result }
    ensures nodes { KeepsNodes (leaves_of table.now result) }
{
    let _ = table;
    LeafIds::none().with_cell(index, item)
}

/// What a row's formula says of a cell.
fn put_at(
    alloc: Global,
    table: &mut TermTable,
    each: &IdFormula,
    index: TermId,
    item: TermId,
) -> Result<IdFormula, OutOfMemory>
    requires each { formula_bound each.now ≤ length table.old }
    requires index { index < length table.old }
    requires item { item < length table.old }
    requires single_index { node_count (tree_at table.old index) ≡ 1 }
    requires single_item { node_count (tree_at table.old item) ≡ 1 }
    ensures formula { IfOk result (λ f. formula_of table.new f ≡ at_position (formula_of table.old each.now) (tree_at table.old index) (tree_at table.old item)) }
    ensures within { IfOk result (λ f. formula_bound f ≤ length table.new) }
    ensures kept { Extends table.old table.new }
{
    let leaves = cell_leaves(table, index, item);
    put_formula(alloc, table, each, &leaves)
}

impl TrackedState {
    /// What a row's formula says of a cell, by two terms of one node for its position and its value.
    #[tactic(auto, using(crate::proofs::Growing::growing, crate::proofs::Grows::grown_over))]
    pub fn at_position(
        &mut self,
        each: &IdFormula,
        index: TermId,
        item: TermId,
    ) -> Result<IdFormula, OutOfMemory>
        requires each { formula_bound each.now ≤ length self.old.terms }
        requires index { index < length self.old.terms }
        requires item { item < length self.old.terms }
        requires single_index { node_count (tree_at self.old.terms index) ≡ 1 }
        requires single_item { node_count (tree_at self.old.terms item) ≡ 1 }
        ensures formula { IfOk result (λ f. formula_of self.new.terms f ≡ at_position (formula_of self.old.terms each.now) (tree_at self.old.terms index) (tree_at self.old.terms item)) }
        ensures within { IfOk result (λ f. formula_bound f ≤ length self.new.terms) }
        ensures state { IfOk result (λ _. self.new.state ≡ self.old.state) }
        ensures kept { IfOk result (λ _. Grown self.old self.new) }
    {
        put_at(self.alloc, &mut self.table, each, index, item)
    }
}
