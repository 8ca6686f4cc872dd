ghost use Rattle.std.specs.Prelude.{◌≡◌, ◌+◌, ◌<◌, ◌≤◌, length, nat_le, IfOk, IsTrue};
ghost use Rattle.term_trees.specs.Terms.{node_count};
ghost use Rattle.term_trees.specs.Formulas.{formula_nodes};
ghost use Rattle.term_trees.specs.Same.{same_formula};
ghost use Rattle.term_trees.specs.Rows.{row_leaves, at_position};
ghost use Rattle.term_trees.specs.declared.term.Term.TheVariants as term;
ghost use Rattle.term_trees.specs.declared.term.Place.TheVariants as place;
ghost use Rattle.term_logic.specs.Table.{tree_at};
ghost use Rattle.term_logic.specs.Extends.{Extends};
ghost use Rattle.term_logic.specs.Formulas.{formula_bound, formula_of};
ghost use Rattle.term_logic.specs.Leaves.{leaves_of, LeavesWithin};
ghost use Rattle.outline_rules.specs.HeapMoves.{is_fact};
ghost use Rattle.heap_logic.specs.Heaps.{HeapWithin};
ghost use Rattle.heap_logic.specs.words.Effects.{bare};

use crate::heap::SymHeap;
use crate::taking::NODES;
use crate::terms::{place, small_sum};
use term_logic::{Formula, IdFormula, LeafIds, Place, TermId, TermTable};
use wasm_values::OutOfMemory;

/// The terms for `(index)` and `(item)`.
#[tactic(auto, using(crate::proofs::RowLeaves::cell_leaves))]
fn cell_leaves<'a>(table: &TermTable, index: TermId, item: TermId) -> LeafIds<'a>
    requires index { index < length table.now }
    requires item { item < length table.now }
    ensures trees { leaves_of table.now result ≡ row_leaves (tree_at table.now index) (tree_at table.now item) }
    ensures within { LeavesWithin (length table.now) result }
{
    let _ = table;
    LeafIds::none().with_cell(index, item)
}

/// Whether a fact is what a row's formula, as a tree, says of a position and a value.
fn is_at(table: &TermTable, tree: &Formula, index: TermId, item: TermId, f: &IdFormula) -> bool
    requires index { index < length table.now }
    requires item { item < length table.now }
    requires fact { formula_bound f.now ≤ length table.now }
    ensures { result ≡ same_formula (formula_of table.now f.now) (at_position tree.now (tree_at table.now index) (tree_at table.now item)) }
{
    let leaves = cell_leaves(table, index, item);
    table.is_replaced_formula(tree, &leaves, f)
}

/// Whether the fact with a number is what a row's formula, as a tree, says of a position and a value.
fn fact_is_at(
    table: &TermTable,
    heap: &SymHeap,
    fact: u32,
    tree: &Formula,
    index: TermId,
    item: TermId,
) -> bool
    requires heap { HeapWithin (length table.now) heap.now }
    requires index { index < length table.now }
    requires item { item < length table.now }
    ensures { result ≡ is_fact (bare table.now heap.now) fact (at_position tree.now (tree_at table.now index) (tree_at table.now item)) }
{
    match heap.facts.as_slice().get(fact as usize) {
        Some(f) => is_at(table, tree, index, item, f),
        None => false,
    }
}

/// Whether the fact with a number is what a row's formula says of a position and a value.
pub(crate) fn says_at(
    table: &TermTable,
    heap: &SymHeap,
    fact: u32,
    each: &IdFormula,
    index: TermId,
    item: TermId,
) -> Result<bool, OutOfMemory>
    requires heap { HeapWithin (length table.now) heap.now }
    requires each { formula_bound each.now ≤ length table.now }
    requires index { index < length table.now }
    requires item { item < length table.now }
    ensures { IfOk result (λ b. b ≡ is_fact (bare table.now heap.now) fact (at_position (formula_of table.now each.now) (tree_at table.now index) (tree_at table.now item))) }
{
    let tree = table.formula_tree(each)?;
    Ok(fact_is_at(table, heap, fact, &tree, index, item))
}

/// Whether what a row's formula says of a position and a value is within the limit.
pub(crate) fn is_small_at(table: &TermTable, each: &IdFormula, index: TermId, item: TermId) -> bool
    requires each { formula_bound each.now ≤ length table.now }
    requires index { index < length table.now }
    requires item { item < length table.now }
    ensures { result ≡ nat_le (formula_nodes (at_position (formula_of table.now each.now) (tree_at table.now index) (tree_at table.now item))) 4096 }
{
    let leaves = cell_leaves(table, index, item);
    table.replaced_id_formula_nodes(each, &leaves) <= NODES
}

/// What a row's formula says of a position and a value.
pub(crate) fn formula_at(
    table: &mut TermTable,
    each: &IdFormula,
    index: TermId,
    item: TermId,
) -> Result<IdFormula, OutOfMemory>
    requires each { formula_bound each.now ≤ length table.old }
    requires index { index < length table.old }
    requires item { item < length table.old }
    requires small { IsTrue (nat_le (formula_nodes (at_position (formula_of table.old each.now) (tree_at table.old index) (tree_at table.old item))) 4096) }
    ensures formula { IfOk result (λ f. formula_of table.new f ≡ at_position (formula_of table.old each.now) (tree_at table.old index) (tree_at table.old item)) }
    ensures within { IfOk result (λ f. formula_bound f ≤ length table.new) }
    ensures kept { Extends table.old table.new }
{
    let leaves = cell_leaves(table, index, item);
    table.put_replaced_id_formula(each, &leaves)
}

/// The sum of `(index)` and a term.
fn index_with(table: &mut TermTable, by: TermId) -> Result<TermId, OutOfMemory>
    requires by { by < length table.old }
    requires small { node_count (tree_at table.old by) + 2 ≤ 4096 }
    ensures sum { IfOk result (λ id. tree_at table.new id ≡ term.Add (term.At place.Index) (tree_at table.old by)) }
    ensures within { IfOk result (λ id. id < length table.new) }
    ensures kept { Extends table.old table.new }
{
    let here = place(table, Place::Index)?;
    small_sum(table, here, by)
}

/// The terms for `(index)` and `(item)` where positions are counted from a term on.
pub(crate) fn shift_terms(
    table: &mut TermTable,
    by: TermId,
) -> Result<(TermId, TermId), OutOfMemory>
    requires by { by < length table.old }
    requires small { node_count (tree_at table.old by) + 2 ≤ 4096 }
    ensures index { IfOk result (λ p. tree_at table.new p.0 ≡ term.Add (term.At place.Index) (tree_at table.old by)) }
    ensures item { IfOk result (λ p. tree_at table.new p.1 ≡ term.At place.Item) }
    ensures within { IfOk result (λ p. (p.0 < length table.new) × (p.1 < length table.new)) }
    ensures kept { Extends table.old table.new }
{
    let index = index_with(table, by)?;
    let item = place(table, Place::Item)?;
    Ok((index, item))
}
