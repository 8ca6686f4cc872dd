ghost use Rattle.std.specs.Prelude.{◌≡◌, ◌+◌, ◌<◌, ◌≤◌, [], ◌∷◌, ◌++◌, length, map, nat_le, IfOk, IsTrue};
ghost use Rattle.std.specs.List.{All};
ghost use Rattle.wasm_values.specs.Answers.{Gives};
ghost use Rattle.term_trees.specs.Terms.{node_count};
ghost use Rattle.term_trees.specs.Formulas.{formula_nodes};
ghost use Rattle.term_trees.specs.Rows.{at_position};
ghost use Rattle.term_trees.specs.declared.term.Place.TheVariants as place;
ghost use Rattle.term_trees.specs.declared.term.Term.TheVariants as term;
ghost use Rattle.term_logic.specs.Table.{tree_at};
ghost use Rattle.term_logic.specs.Extends.{Extends};
ghost use Rattle.term_logic.specs.Formulas.{formula_bound, formula_of};
ghost use Rattle.notes.specs.WellFormed.{is_width};
ghost use Rattle.outline_rules.specs.States.{number};
ghost use Rattle.outline_rules.specs.HeapMoves.{cell_range, is_fact};
ghost use Rattle.heap_logic.specs.Faults.{refusal_of};
ghost use Rattle.heap_logic.specs.Heaps.{HasWidths, HeapWithin};
ghost use Rattle.heap_logic.specs.words.Effects.{bare, effect_of, ChangeWithin};
ghost use Rattle.heap_logic.specs.words.RowPlans.{pick_wanted, pick_plan, join_wanted, join_plan, enrow_plan, rows_plan};
ghost use Rattle.heap_logic.specs.words.Shifts.{cut_made, rest_made, two_at, formulas_at, picked_at};

use crate::change::Change;
use crate::commit::limited;
use crate::facts::{is_number, says_below, says_natural, says_row_end};
use crate::fault::MoveFault;
use crate::heap::{IdChunk, SymHeap};
use crate::placing::{formula_at, is_small_at, says_at, shift_terms};
use crate::ranges::cell_range;
use crate::regions::room;
use crate::shifting::is_shifted;
use crate::terms::{address, behind, difference, number, sum, variable};
use crate::wanted::{RowParts, cell_at, region_at, row_at, wanted};
use notes::Reason;
use std::alloc::Global;
use term_logic::{IdFormula, TermId, TermTable};
use wasm_values::{LimitWord, List, OutOfMemory};

/// Whether the fact with a number is what a row's formula says of the position 0 and a value.
fn says_first(
    table: &mut TermTable,
    heap: &SymHeap,
    fact: u32,
    each: &IdFormula,
    value: TermId,
) -> Result<bool, OutOfMemory>
    requires heap { HeapWithin (length table.old) heap.now }
    requires each { formula_bound each.now ≤ length table.old }
    requires value { value < length table.old }
    ensures said { IfOk result (λ b. b ≡ is_fact (bare table.old heap.now) fact (at_position (formula_of table.old each.now) (number 0) (tree_at table.old value))) }
    ensures kept { Extends table.old table.new }
{
    let first = number(table, 0)?;
    says_at(table, heap, fact, each, first, value)
}

/// `enrow` with a formula that is taken.
#[tactic(auto, using(crate::proofs::Growing::growths))]
pub(crate) fn enrow(
    alloc: Global,
    table: &mut TermTable,
    heap: &SymHeap,
    c: u32,
    each: IdFormula,
    f: u32,
) -> Result<Change, MoveFault>
    requires heap { HeapWithin (length table.old) heap.now }
    requires each { formula_bound each ≤ length table.old }
    ensures planned { Gives refusal_of (effect_of table.new) result (enrow_plan c (formula_of table.old each) f (bare table.old heap.now)) }
    ensures within { IfOk result (λ change. ChangeWithin (length table.new) heap.now change) }
    ensures kept { Extends table.old table.new }
{
    let (width, at, value) = cell_at(table, heap, c)?;
    let said = says_first(table, heap, f, &each, value)?;
    wanted(Reason::Fact, said)?;
    let count = number(table, 1)?;
    Ok(Change::turned(
        alloc,
        c,
        IdChunk::Row {
            width,
            at,
            count,
            each,
        },
    ))
}

/// `rows` with a formula that is taken.
pub(crate) fn rows(
    alloc: Global,
    table: &mut TermTable,
    heap: &SymHeap,
    c: u32,
    width: u32,
    each: IdFormula,
) -> Result<Change, MoveFault>
    requires heap { HeapWithin (length table.old) heap.now }
    requires each { formula_bound each ≤ length table.old }
    requires width { IsTrue (is_width width) }
    ensures planned { Gives refusal_of (effect_of table.new) result (rows_plan c width (formula_of table.old each) (bare table.old heap.now)) }
    ensures within { IfOk result (λ change. ChangeWithin (length table.new) heap.now change) }
    ensures kept { Extends table.old table.new }
{
    let (at, len) = region_at(table, heap, c)?;
    wanted(Reason::Chunk, is_number(table, len, 0))?;
    let count = number(table, 0)?;
    Ok(Change::turned(
        alloc,
        c,
        IdChunk::Row {
            width,
            at,
            count,
            each,
        },
    ))
}

/// What `pick` wants at a position, and the row.
fn pick_wanted<'h>(
    table: &TermTable,
    heap: &'h SymHeap,
    c: u32,
    t: TermId,
    f: u32,
    g: u32,
) -> Result<RowParts<'h>, MoveFault>
    requires heap { HeapWithin (length table.now) heap.now }
    requires position { t < length table.now }
    ensures wanted { Gives refusal_of (λ r. (r.width, tree_at table.now r.at, tree_at table.now r.count, formula_of table.now r.each.now)) result (pick_wanted c (tree_at table.now t) f g (bare table.now heap.now)) }
    ensures within { IfOk result (λ r. (r.at < length table.now) × (r.count < length table.now) × (formula_bound r.each.now ≤ length table.now)) }
    ensures place { IfOk result (λ _. c < length heap.now.chunks) }
    ensures width { HasWidths heap.now → IfOk result (λ r. IsTrue (is_width r.width)) }
{
    let row = match row_at(table, heap, c) {
        Ok(row) => row,
        Err(fault) => return Err(fault),
    };
    wanted(Reason::Fact, says_natural(table, heap, f, t))?;
    wanted(Reason::Fact, says_below(table, heap, g, t, row.count))?;
    Ok(row)
}

/// The address and the count of the row behind a position, within the limit.
#[tactic(auto, using(crate::proofs::Growing::growths))]
fn rest(
    table: &mut TermTable,
    width: u32,
    at: TermId,
    count: TermId,
    index: TermId,
) -> Result<(TermId, TermId), MoveFault>
    requires at { at < length table.old }
    requires count { count < length table.old }
    requires index { index < length table.old }
    ensures made { Gives refusal_of (λ p. (tree_at table.new p.0, tree_at table.new p.1)) result (rest_made width (tree_at table.old at) (tree_at table.old count) (tree_at table.old index)) }
    ensures within { IfOk result (λ p. (p.0 < length table.new) × (p.1 < length table.new)) }
    ensures small { IfOk result (λ _. node_count (tree_at table.old index) + 2 ≤ 4096) }
    ensures kept { Extends table.old table.new }
{
    let next = address(table, width, at, index)?;
    let rest = difference(table, count, index)?;
    Ok((next, rest))
}

/// Where a row is cut: the address of the cell, the position behind it, and the address and the count of the row there.
#[tactic(auto, using(crate::proofs::Growing::growths))]
fn cut(
    table: &mut TermTable,
    width: u32,
    at: TermId,
    count: TermId,
    t: TermId,
) -> Result<(TermId, TermId, TermId, TermId), MoveFault>
    requires at { at < length table.old }
    requires count { count < length table.old }
    requires index { t < length table.old }
    ensures made { Gives refusal_of (λ p. (tree_at table.new p.0, tree_at table.new p.1, tree_at table.new p.2, tree_at table.new p.3)) result (cut_made width (tree_at table.old at) (tree_at table.old count) (tree_at table.old t)) }
    ensures within { IfOk result (λ p. (p.0 < length table.new) × (p.1 < length table.new) × (p.2 < length table.new) × (p.3 < length table.new)) }
    ensures small { IfOk result (λ p. node_count (tree_at table.new p.1) + 2 ≤ 4096) }
    ensures kept { Extends table.old table.new }
{
    let cell = address(table, width, at, t)?;
    let index = behind(table, t, 1)?;
    let (next, left) = rest(table, width, at, count, index)?;
    Ok((cell, index, next, left))
}

/// The limits of the formulas of a `pick`, over the terms for the positions behind it.
fn pick_limits(
    table: &TermTable,
    heap: &SymHeap,
    each: &IdFormula,
    cell: (TermId, TermId),
    behind: (TermId, TermId),
) -> Result<(), MoveFault>
    requires each { formula_bound each.now ≤ length table.now }
    requires cell { (cell.0 < length table.now) × (cell.1 < length table.now) }
    requires behind { (behind.0 < length table.now) × (behind.1 < length table.now) }
    ensures limits { Gives refusal_of (λ _. tt) result (two_at (formula_of table.now each.now) (tree_at table.now behind.0) (tree_at table.now behind.1) (tree_at table.now cell.0) (tree_at table.now cell.1) heap.now.vars) }
    ensures behind { IfOk result (λ _. IsTrue (nat_le (formula_nodes (at_position (formula_of table.now each.now) (tree_at table.now behind.0) (tree_at table.now behind.1))) 4096)) }
    ensures cell { IfOk result (λ _. IsTrue (nat_le (formula_nodes (at_position (formula_of table.now each.now) (tree_at table.now cell.0) (tree_at table.now cell.1))) 4096)) }
{
    limited(
        LimitWord::Nodes,
        is_small_at(table, each, behind.0, behind.1),
    )?;
    limited(LimitWord::Nodes, is_small_at(table, each, cell.0, cell.1))?;
    room(heap, 1)
}

/// Two formulas of a row at positions and values.
#[tactic(auto, using(crate::proofs::Growing::growths))]
fn two_formulas(
    table: &mut TermTable,
    each: &IdFormula,
    cell: (TermId, TermId),
    behind: (TermId, TermId),
) -> Result<(IdFormula, IdFormula), OutOfMemory>
    requires each { formula_bound each.now ≤ length table.old }
    requires cell { (cell.0 < length table.old) × (cell.1 < length table.old) }
    requires behind { (behind.0 < length table.old) × (behind.1 < length table.old) }
    requires first { IsTrue (nat_le (formula_nodes (at_position (formula_of table.old each.now) (tree_at table.old behind.0) (tree_at table.old behind.1))) 4096) }
    requires second { IsTrue (nat_le (formula_nodes (at_position (formula_of table.old each.now) (tree_at table.old cell.0) (tree_at table.old cell.1))) 4096) }
    ensures behind { IfOk result (λ p. formula_of table.new p.0 ≡ at_position (formula_of table.old each.now) (tree_at table.old behind.0) (tree_at table.old behind.1)) }
    ensures cell { IfOk result (λ p. formula_of table.new p.1 ≡ at_position (formula_of table.old each.now) (tree_at table.old cell.0) (tree_at table.old cell.1)) }
    ensures within { IfOk result (λ p. (formula_bound p.0 ≤ length table.new) × (formula_bound p.1 ≤ length table.new)) }
    ensures kept { Extends table.old table.new }
{
    let rest = formula_at(table, each, behind.0, behind.1)?;
    let item = formula_at(table, each, cell.0, cell.1)?;
    Ok((rest, item))
}

/// The new value of a `pick`, and the terms for the positions behind it.
#[tactic(auto, using(crate::proofs::Growing::growths))]
fn pick_terms(
    table: &mut TermTable,
    vars: u32,
    index: TermId,
) -> Result<(TermId, TermId, TermId), OutOfMemory>
    requires behind { index < length table.old }
    requires small { node_count (tree_at table.old index) + 2 ≤ 4096 }
    ensures value { IfOk result (λ p. tree_at table.new p.0 ≡ term.Var vars) }
    ensures index { IfOk result (λ p. tree_at table.new p.1 ≡ term.Add (term.At place.Index) (tree_at table.old index)) }
    ensures item { IfOk result (λ p. tree_at table.new p.2 ≡ term.At place.Item) }
    ensures within { IfOk result (λ p. (p.0 < length table.new) × (p.1 < length table.new) × (p.2 < length table.new)) }
    ensures kept { Extends table.old table.new }
{
    let value = variable(table, vars)?;
    let (behind, item) = shift_terms(table, index)?;
    Ok((value, behind, item))
}

/// Two formulas of a row at positions and values, within the limits of a `pick`.
fn fitting_formulas(
    table: &mut TermTable,
    heap: &SymHeap,
    each: &IdFormula,
    cell: (TermId, TermId),
    behind: (TermId, TermId),
) -> Result<(IdFormula, IdFormula), MoveFault>
    requires each { formula_bound each.now ≤ length table.old }
    requires cell { (cell.0 < length table.old) × (cell.1 < length table.old) }
    requires behind { (behind.0 < length table.old) × (behind.1 < length table.old) }
    ensures made { Gives refusal_of (λ p. (formula_of table.new p.0, formula_of table.new p.1)) result (formulas_at (formula_of table.old each.now) (tree_at table.old behind.0) (tree_at table.old behind.1) (tree_at table.old cell.0) (tree_at table.old cell.1) heap.now.vars) }
    ensures within { IfOk result (λ p. (formula_bound p.0 ≤ length table.new) × (formula_bound p.1 ≤ length table.new)) }
    ensures kept { Extends table.old table.new }
{
    pick_limits(table, heap, each, (cell.0, cell.1), (behind.0, behind.1))?;
    let (rest, known) = two_formulas(table, each, cell, behind)?;
    Ok((rest, known))
}

/// What is known of the value of a cell of a row.
fn item_facts(
    alloc: Global,
    table: &mut TermTable,
    width: u32,
    value: TermId,
    item: IdFormula,
) -> Result<List<IdFormula>, OutOfMemory>
    requires width { IsTrue (is_width width) }
    requires value { value < length table.old }
    requires item { formula_bound item ≤ length table.old }
    ensures facts { IfOk result (λ fs. map (formula_of table.new) fs ≡ cell_range width (tree_at table.old value) ++ formula_of table.old item ∷ []) }
    ensures within { IfOk result (λ fs. All (λ f. formula_bound f ≤ length table.new) fs) }
    ensures kept { Extends table.old table.new }
{
    let mut facts = cell_range(alloc, table, width, value)?;
    facts.push(item)?;
    Ok(facts)
}

/// Two chunks.
fn both(alloc: Global, first: IdChunk, second: IdChunk) -> Result<List<IdChunk>, OutOfMemory>
    ensures { IfOk result (λ cs. cs ≡ first ∷ second ∷ []) }
{
    let mut chunks = List::new(alloc);
    chunks.push(first)?;
    chunks.push(second)?;
    Ok(chunks)
}

/// What a `pick` comes to once the row is cut.
#[tactic(auto, using(crate::proofs::Growing::growths))]
fn picked(
    alloc: Global,
    table: &mut TermTable,
    heap: &SymHeap,
    c: u32,
    row: &RowParts<'_>,
    t: TermId,
    cut: (TermId, TermId, TermId),
    terms: (TermId, TermId, TermId),
) -> Result<Change, MoveFault>
    requires width { IsTrue (is_width row.now.width) }
    requires place { c < length heap.now.chunks }
    requires at { row.now.at < length table.old }
    requires each { formula_bound row.now.each.now ≤ length table.old }
    requires position { t < length table.old }
    requires cut { (cut.0 < length table.old) × (cut.1 < length table.old) × (cut.2 < length table.old) }
    requires terms { (terms.0 < length table.old) × (terms.1 < length table.old) × (terms.2 < length table.old) }
    ensures made { Gives refusal_of (effect_of table.new) result (picked_at c row.now.width (tree_at table.old row.now.at) (formula_of table.old row.now.each.now) (tree_at table.old t) (tree_at table.old cut.0, tree_at table.old cut.1, tree_at table.old cut.2) (tree_at table.old terms.1) (tree_at table.old terms.2) (tree_at table.old terms.0) heap.now.vars) }
    ensures within { IfOk result (λ change. ChangeWithin (length table.new) heap.now change) }
    ensures kept { Extends table.old table.new }
{
    let width = row.width;
    let value = terms.0;
    let (behind, item) = fitting_formulas(table, heap, row.each, (t, value), (terms.1, terms.2))?;
    let facts = item_facts(alloc, table, width, value, item)?;
    let more = both(
        alloc,
        IdChunk::Cell {
            width,
            at: cut.0,
            value,
        },
        IdChunk::Row {
            width,
            at: cut.1,
            count: cut.2,
            each: behind,
        },
    )?;
    let each = row.each.copy(alloc)?;
    let becomes = IdChunk::Row {
        width,
        at: row.at,
        count: t,
        each,
    };
    Ok(Change {
        variables: 1,
        facts,
        more,
        ..Change::turned(alloc, c, becomes)
    })
}

/// `pick` at a position that is taken.
#[tactic(auto, using(crate::proofs::Growing::growths))]
pub(crate) fn pick(
    alloc: Global,
    table: &mut TermTable,
    heap: &SymHeap,
    c: u32,
    t: TermId,
    f: u32,
    g: u32,
) -> Result<Change, MoveFault>
    requires heap { HeapWithin (length table.old) heap.now }
    requires widths { HasWidths heap.now }
    requires position { t < length table.old }
    ensures planned { Gives refusal_of (effect_of table.new) result (pick_plan c (tree_at table.old t) f g (bare table.old heap.now)) }
    ensures within { IfOk result (λ change. ChangeWithin (length table.new) heap.now change) }
    ensures kept { Extends table.old table.new }
{
    let row = match pick_wanted(table, heap, c, t, f, g) {
        Ok(row) => row,
        Err(fault) => return Err(fault),
    };
    let (cell, index, next, left) = cut(table, row.width, row.at, row.count, t)?;
    let terms = pick_terms(table, heap.vars, index)?;
    picked(alloc, table, heap, c, &row, t, (cell, next, left), terms)
}

/// The parts of two rows that are joined.
#[derive(Clone, Copy)]
struct JoinParts<'h> {
    width: u32,
    at: TermId,
    count: TermId,
    more: TermId,
    each: &'h IdFormula,
}

/// What `join` wants, and the parts of the rows.
fn join_wanted<'h>(
    table: &TermTable,
    heap: &'h SymHeap,
    c: u32,
    d: u32,
    f: u32,
) -> Result<JoinParts<'h>, MoveFault>
    requires { HeapWithin (length table.now) heap.now }
    ensures wanted { Gives refusal_of (λ p. (p.width, tree_at table.now p.at, tree_at table.now p.count, tree_at table.now p.more, formula_of table.now p.each.now)) result (join_wanted c d f (bare table.now heap.now)) }
    ensures within { IfOk result (λ p. (p.at < length table.now) × (p.count < length table.now) × (p.more < length table.now) × (formula_bound p.each.now ≤ length table.now)) }
    ensures places { IfOk result (λ _. (c < length heap.now.chunks) × (d < length heap.now.chunks) × (d ≡ c → ⊥)) }
    ensures width { HasWidths heap.now → IfOk result (λ p. IsTrue (is_width p.width)) }
{
    let first = match row_at(table, heap, c) {
        Ok(row) => row,
        Err(fault) => return Err(fault),
    };
    let second = match row_at(table, heap, d) {
        Ok(row) => row,
        Err(fault) => return Err(fault),
    };
    let follows = is_shifted(table, first.each, first.count, second.each)?;
    wanted(
        Reason::Chunk,
        !(c == d) && (second.width == first.width && follows),
    )?;
    wanted(
        Reason::Fact,
        says_row_end(
            table,
            heap,
            f,
            second.at,
            first.at,
            first.width,
            first.count,
        ),
    )?;
    Ok(JoinParts {
        width: first.width,
        at: first.at,
        count: first.count,
        more: second.count,
        each: first.each,
    })
}

/// `join`.
pub(crate) fn join(
    alloc: Global,
    table: &mut TermTable,
    heap: &SymHeap,
    c: u32,
    d: u32,
    f: u32,
) -> Result<Change, MoveFault>
    requires { HeapWithin (length table.old) heap.now }
    ensures planned { Gives refusal_of (effect_of table.new) result (join_plan c d f (bare table.old heap.now)) }
    ensures within { IfOk result (λ change. ChangeWithin (length table.new) heap.now change) }
    ensures kept { Extends table.old table.new }
{
    let parts = match join_wanted(table, heap, c, d, f) {
        Ok(parts) => parts,
        Err(fault) => return Err(fault),
    };
    let count = sum(table, parts.count, parts.more)?;
    let each = parts.each.copy(alloc)?;
    let becomes = IdChunk::Row {
        width: parts.width,
        at: parts.at,
        count,
        each,
    };
    Ok(Change {
        gone: Some(d),
        ..Change::turned(alloc, c, becomes)
    })
}
