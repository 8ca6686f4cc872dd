ghost use Rattle.std.specs.Prelude.{◌≡◌, ◌==◌, ◌+◌, ◌<◌, ◌≤◌, ◌||◌, [], ◌∷◌, length, map, IfOk, IsTrue};
ghost use Rattle.std.specs.List.{All};
ghost use Rattle.wasm_values.specs.Answers.{Gives};
ghost use Rattle.term_logic.specs.declared.formula.IdFormula.TheVariants as formula;
ghost use Rattle.term_logic.specs.Table.{tree_at};
ghost use Rattle.term_logic.specs.Extends.{Extends};
ghost use Rattle.term_logic.specs.Formulas.{formula_bound, formula_of};
ghost use Rattle.outline_rules.specs.HeapMoves.{half_facts, joined_value};
ghost use Rattle.heap_logic.specs.Faults.{refusal_of};
ghost use Rattle.heap_logic.specs.Heaps.{HeapWithin};
ghost use Rattle.heap_logic.specs.words.Effects.{bare, effect_of, ChangeWithin};
ghost use Rattle.heap_logic.specs.words.Plans.{halve_wanted, halve_limits, halve_plan, unite_wanted, unite_plan, half_terms, halves_made};

use crate::change::Change;
use crate::commit::limited;
use crate::facts::says_sum_with;
use crate::fault::MoveFault;
use crate::heap::{IdChunk, SymHeap};
use crate::lists::extend;
use crate::ranges::{between, range_of};
use crate::regions::room;
use crate::terms::{behind, joined, variable};
use crate::wanted::{cell_at, wanted};
use crate::widths::half_of;
use notes::Reason;
use std::alloc::Global;
use term_logic::{IdFormula, TermId, TermTable};
use wasm_values::{LimitWord, List, OutOfMemory};

/// What `halve` wants, and the half of the width, the address and the value.
fn halve_wanted(
    table: &TermTable,
    heap: &SymHeap,
    c: u32,
) -> Result<(u32, TermId, TermId), MoveFault>
    requires { HeapWithin (length table.now) heap.now }
    ensures wanted { Gives refusal_of (λ p. (p.0, tree_at table.now p.1, tree_at table.now p.2)) result (halve_wanted c (bare table.now heap.now)) }
    ensures half { IfOk result (λ p. IsTrue (p.0 == 1 || (p.0 == 2 || p.0 == 4))) }
    ensures within { IfOk result (λ p. (p.1 < length table.now) × (p.2 < length table.now)) }
    ensures place { IfOk result (λ _. c < length heap.now.chunks) }
{
    let (width, at, value) = cell_at(table, heap, c)?;
    let half = half_of(width)?;
    Ok((half, at, value))
}

/// The limits of a `halve` that are tested before terms are made.
#[tactic(auto, using(crate::proofs::Halves::halves_nodes))]
fn halve_limits(
    table: &TermTable,
    heap: &SymHeap,
    half: u32,
    value: TermId,
) -> Result<(), MoveFault>
    requires { value < length table.now }
    ensures limits { Gives refusal_of (λ _. tt) result (halve_limits half (tree_at table.now value) heap.now.vars) }
    ensures small { IfOk result (λ _. heap.now.vars + 2 ≤ 1000000) }
{
    let _ = half;
    limited(LimitWord::Nodes, table.nodes_of(value) as usize + 6 <= 4096)?;
    room(heap, 2)
}

/// The terms of two new variables, and of the value that they join to.
#[tactic(auto, using(crate::proofs::Halves::halves_fit))]
fn half_terms(
    table: &mut TermTable,
    half: u32,
    vars: u32,
) -> Result<(TermId, TermId, TermId), MoveFault>
    requires half { IsTrue (half == 1 || (half == 2 || half == 4)) }
    requires vars { vars + 2 ≤ 1000000 }
    ensures terms { Gives refusal_of (λ p. (tree_at table.new p.0, tree_at table.new p.1, tree_at table.new p.2)) result (half_terms half vars) }
    ensures within { IfOk result (λ p. (p.0 < length table.new) × (p.1 < length table.new) × (p.2 < length table.new)) }
    ensures kept { Extends table.old table.new }
{
    let first = variable(table, vars)?;
    let second = variable(table, vars + 1)?;
    let whole = joined(table, half, first, second)?;
    Ok((first, second, whole))
}

/// The facts of two halves of a value, over the bounds of their range.
fn half_claims(
    alloc: Global,
    range: (TermId, TermId),
    value: TermId,
    parts: (TermId, TermId, TermId),
) -> Result<List<IdFormula>, OutOfMemory>
    ensures { IfOk result (λ fs. fs ≡ formula.Le range.0 parts.0 ∷ formula.Le parts.0 range.1 ∷ formula.Le range.0 parts.1 ∷ formula.Le parts.1 range.1 ∷ formula.Eq value parts.2 ∷ []) }
{
    let mut facts = between(alloc, range, parts.0)?;
    extend(&mut facts, between(alloc, range, parts.1)?)?;
    facts.push(IdFormula::Eq(value, parts.2))?;
    Ok(facts)
}

/// The facts of two halves of a value.
#[tactic(auto, using(crate::proofs::FactForms::facts_over_ids))]
fn half_facts(
    alloc: Global,
    table: &mut TermTable,
    half: u32,
    value: TermId,
    parts: (TermId, TermId, TermId),
) -> Result<List<IdFormula>, OutOfMemory>
    requires half { IsTrue (half == 1 || (half == 2 || half == 4)) }
    requires value { value < length table.old }
    requires first { parts.0 < length table.old }
    requires second { parts.1 < length table.old }
    requires whole { parts.2 < length table.old }
    requires joined { tree_at table.old parts.2 ≡ joined_value half (tree_at table.old parts.0) (tree_at table.old parts.1) }
    ensures facts { IfOk result (λ fs. map (formula_of table.new) fs ≡ half_facts half (tree_at table.old value) (tree_at table.old parts.0) (tree_at table.old parts.1)) }
    ensures within { IfOk result (λ fs. All (λ f. formula_bound f ≤ length table.new) fs) }
    ensures kept { Extends table.old table.new }
{
    let range = range_of(table, half)?;
    half_claims(alloc, range, value, parts)
}

/// The terms of two new variables, and the facts of the halves of a value that they are.
#[tactic(auto, using(crate::proofs::Growing::growths))]
fn halves(
    alloc: Global,
    table: &mut TermTable,
    half: u32,
    value: TermId,
    vars: u32,
) -> Result<(TermId, TermId, List<IdFormula>), MoveFault>
    requires half { IsTrue (half == 1 || (half == 2 || half == 4)) }
    requires value { value < length table.old }
    requires vars { vars + 2 ≤ 1000000 }
    ensures halves { Gives refusal_of (λ p. (tree_at table.new p.0, tree_at table.new p.1, map (formula_of table.new) p.2)) result (halves_made half (tree_at table.old value) vars) }
    ensures within { IfOk result (λ p. (p.0 < length table.new) × (p.1 < length table.new) × All (λ f. formula_bound f ≤ length table.new) p.2) }
    ensures kept { Extends table.old table.new }
{
    let (first, second, whole) = half_terms(table, half, vars)?;
    let facts = half_facts(alloc, table, half, value, (first, second, whole))?;
    Ok((first, second, facts))
}

/// `halve`.
#[tactic(auto, using(crate::proofs::Growing::growths))]
pub(crate) fn halve(
    alloc: Global,
    table: &mut TermTable,
    heap: &SymHeap,
    c: u32,
) -> Result<Change, MoveFault>
    requires { HeapWithin (length table.old) heap.now }
    ensures planned { Gives refusal_of (effect_of table.new) result (halve_plan c (bare table.old heap.now)) }
    ensures within { IfOk result (λ change. ChangeWithin (length table.new) heap.now change) }
    ensures kept { Extends table.old table.new }
{
    let (width, at, before) = halve_wanted(table, heap, c)?;
    let next = behind(table, at, width)?;
    halve_limits(table, heap, width, before)?;
    let (value, second, facts) = halves(alloc, table, width, before, heap.vars)?;
    let mut change = Change {
        variables: 2,
        facts,
        ..Change::turned(alloc, c, IdChunk::Cell { width, at, value })
    };
    change.more.push(IdChunk::Cell {
        width,
        at: next,
        value: second,
    })?;
    Ok(change)
}

/// What `unite` wants, and the width, the address and the values.
fn unite_wanted(
    table: &TermTable,
    heap: &SymHeap,
    c: u32,
    d: u32,
    f: u32,
) -> Result<(u32, TermId, TermId, TermId), MoveFault>
    requires { HeapWithin (length table.now) heap.now }
    ensures wanted { Gives refusal_of (λ p. (p.0, tree_at table.now p.1, tree_at table.now p.2, tree_at table.now p.3)) result (unite_wanted c d f (bare table.now heap.now)) }
    ensures width { IfOk result (λ p. IsTrue (p.0 == 1 || (p.0 == 2 || p.0 == 4))) }
    ensures within { IfOk result (λ p. (p.1 < length table.now) × (p.2 < length table.now) × (p.3 < length table.now)) }
    ensures places { IfOk result (λ _. (c < length heap.now.chunks) × (d < length heap.now.chunks) × (d ≡ c → ⊥)) }
{
    let (width, at, first) = cell_at(table, heap, c)?;
    let (other, next, second) = cell_at(table, heap, d)?;
    wanted(
        Reason::Chunk,
        !(c == d) && ((width == 1 || (width == 2 || width == 4)) && other == width),
    )?;
    wanted(Reason::Fact, says_sum_with(table, heap, f, next, at, width))?;
    Ok((width, at, first, second))
}

/// `unite`.
pub(crate) fn unite(
    alloc: Global,
    table: &mut TermTable,
    heap: &SymHeap,
    c: u32,
    d: u32,
    f: u32,
) -> Result<Change, MoveFault>
    requires { HeapWithin (length table.old) heap.now }
    ensures planned { Gives refusal_of (effect_of table.new) result (unite_plan c d f (bare table.old heap.now)) }
    ensures within { IfOk result (λ change. ChangeWithin (length table.new) heap.now change) }
    ensures kept { Extends table.old table.new }
{
    let (width, at, first, second) = unite_wanted(table, heap, c, d, f)?;
    let value = joined(table, width, first, second)?;
    let width = 2 * width;
    Ok(Change {
        gone: Some(d),
        ..Change::turned(alloc, c, IdChunk::Cell { width, at, value })
    })
}
