// What steps derive of any cell of a row.

ghost use Rattle.std.specs.Prelude.{◌≡◌, ◌+◌, ◌<◌, ◌≤◌, ◌++◌, length, map, IfOk, IsTrue};
ghost use Rattle.std.specs.List.{All, list_all};
ghost use Rattle.wasm_values.specs.Answers.{Gives};
ghost use Rattle.term_trees.specs.Formulas.{formula_nodes, well_formed_formula};
ghost use Rattle.term_trees.specs.Rows.{at_position};
ghost use Rattle.term_logic.specs.Table.{tree_at};
ghost use Rattle.term_logic.specs.Formulas.{formula_bound, formula_of};
ghost use Rattle.bitvector_rules.specs.Steps.{all_admissible};
ghost use Rattle.notes.specs.WellFormed.{is_width, well_formed_step};
ghost use Rattle.outline_rules.specs.States.{number};
ghost use Rattle.outline_rules.specs.Leaves.{leaves_with, steps_taken};
ghost use Rattle.outline_rules.specs.HeapMoves.{greatest_in, row_at};
ghost use Rattle.outline_rules.specs.Moves.{any_index, any_item, row_hyps, derived, each};
ghost use Rattle.symbolic_moves.specs.words.Parts.{cell_hyps, each_over, each_with, each_of};
ghost use Rattle.symbolic_state.specs.Refused.{refusal_of};
ghost use Rattle.symbolic_state.specs.Growth.{Grown};

use crate::derivations::derived_by;
use crate::steps::steps_taken;
use bitvector_rules::Step;
use heap_logic::IdChunk;
use notes::Reason;
use std::alloc::Global;
use symbolic_state::{Refused, TrackedState, at_most, below};
use term_logic::{Formula, IdFormula, TermId};
use wasm_values::{List, OutOfMemory};

/// A row: its width, its address, its count, and what it says of each cell.
#[derive(Drop)]
struct Row {
    width: u32,
    at: TermId,
    count: TermId,
    each: IdFormula,
}

/// The row with a number.
fn row_at(alloc: Global, state: &TrackedState, c: u32) -> Result<Row, Refused>
    ensures row { Gives refusal_of (λ r. (r.width, tree_at state.now.terms r.at, tree_at state.now.terms r.count, formula_of state.now.terms r.each)) result (row_at state.now.state c) }
    ensures within { IfOk result (λ r. (r.at < length state.now.terms) × (r.count < length state.now.terms) × (formula_bound r.each ≤ length state.now.terms)) }
    ensures width { IfOk result (λ r. IsTrue (is_width r.width)) }
{
    match state.chunk(c) {
        Some(
            IdChunk::Row {
                width,
                at,
                count,
                each,
            },
        ) => Ok(Row {
            width: *width,
            at: *at,
            count: *count,
            each: each.copy(alloc)?,
        }),
        _ => Err(Refused::Reason(Reason::Chunk)),
    }
}

/// The greatest number that so many bytes spell.
fn greatest_in(width: u32) -> u64
    requires { IsTrue (is_width width) }
    ensures { result ≡ greatest_in width }
{
    if width == 1 {
        255
    } else if width == 2 {
        65_535
    } else if width == 4 {
        4_294_967_295
    } else {
        18_446_744_073_709_551_615
    }
}

/// The least and the greatest value of a cell of a width.
#[tactic(auto, using(symbolic_state::proofs::Grows::grown, symbolic_state::proofs::Grows::grown_ids))]
fn range_of(state: &mut TrackedState, width: u32) -> Result<(TermId, TermId), OutOfMemory>
    requires { IsTrue (is_width width) }
    ensures least { IfOk result (λ r. tree_at state.new.terms r.0 ≡ number 0) }
    ensures greatest { IfOk result (λ r. tree_at state.new.terms r.1 ≡ number (greatest_in width)) }
    ensures within { IfOk result (λ r. (r.0 < length state.new.terms) × (r.1 < length state.new.terms)) }
    ensures state { IfOk result (λ _. state.new.state ≡ state.old.state) }
    ensures kept { IfOk result (λ _. Grown state.old state.new) }
{
    let least = state.number(0)?;
    let greatest = state.number(greatest_in(width))?;
    Ok((least, greatest))
}

/// The position and the value of any cell: the next two variables.
#[tactic(auto, using(symbolic_state::proofs::Grows::grown, symbolic_state::proofs::Grows::grown_ids))]
fn any_cell(state: &mut TrackedState) -> Result<(TermId, TermId), OutOfMemory>
    ensures index { IfOk result (λ c. tree_at state.new.terms c.0 ≡ any_index state.old.state) }
    ensures item { IfOk result (λ c. tree_at state.new.terms c.1 ≡ any_item state.old.state) }
    ensures within { IfOk result (λ c. (c.0 < length state.new.terms) × (c.1 < length state.new.terms)) }
    ensures state { IfOk result (λ _. state.new.state ≡ state.old.state) }
    ensures kept { IfOk result (λ _. Grown state.old state.new) }
{
    state.settled();
    let next = state.variables() + 1;
    let index = state.fresh()?;
    let item = state.variable(next)?;
    Ok((index, item))
}

/// What is known of a cell, over the terms for its position and value, the count of the row, and the least and the greatest
/// value.
#[tactic(auto, using(symbolic_state::proofs::Facts::formula_shapes))]
fn hyps_of(
    state: &TrackedState,
    cell: (TermId, TermId),
    count: TermId,
    range: (TermId, TermId),
    says: IdFormula,
) -> Result<List<IdFormula>, OutOfMemory>
    requires cell { (cell.0 < length state.now.terms) × (cell.1 < length state.now.terms) }
    requires count { count < length state.now.terms }
    requires range { (range.0 < length state.now.terms) × (range.1 < length state.now.terms) }
    requires says { formula_bound says ≤ length state.now.terms }
    ensures hyps { IfOk result (λ hs. map (formula_of state.now.terms) hs ≡ cell_hyps (tree_at state.now.terms cell.0) (tree_at state.now.terms cell.1) (tree_at state.now.terms count) (tree_at state.now.terms range.0) (tree_at state.now.terms range.1) (formula_of state.now.terms says)) }
    ensures within { IfOk result (λ hs. All (λ f. formula_bound f ≤ length state.now.terms) hs) }
{
    let mut hyps = List::new(state.allocator());
    hyps.push(at_most(range.0, cell.0))?;
    hyps.push(below(cell.0, count))?;
    hyps.push(at_most(range.0, cell.1))?;
    hyps.push(at_most(cell.1, range.1))?;
    hyps.push(says)?;
    Ok(hyps)
}

/// What is known of any cell of a row.
#[tactic(auto, using(symbolic_state::proofs::Grows::grown, symbolic_state::proofs::Grows::grown_ids, symbolic_state::proofs::Facts::leaf_nodes))]
fn row_hyps(
    state: &mut TrackedState,
    row: &Row,
    cell: (TermId, TermId),
) -> Result<List<IdFormula>, OutOfMemory>
    requires width { IsTrue (is_width row.now.width) }
    requires count { row.now.count < length state.old.terms }
    requires each { formula_bound row.now.each ≤ length state.old.terms }
    requires cell { (cell.0 < length state.old.terms) × (cell.1 < length state.old.terms) }
    requires index { tree_at state.old.terms cell.0 ≡ any_index state.old.state }
    requires item { tree_at state.old.terms cell.1 ≡ any_item state.old.state }
    ensures hyps { IfOk result (λ hs. map (formula_of state.new.terms) hs ≡ row_hyps state.old.state row.now.width (tree_at state.old.terms row.now.count) (formula_of state.old.terms row.now.each)) }
    ensures within { IfOk result (λ hs. All (λ f. formula_bound f ≤ length state.new.terms) hs) }
    ensures state { IfOk result (λ _. state.new.state ≡ state.old.state) }
    ensures kept { IfOk result (λ _. Grown state.old state.new) }
{
    let says = state.at_position(&row.each, cell.0, cell.1)?;
    let range = range_of(state, row.width)?;
    hyps_of(state, cell, row.count, range, says)
}

/// The steps have to derive the goal from the facts and what is known of any cell of a row.
#[tactic(auto, using(symbolic_state::proofs::Grows::grown, symbolic_state::proofs::Grows::grown_ids))]
fn cell_derived(
    state: &mut TrackedState,
    row: &Row,
    cell: (TermId, TermId),
    goal: &IdFormula,
    steps: &List<Step>,
) -> Result<(), Refused>
    requires width { IsTrue (is_width row.now.width) }
    requires count { row.now.count < length state.old.terms }
    requires each { formula_bound row.now.each ≤ length state.old.terms }
    requires cell { (cell.0 < length state.old.terms) × (cell.1 < length state.old.terms) }
    requires index { tree_at state.old.terms cell.0 ≡ any_index state.old.state }
    requires item { tree_at state.old.terms cell.1 ≡ any_item state.old.state }
    requires goal { formula_bound goal.now ≤ length state.old.terms }
    requires steps { IsTrue (all_admissible steps.now) }
    ensures derived { Gives refusal_of (λ _. tt) result (derived (state.old.state.facts ++ row_hyps state.old.state row.now.width (tree_at state.old.terms row.now.count) (formula_of state.old.terms row.now.each)) (formula_of state.old.terms goal.now) steps.now) }
    ensures state { IfOk result (λ _. state.new.state ≡ state.old.state) }
    ensures kept { IfOk result (λ _. Grown state.old state.new) }
{
    let hyps = row_hyps(state, row, cell)?;
    let checked = state.check_with(hyps, goal, steps)?;
    derived_by(checked)
}

/// The steps have to derive what a formula says of any cell of a row.
#[tactic(auto, using(symbolic_state::proofs::Grows::grown, symbolic_state::proofs::Grows::grown_ids, symbolic_state::proofs::Facts::leaf_nodes))]
fn row_derived(
    state: &mut TrackedState,
    row: &Row,
    each: &IdFormula,
    steps: &List<Step>,
) -> Result<(), Refused>
    requires width { IsTrue (is_width row.now.width) }
    requires count { row.now.count < length state.old.terms }
    requires before { formula_bound row.now.each ≤ length state.old.terms }
    requires each { formula_bound each.now ≤ length state.old.terms }
    requires steps { IsTrue (all_admissible steps.now) }
    ensures derived { Gives refusal_of (λ _. tt) result (derived (state.old.state.facts ++ row_hyps state.old.state row.now.width (tree_at state.old.terms row.now.count) (formula_of state.old.terms row.now.each)) (at_position (formula_of state.old.terms each.now) (any_index state.old.state) (any_item state.old.state)) steps.now) }
    ensures state { IfOk result (λ _. state.new.state ≡ state.old.state) }
    ensures kept { IfOk result (λ _. Grown state.old state.new) }
{
    let cell = any_cell(state)?;
    let goal = state.at_position(each, cell.0, cell.1)?;
    cell_derived(state, row, cell, &goal, steps)
}

/// A row with another formula, which the steps derive of any cell.
#[tactic(auto, using(symbolic_state::proofs::Grows::grown, symbolic_state::proofs::Grows::grown_ids))]
fn each_over(
    state: &mut TrackedState,
    c: u32,
    row: &Row,
    each: IdFormula,
    steps: &List<Step>,
) -> Result<(), Refused>
    requires width { IsTrue (is_width row.now.width) }
    requires at { row.now.at < length state.old.terms }
    requires count { row.now.count < length state.old.terms }
    requires before { formula_bound row.now.each ≤ length state.old.terms }
    requires each { formula_bound each ≤ length state.old.terms }
    requires small { formula_nodes (formula_of state.old.terms each) ≤ 4096 }
    requires steps { IsTrue (all_admissible steps.now) }
    ensures done { Gives refusal_of (λ _. state.new.state) result (each_over c (formula_of state.old.terms each) steps.now (row.now.width, tree_at state.old.terms row.now.at, tree_at state.old.terms row.now.count, formula_of state.old.terms row.now.each) state.old.state) }
    ensures kept { IfOk result (λ _. Grown state.old state.new) }
{
    row_derived(state, row, &each, steps)?;
    let row = IdChunk::Row {
        width: row.width,
        at: row.at,
        count: row.count,
        each,
    };
    state.set_chunk(c, row)
}

/// The row with a number, with another formula, which the steps derive of any cell.
fn each_with(
    alloc: Global,
    state: &mut TrackedState,
    c: u32,
    each: IdFormula,
    steps: &List<Step>,
) -> Result<(), Refused>
    requires each { formula_bound each ≤ length state.old.terms }
    requires small { formula_nodes (formula_of state.old.terms each) ≤ 4096 }
    requires steps { IsTrue (all_admissible steps.now) }
    ensures done { Gives refusal_of (λ _. state.new.state) result (each_with c (formula_of state.old.terms each) steps.now state.old.state) }
    ensures kept { IfOk result (λ _. Grown state.old state.new) }
{
    let row = row_at(alloc, state, c)?;
    each_over(state, c, &row, each, steps)
}

/// The steps of `each`, which have two variables more.
fn each_steps(
    alloc: Global,
    state: &mut TrackedState,
    steps: &List<Step>,
) -> Result<List<Step>, Refused>
    requires { IsTrue (list_all well_formed_step steps.now) }
    ensures taken { Gives refusal_of (λ ss. ss) result (steps_taken (leaves_with (state.old.state.vars + 2) state.old.state) steps.now) }
    ensures admissible { IfOk result (λ ss. IsTrue (all_admissible ss)) }
    ensures state { IfOk result (λ _. state.new.state ≡ state.old.state) }
    ensures kept { IfOk result (λ _. Grown state.old state.new) }
{
    state.settled();
    let variables = state.variables() + 2;
    steps_taken(alloc, state, variables, steps)
}

/// What `each` does once its formula is taken.
#[tactic(auto, using(symbolic_state::proofs::Grows::grown, symbolic_state::proofs::Grows::grown_ids))]
fn each_of(
    alloc: Global,
    state: &mut TrackedState,
    c: u32,
    each: IdFormula,
    steps: &List<Step>,
) -> Result<(), Refused>
    requires each { formula_bound each ≤ length state.old.terms }
    requires small { formula_nodes (formula_of state.old.terms each) ≤ 4096 }
    requires steps { IsTrue (list_all well_formed_step steps.now) }
    ensures done { Gives refusal_of (λ _. state.new.state) result (each_of c (formula_of state.old.terms each) steps.now state.old.state) }
    ensures kept { IfOk result (λ _. Grown state.old state.new) }
{
    let steps = each_steps(alloc, state, steps)?;
    each_with(alloc, state, c, each, &steps)
}

/// `each`: a row says another formula of its cells, which the steps derive for any cell.
pub fn each(
    alloc: Global,
    state: &mut TrackedState,
    c: u32,
    f: &Formula,
    steps: &List<Step>,
) -> Result<(), Refused>
    requires formula { IsTrue (well_formed_formula f.now) }
    requires steps { IsTrue (list_all well_formed_step steps.now) }
    ensures done { Gives refusal_of (λ _. state.new.state) result (each c f.now steps.now state.old.state) }
    ensures kept { IfOk result (λ _. Grown state.old state.new) }
{
    let each = state.taken_row(f)?;
    each_of(alloc, state, c, each, steps)
}
