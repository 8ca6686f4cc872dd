ghost use Rattle.std.specs.Prelude.{◌≡◌, ◌<◌, ◌≤◌, [], length, map, min, sum_by, option_map, IfOk, IfSome};
ghost use Rattle.std.specs.List.{All};
ghost use Rattle.wasm_values.specs.Answers.{Gives};
ghost use Rattle.term_trees.specs.Terms.{node_count};
ghost use Rattle.term_trees.specs.Formulas.{formula_nodes};
ghost use Rattle.term_logic.specs.Table.{tree_at};
ghost use Rattle.term_logic.specs.Formulas.{formula_bound, formula_of};
ghost use Rattle.outline_rules.specs.States.{nodes_of, settled};
ghost use Rattle.heap_logic.specs.Heaps.{HasWidths};
ghost use Rattle.symbolic_state.specs.Refused.{refusal_of};
ghost use Rattle.symbolic_state.specs.States.{state_of, StateWithin, WithinLimits};
ghost use Rattle.symbolic_state.specs.words.Sizes.{option_nodes};

use crate::chunk_changes::chunks_size;
use crate::limits::within_limits;
use crate::refused::Refused;
use crate::state::SymState;
use crate::tracked::TrackedState;
use std::alloc::Global;
use term_logic::{IdFormula, TermId, TermTable};
use wasm_values::ValType;

/// The nodes of facts, or the last `usize` where there are more.
fn facts_size(table: &TermTable, facts: &[IdFormula]) -> usize
    requires { All (λ f. formula_bound f ≤ length table.now) facts.now }
    ensures { result ≡ min (sum_by formula_nodes (map (formula_of table.now) facts.now)) usize.MAX }
{
    let mut nodes: usize = 0;
    for fact in facts {
        nodes = nodes.saturating_add(table.formula_nodes(fact));
    }
    nodes
}

/// The nodes of the terms of entries, or the last `usize` where there are more.
fn entries_size(table: &TermTable, entries: &[(ValType, TermId)]) -> usize
    requires { All (λ e. e.1 < length table.now) entries.now }
    ensures { result ≡ min (sum_by node_count (map (λ e. tree_at table.now e.1) entries.now)) usize.MAX }
{
    let mut nodes: usize = 0;
    for entry in entries {
        nodes = nodes.saturating_add(table.nodes_of(entry.1) as usize);
    }
    nodes
}

/// The nodes of a term, if there is one.
fn option_size(table: &TermTable, id: Option<TermId>) -> usize
    requires { IfSome id (λ i. i < length table.now) }
    ensures nodes { result ≡ option_nodes (option_map (tree_at table.now) id) }
    ensures small { result ≤ 4096 }
{
    match id {
        Some(id) => table.nodes_of(id) as usize,
        None => 0,
    }
}

/// The nodes of the terms of globals, or the last `usize` where there are more.
fn globals_size(table: &TermTable, globals: &[Option<TermId>]) -> usize
    requires { All (λ o. IfSome o (λ id. id < length table.now)) globals.now }
    ensures { result ≡ min (sum_by (λ o. option_nodes (option_map (tree_at table.now) o)) globals.now) usize.MAX }
{
    let mut nodes: usize = 0;
    for global in globals {
        nodes = nodes.saturating_add(option_size(table, *global));
    }
    nodes
}

/// The nodes of a state, or the last `usize` where there are more.
fn state_size(table: &TermTable, state: &SymState) -> usize
    requires { StateWithin (length table.now) state.now }
    ensures { result ≡ min (nodes_of (state_of table.now state.now)) usize.MAX }
{
    let facts = facts_size(table, state.heap.facts.as_slice());
    let chunks = chunks_size(table, state.heap.chunks.as_slice());
    let locals = entries_size(table, state.locals.as_slice());
    let stack = entries_size(table, state.stack.as_slice());
    let globals = globals_size(table, state.globals.as_slice());
    let pages = option_size(table, state.pages);
    let heap = facts.saturating_add(chunks);
    let with_locals = heap.saturating_add(locals);
    let with_stack = with_locals.saturating_add(stack);
    let with_globals = with_stack.saturating_add(globals);
    with_globals.saturating_add(pages)
}

/// Whether a state over a table is within the limits; its nodes.
#[tactic(auto, using(crate::proofs::Sized::settled_states))]
fn state_within(table: &TermTable, state: &SymState) -> Result<usize, Refused>
    requires { StateWithin (length table.now) state.now }
    ensures done { Gives refusal_of (λ _. state_of table.now state.now) result (settled [] (state_of table.now state.now)) }
    ensures nodes { IfOk result (λ n. n ≡ nodes_of (state_of table.now state.now)) }
    ensures limits { IfOk result (λ _. WithinLimits (state_of table.now state.now)) }
{
    let nodes = state_size(table, state);
    let limits = within_limits(
        true,
        state.heap.vars as usize,
        state.heap.facts.len(),
        state.heap.chunks.len(),
        nodes,
    );
    match limits {
        Ok(()) => Ok(nodes),
        Err(refused) => Err(refused),
    }
}

impl TrackedState {
    /// A state over a table, if it is within the limits.
    pub fn from_parts(
        alloc: Global,
        table: TermTable,
        state: SymState,
    ) -> Result<TrackedState, Refused>
        requires within { StateWithin (length table) state }
        requires widths { HasWidths state.heap }
        ensures done { Gives refusal_of (λ t. t.state) result (settled [] (state_of table state)) }
        ensures parts { IfOk result (λ t. t ≡ record { terms = table; state = state_of table state }) }
    {
        let nodes = state_within(&table, &state)?;
        Ok(TrackedState {
            alloc,
            table,
            state,
            nodes,
        })
    }

    /// The table and the state over it.
    pub fn into_parts(self) -> (TermTable, SymState)
        ensures terms { result.0 ≡ self.terms }
        ensures state { state_of result.0 result.1 ≡ self.state }
        ensures within { StateWithin (length result.0) result.1 }
        ensures widths { HasWidths result.1.heap }
    {
        let TrackedState {
            alloc: _,
            table,
            state,
            nodes: _,
        } = self;
        (table, state)
    }
}
