ghost use Rattle.std.specs.Prelude.{◌≡◌, ◌+◌, ◌-◌, ◌<◌, ◌≤◌, ◌^◌, ◌++◌, nat_le, length, min, slice_set, IfOk, IfSome, OnOk, OnErr};
ghost use Rattle.std.specs.Option.{option_map_or};
ghost use Rattle.wasm_values.specs.Answers.{Gives};
ghost use Rattle.outline_rules.specs.Refusals.{limited};
ghost use Rattle.heap_logic.specs.Faults.{refusal_of};
ghost use Rattle.outline_rules.specs.States.{nodes_of};
ghost use Rattle.heap_logic.specs.Heaps.{seen, HeapWithin};
ghost use Rattle.heap_logic.specs.words.Commits.{changed, state_limits};
ghost use Rattle.heap_logic.specs.words.Effects.{after, effect_of, without_id, ChangeWithin};
ghost use Rattle.heap_logic.specs.words.Limits.{limits};

use crate::change::Change;
use crate::counts::{new_nodes, rest_nodes};
use crate::fault::MoveFault;
use crate::heap::{IdChunk, SymHeap};
use crate::lists::{extend, remove_at};
use std::alloc::Global;
use term_logic::{IdFormula, LeafIds, TermTable};
use wasm_values::{LimitWord, List, OutOfMemory};

/// Whether two numbers together are at most a greatest one.
pub(crate) fn at_most(greatest: usize, count: usize, more: usize) -> bool
    ensures { result ≡ nat_le (count + more) greatest }
{
    count <= greatest && more <= greatest - count
}

/// A test that a limit isn't passed.
pub(crate) fn limited(word: LimitWord, kept: bool) -> Result<(), MoveFault>
    ensures { Gives refusal_of (λ _. tt) result (limited word kept) }
{
    if kept {
        Ok(())
    } else {
        Err(MoveFault::Limit(word))
    }
}

/// The limits of a state with so many variables, facts, chunks and nodes more than those.
fn within_limits(
    variables: (usize, usize),
    facts: (usize, usize),
    chunks: (usize, usize),
    nodes: usize,
) -> Result<(), MoveFault>
    ensures limits { Gives refusal_of (λ _. tt) result (limits (variables.0 + variables.1) (facts.0 + facts.1) (chunks.0 + chunks.1) nodes) }
    ensures variables { IfOk result (λ _. variables.0 + variables.1 ≤ 1000000) }
    ensures nodes { IfOk result (λ _. nodes ≤ 1000000) }
{
    limited(
        LimitWord::Variables,
        at_most(1_000_000, variables.0, variables.1),
    )?;
    limited(LimitWord::Facts, at_most(4096, facts.0, facts.1))?;
    limited(LimitWord::Chunks, at_most(1024, chunks.0, chunks.1))?;
    limited(LimitWord::State, nodes <= 1_000_000)
}

/// How many chunks stay of those that there are.
fn staying(heap: &SymHeap, gone: Option<u32>) -> usize
    requires { IfSome gone (λ d. d < length heap.now.chunks) }
    ensures { result ≡ option_map_or (λ _. length heap.now.chunks - 1) gone (length heap.now.chunks) }
{
    match gone {
        Some(_) => heap.chunks.len() - 1,
        None => heap.chunks.len(),
    }
}

/// Adds facts and chunks: all, or none after a refusal.
fn add(heap: &mut SymHeap, facts: List<IdFormula>, chunks: List<IdChunk>) -> Result<(), OutOfMemory>
    ensures ok { OnOk result (heap.new ≡ record heap.old { facts = heap.old.facts ++ facts; chunks = heap.old.chunks ++ chunks }) }
    ensures err { OnErr result (heap.new ≡ heap.old) }
{
    let before = heap.facts.len();
    extend(&mut heap.facts, facts)?;
    match extend(&mut heap.chunks, chunks) {
        Ok(()) => Ok(()),
        Err(error) => {
            heap.facts.truncate(before);
            Err(error)
        }
    }
}

/// Changes the variables and the chunks that there are.
fn alter(
    alloc: Global,
    heap: &mut SymHeap,
    variables: u32,
    chunk: u32,
    becomes: IdChunk,
    gone: Option<u32>,
)
    requires variables { heap.old.vars + variables < 2 ^ 32 }
    requires place { chunk < length heap.old.chunks }
    requires gone { IfSome gone (λ d. d < length heap.old.chunks) }
    ensures { heap.new ≡ record heap.old { vars = heap.old.vars + variables; chunks = without_id gone (slice_set heap.old.chunks chunk becomes) } }
{
    heap.vars += variables;
    heap.chunks.set(chunk as usize, becomes);
    match gone {
        Some(d) => remove_at(alloc, &mut heap.chunks, d as usize),
        None => {}
    }
}

/// The nodes of a state after a change, or the last `usize` where there are more.
fn total(
    table: &TermTable,
    heap: &SymHeap,
    slots: &LeafIds<'_>,
    nodes: usize,
    change: &Change,
) -> usize
    requires heap { HeapWithin (length table.now) heap.now }
    requires change { ChangeWithin (length table.now) heap.now change.now }
    requires nodes { nodes ≡ nodes_of (seen table.now heap.now slots.now) }
    ensures { result ≡ min (nodes_of (after (effect_of table.now change.now) (seen table.now heap.now slots.now))) usize.MAX }
{
    let rest = rest_nodes(table, heap, slots, change.chunk, change.gone, nodes);
    rest.saturating_add(new_nodes(table, heap, change))
}

/// The limits of a state after a change.
fn fits(
    table: &TermTable,
    heap: &SymHeap,
    slots: &LeafIds<'_>,
    change: &Change,
    total: usize,
) -> Result<(), MoveFault>
    requires change { ChangeWithin (length table.now) heap.now change.now }
    requires total { total ≡ min (nodes_of (after (effect_of table.now change.now) (seen table.now heap.now slots.now))) usize.MAX }
    ensures limits { Gives refusal_of (λ _. tt) result (state_limits (after (effect_of table.now change.now) (seen table.now heap.now slots.now))) }
    ensures nodes { IfOk result (λ _. total ≤ 1000000) }
    ensures variables { IfOk result (λ _. heap.now.vars + change.now.variables ≤ 1000000) }
{
    let _ = table;
    let _ = slots;
    let facts = heap.facts.len();
    let more_facts = change.facts.len();
    let chunks = staying(heap, change.gone);
    let more_chunks = change.more.len();
    within_limits(
        (heap.vars as usize, change.variables as usize),
        (facts, more_facts),
        (chunks, more_chunks),
        total,
    )
}

/// Makes a change: all of it, or nothing after a refusal.
fn make(alloc: Global, heap: &mut SymHeap, change: Change) -> Result<(), OutOfMemory>
    requires variables { heap.old.vars + change.variables ≤ 1000000 }
    requires place { change.chunk < length heap.old.chunks }
    requires gone { IfSome change.gone (λ d. d < length heap.old.chunks) }
    ensures ok { OnOk result (heap.new ≡ changed change heap.old) }
    ensures err { OnErr result (heap.new ≡ heap.old) }
{
    let Change {
        variables,
        facts,
        chunk,
        becomes,
        more,
        gone,
    } = change;
    add(heap, facts, more)?;
    alter(alloc, heap, variables, chunk, becomes, gone);
    Ok(())
}

/// Makes a change within the limits, and answers the nodes of the state then: all of it, or nothing after a refusal.
pub(crate) fn commit(
    alloc: Global,
    table: &TermTable,
    heap: &mut SymHeap,
    slots: &LeafIds<'_>,
    nodes: usize,
    change: Change,
) -> Result<usize, MoveFault>
    requires heap { HeapWithin (length table.now) heap.old }
    requires change { ChangeWithin (length table.now) heap.old change }
    requires nodes { nodes ≡ nodes_of (seen table.now heap.old slots.now) }
    ensures limits { Gives refusal_of (λ _. tt) result (state_limits (after (effect_of table.now change) (seen table.now heap.old slots.now))) }
    ensures nodes { IfOk result (λ n. n ≡ nodes_of (after (effect_of table.now change) (seen table.now heap.old slots.now))) }
    ensures ok { OnOk result (heap.new ≡ changed change heap.old) }
    ensures err { OnErr result (heap.new ≡ heap.old) }
{
    let total = total(table, heap, slots, nodes, &change);
    fits(table, heap, slots, &change, total)?;
    make(alloc, heap, change)?;
    Ok(total)
}
