// The formulas and chunks of an assertion, with terms in place of their leaves.

ghost use Rattle.std.specs.Prelude.{◌≡◌, ◌<◌, ◌≤◌, nat_le, ◌&&◌, length, IfOk, IsTrue};
ghost use Rattle.wasm_values.specs.Answers.{Gives};
ghost use Rattle.term_trees.specs.Terms.{node_count, well_formed};
ghost use Rattle.term_trees.specs.Formulas.{formula_nodes, well_formed_formula};
ghost use Rattle.term_trees.specs.Leaves.{replaced, replaced_formula};
ghost use Rattle.term_logic.specs.Extends.{Extends};
ghost use Rattle.term_logic.specs.Table.{tree_at};
ghost use Rattle.term_logic.specs.Formulas.{formula_bound, formula_of};
ghost use Rattle.term_logic.specs.Leaves.{LeavesWithin, leaves_of};
ghost use Rattle.notes.specs.WellFormed.{well_formed_chunk};
ghost use Rattle.heap_logic.specs.Heaps.{chunk_of, ChunkWithin, HasWidth};
ghost use Rattle.outline_rules.specs.Chunks.{replaced_chunk};
ghost use Rattle.outline_rules.specs.States.{fact_added};
ghost use Rattle.outline_rules.specs.Renewal.{chunk_added};
ghost use Rattle.symbolic_state.specs.Assertions.{leaves_in, TermsWithin};
ghost use Rattle.symbolic_state.specs.Refused.{refusal_of};
ghost use Rattle.symbolic_state.specs.Growth.{Grown};
ghost use Rattle.symbolic_state.specs.States.{state_of, StateWithin};
ghost use Rattle.symbolic_state.specs.words.Instances.{small_formula, small_parts, small_chunk};

use crate::limits::NODES;
use crate::refused::Refused;
use crate::slots::leaves_over;
use crate::state::SymState;
use crate::tracked::TrackedState;
use heap_logic::IdChunk;
use notes::Chunk;
use term_logic::{Formula, IdFormula, LeafIds, Term, TermId, TermTable};
use wasm_values::{LimitWord, OutOfMemory};

/// The terms for leaves of an assertion that no state has: its own variables, `(arg i)` and `(result)`.
#[derive(Clone, Copy)]
pub struct AssertionTerms<'a> {
    pub own: &'a [TermId],
    pub args: &'a [TermId],
    pub result: Option<TermId>,
}

/// A formula with its leaves replaced, within the limit.
#[tactic(auto, using(crate::proofs::AssertionParts::formulas))]
fn put_formula(
    table: &mut TermTable,
    f: &Formula,
    leaves: &LeafIds<'_>,
) -> Result<IdFormula, Refused>
    requires leaves { LeavesWithin (length table.old) leaves.now }
    requires well_formed { IsTrue (well_formed_formula f.now) }
    ensures put { Gives refusal_of (formula_of table.new) result (small_formula (replaced_formula (leaves_of table.old leaves.now) f.now)) }
    ensures within { IfOk result (λ g. formula_bound g ≤ length table.new) }
    ensures kept { Extends table.old table.new }
{
    if table.replaced_formula_nodes(f, leaves) > NODES {
        return Err(Refused::Limit(LimitWord::Nodes));
    }
    Ok(table.put_replaced_formula(f, leaves)?)
}

/// Whether a term with its leaves replaced is within the limit.
fn is_small(table: &TermTable, t: &Term, leaves: &LeafIds<'_>) -> bool
    requires { LeavesWithin (length table.now) leaves.now }
    ensures { result ≡ nat_le (node_count (replaced (leaves_of table.now leaves.now) t.now)) 4096 }
{
    table.replaced_nodes(t, leaves) <= NODES
}

/// Whether a formula with its leaves replaced is within the limit.
fn is_small_formula(table: &TermTable, f: &Formula, leaves: &LeafIds<'_>) -> bool
    requires { LeavesWithin (length table.now) leaves.now }
    ensures { result ≡ nat_le (formula_nodes (replaced_formula (leaves_of table.now leaves.now) f.now)) 4096 }
{
    table.replaced_formula_nodes(f, leaves) <= NODES
}

/// Whether each part of a chunk with its leaves replaced is within the limit.
fn has_small_parts(table: &TermTable, chunk: &Chunk, leaves: &LeafIds<'_>) -> bool
    requires { LeavesWithin (length table.now) leaves.now }
    ensures { result ≡ small_parts (replaced_chunk (leaves_of table.now leaves.now) chunk.now) }
{
    match chunk {
        Chunk::Cell {
            width: _,
            at,
            value,
        } => is_small(table, at, leaves) && is_small(table, value, leaves),
        Chunk::Region { at, len } => is_small(table, at, leaves) && is_small(table, len, leaves),
        Chunk::Row {
            width: _,
            at,
            count,
            each,
        } => {
            is_small(table, at, leaves)
                && (is_small(table, count, leaves) && is_small_formula(table, each, leaves))
        }
    }
}

/// Two terms with their leaves replaced, which are within the limit.
#[tactic(auto, using(crate::proofs::AssertionParts::over_longer))]
fn put_two(
    table: &mut TermTable,
    a: &Term,
    b: &Term,
    leaves: &LeafIds<'_>,
) -> Result<(TermId, TermId), OutOfMemory>
    requires leaves { LeavesWithin (length table.old) leaves.now }
    requires well_formed { IsTrue (well_formed a.now && well_formed b.now) }
    requires small { IsTrue (nat_le (node_count (replaced (leaves_of table.old leaves.now) a.now)) 4096 && nat_le (node_count (replaced (leaves_of table.old leaves.now) b.now)) 4096) }
    ensures first { IfOk result (λ p. tree_at table.new p.0 ≡ replaced (leaves_of table.old leaves.now) a.now) }
    ensures second { IfOk result (λ p. tree_at table.new p.1 ≡ replaced (leaves_of table.old leaves.now) b.now) }
    ensures within { IfOk result (λ p. (p.0 < length table.new) × (p.1 < length table.new)) }
    ensures kept { Extends table.old table.new }
{
    let first = table.put_replaced(a, leaves)?;
    let second = table.put_replaced(b, leaves)?;
    Ok((first, second))
}

/// The terms and the formula of a row with their leaves replaced, which are within the limit.
#[tactic(auto, using(crate::proofs::AssertionParts::over_longer))]
fn put_row(
    table: &mut TermTable,
    at: &Term,
    count: &Term,
    each: &Formula,
    leaves: &LeafIds<'_>,
) -> Result<(TermId, TermId, IdFormula), OutOfMemory>
    requires leaves { LeavesWithin (length table.old) leaves.now }
    requires well_formed { IsTrue (well_formed at.now && (well_formed count.now && well_formed_formula each.now)) }
    requires small { IsTrue (nat_le (node_count (replaced (leaves_of table.old leaves.now) at.now)) 4096 && (nat_le (node_count (replaced (leaves_of table.old leaves.now) count.now)) 4096 && nat_le (formula_nodes (replaced_formula (leaves_of table.old leaves.now) each.now)) 4096)) }
    ensures first { IfOk result (λ p. tree_at table.new p.0 ≡ replaced (leaves_of table.old leaves.now) at.now) }
    ensures second { IfOk result (λ p. tree_at table.new p.1 ≡ replaced (leaves_of table.old leaves.now) count.now) }
    ensures third { IfOk result (λ p. formula_of table.new p.2 ≡ replaced_formula (leaves_of table.old leaves.now) each.now) }
    ensures within { IfOk result (λ p. (p.0 < length table.new) × (p.1 < length table.new) × (formula_bound p.2 ≤ length table.new)) }
    ensures kept { Extends table.old table.new }
{
    let (at, count) = put_two(table, at, count, leaves)?;
    let each = table.put_replaced_formula(each, leaves)?;
    Ok((at, count, each))
}

/// A chunk with its leaves replaced, whose parts are within the limit.
fn put_parts(
    table: &mut TermTable,
    chunk: &Chunk,
    leaves: &LeafIds<'_>,
) -> Result<IdChunk, OutOfMemory>
    requires leaves { LeavesWithin (length table.old) leaves.now }
    requires well_formed { IsTrue (well_formed_chunk chunk.now) }
    requires small { IsTrue (small_parts (replaced_chunk (leaves_of table.old leaves.now) chunk.now)) }
    ensures chunk { IfOk result (λ c. chunk_of table.new c ≡ replaced_chunk (leaves_of table.old leaves.now) chunk.now) }
    ensures within { IfOk result (λ c. ChunkWithin (length table.new) c) }
    ensures width { IfOk result HasWidth }
    ensures kept { Extends table.old table.new }
{
    match chunk {
        Chunk::Cell { width, at, value } => {
            let (at, value) = put_two(table, at, value, leaves)?;
            Ok(IdChunk::Cell {
                width: *width,
                at,
                value,
            })
        }
        Chunk::Region { at, len } => {
            let (at, len) = put_two(table, at, len, leaves)?;
            Ok(IdChunk::Region { at, len })
        }
        Chunk::Row {
            width,
            at,
            count,
            each,
        } => {
            let (at, count, each) = put_row(table, at, count, each, leaves)?;
            Ok(IdChunk::Row {
                width: *width,
                at,
                count,
                each,
            })
        }
    }
}

/// A chunk with its leaves replaced, each part within the limit.
#[tactic(auto, using(crate::proofs::AssertionParts::chunks))]
fn put_chunk(table: &mut TermTable, chunk: &Chunk, leaves: &LeafIds<'_>) -> Result<IdChunk, Refused>
    requires leaves { LeavesWithin (length table.old) leaves.now }
    requires well_formed { IsTrue (well_formed_chunk chunk.now) }
    ensures put { Gives refusal_of (chunk_of table.new) result (small_chunk (replaced_chunk (leaves_of table.old leaves.now) chunk.now)) }
    ensures within { IfOk result (λ c. ChunkWithin (length table.new) c) }
    ensures width { IfOk result HasWidth }
    ensures kept { Extends table.old table.new }
{
    if !has_small_parts(table, chunk, leaves) {
        return Err(Refused::Limit(LimitWord::Nodes));
    }
    Ok(put_parts(table, chunk, leaves)?)
}

/// A formula of an assertion over a state, its leaves replaced, within the limit.
#[tactic(auto, using(crate::proofs::AssertionLeaves::over))]
fn formula_over(
    table: &mut TermTable,
    state: &SymState,
    f: &Formula,
    terms: &AssertionTerms<'_>,
) -> Result<IdFormula, Refused>
    requires state { StateWithin (length table.old) state.now }
    requires terms { TermsWithin (length table.old) terms.now }
    requires well_formed { IsTrue (well_formed_formula f.now) }
    ensures put { Gives refusal_of (formula_of table.new) result (small_formula (replaced_formula (leaves_in (record { terms = table.old; state = state_of table.old state.now }) terms.now) f.now)) }
    ensures within { IfOk result (λ g. formula_bound g ≤ length table.new) }
    ensures kept { Extends table.old table.new }
{
    let leaves = leaves_over(state, terms.own, terms.args, terms.result);
    put_formula(table, f, &leaves)
}

/// A chunk of an assertion over a state, its leaves replaced, each part within the limit.
#[tactic(auto, using(crate::proofs::AssertionLeaves::over))]
fn chunk_over(
    table: &mut TermTable,
    state: &SymState,
    chunk: &Chunk,
    terms: &AssertionTerms<'_>,
) -> Result<IdChunk, Refused>
    requires state { StateWithin (length table.old) state.now }
    requires terms { TermsWithin (length table.old) terms.now }
    requires well_formed { IsTrue (well_formed_chunk chunk.now) }
    ensures put { Gives refusal_of (chunk_of table.new) result (small_chunk (replaced_chunk (leaves_in (record { terms = table.old; state = state_of table.old state.now }) terms.now) chunk.now)) }
    ensures within { IfOk result (λ c. ChunkWithin (length table.new) c) }
    ensures width { IfOk result HasWidth }
    ensures kept { Extends table.old table.new }
{
    let leaves = leaves_over(state, terms.own, terms.args, terms.result);
    put_chunk(table, chunk, &leaves)
}

impl TrackedState {
    /// A formula of an assertion, its leaves replaced, within the limit.
    #[tactic(auto, using(crate::proofs::Growing::growing, crate::proofs::Grows::grown_over))]
    fn put_formula_of(
        &mut self,
        f: &Formula,
        terms: &AssertionTerms<'_>,
    ) -> Result<IdFormula, Refused>
        requires terms { TermsWithin (length self.old.terms) terms.now }
        requires well_formed { IsTrue (well_formed_formula f.now) }
        ensures put { Gives refusal_of (formula_of self.new.terms) result (small_formula (replaced_formula (leaves_in self.old terms.now) f.now)) }
        ensures within { IfOk result (λ g. formula_bound g ≤ length self.new.terms) }
        ensures state { IfOk result (λ _. self.new.state ≡ self.old.state) }
        ensures kept { IfOk result (λ _. Grown self.old self.new) }
    {
        formula_over(&mut self.table, &self.state, f, terms)
    }

    /// One more fact: a formula of an assertion, its leaves replaced.
    #[tactic(auto, using(crate::proofs::Leafing::instances))]
    pub fn add_formula_of(&mut self, f: &Formula, terms: &AssertionTerms<'_>) -> Result<(), Refused>
        requires terms { TermsWithin (length self.old.terms) terms.now }
        requires well_formed { IsTrue (well_formed_formula f.now) }
        ensures done { Gives refusal_of (λ _. self.new.state) result (fact_added (replaced_formula (leaves_in self.old terms.now) f.now) self.old.state) }
        ensures kept { IfOk result (λ _. Grown self.old self.new) }
    {
        let fact = self.put_formula_of(f, terms)?;
        self.add_fact(fact)
    }

    /// A chunk of an assertion, its leaves replaced, each part within the limit.
    #[tactic(auto, using(crate::proofs::Growing::growing, crate::proofs::Grows::grown_over))]
    fn put_chunk_of(
        &mut self,
        chunk: &Chunk,
        terms: &AssertionTerms<'_>,
    ) -> Result<IdChunk, Refused>
        requires terms { TermsWithin (length self.old.terms) terms.now }
        requires well_formed { IsTrue (well_formed_chunk chunk.now) }
        ensures put { Gives refusal_of (chunk_of self.new.terms) result (small_chunk (replaced_chunk (leaves_in self.old terms.now) chunk.now)) }
        ensures within { IfOk result (λ c. ChunkWithin (length self.new.terms) c) }
        ensures width { IfOk result HasWidth }
        ensures state { IfOk result (λ _. self.new.state ≡ self.old.state) }
        ensures kept { IfOk result (λ _. Grown self.old self.new) }
    {
        chunk_over(&mut self.table, &self.state, chunk, terms)
    }

    /// One more chunk: one of an assertion, its leaves replaced.
    #[tactic(auto, using(crate::proofs::AssertionParts::chunk_instances))]
    pub fn add_chunk_of(&mut self, chunk: &Chunk, terms: &AssertionTerms<'_>) -> Result<(), Refused>
        requires terms { TermsWithin (length self.old.terms) terms.now }
        requires well_formed { IsTrue (well_formed_chunk chunk.now) }
        ensures done { Gives refusal_of (λ _. self.new.state) result (chunk_added (replaced_chunk (leaves_in self.old terms.now) chunk.now) self.old.state) }
        ensures kept { IfOk result (λ _. Grown self.old self.new) }
    {
        let made = self.put_chunk_of(chunk, terms)?;
        self.add_chunk(made)
    }

    /// A chunk as it stands, each part within the limit.
    #[tactic(auto, using(crate::proofs::Growing::growing, crate::proofs::Grows::grown_over))]
    fn put_whole_chunk(&mut self, chunk: &Chunk) -> Result<IdChunk, Refused>
        requires { IsTrue (well_formed_chunk chunk.now) }
        ensures put { Gives refusal_of (chunk_of self.new.terms) result (small_chunk chunk.now) }
        ensures within { IfOk result (λ c. ChunkWithin (length self.new.terms) c) }
        ensures width { IfOk result HasWidth }
        ensures state { IfOk result (λ _. self.new.state ≡ self.old.state) }
        ensures kept { IfOk result (λ _. Grown self.old self.new) }
    {
        put_chunk(&mut self.table, chunk, &LeafIds::none())
    }

    /// One more chunk, as it stands.
    #[tactic(auto, using(crate::proofs::AssertionParts::chunk_instances))]
    pub fn add_whole_chunk(&mut self, chunk: &Chunk) -> Result<(), Refused>
        requires { IsTrue (well_formed_chunk chunk.now) }
        ensures done { Gives refusal_of (λ _. self.new.state) result (chunk_added chunk.now self.old.state) }
        ensures kept { IfOk result (λ _. Grown self.old self.new) }
    {
        let made = self.put_whole_chunk(chunk)?;
        self.add_chunk(made)
    }
}
