// The growth of the memory.

ghost use Rattle.std.specs.Prelude.{◌≡◌, ◌<◌, length, IfOk, IfSome, option_map};
ghost use Rattle.wasm_values.specs.Answers.{Gives};
ghost use Rattle.term_trees.specs.declared.term.Term.{Term};
ghost use Rattle.term_trees.specs.declared.term.Term.TheVariants as term;
ghost use Rattle.term_logic.specs.Table.{tree_at};
ghost use Rattle.outline_rules.specs.States.{number, fresh, fact_added};
ghost use Rattle.outline_rules.specs.Renewal.{chunk_added};
ghost use Rattle.outline_rules.specs.Memory.{growth, grown_region, memory_grow, memory_grown};
ghost use Rattle.symbolic_state.specs.Making.{made};
ghost use Rattle.symbolic_state.specs.Refused.{refusal_of};
ghost use Rattle.symbolic_state.specs.Growth.{Grown};
ghost use Rattle.symbolic_steps.specs.words.Parts.{pages_made, pages_between, region_made, growth_known, private_grown, growth_pushed};

use crate::forms::unused;
use crate::formulas::growth;
use heap_logic::IdChunk;
use notes::Use;
use std::alloc::Global;
use symbolic_state::{Refused, TrackedState};
use term_logic::TermId;
use wasm_values::ValType;

/// The growth of the private memory from so many pages: what is known of the outcome is one more fact.
#[tactic(auto, using(crate::proofs::Storing::growths, symbolic_state::proofs::Grows::grown_ids))]
fn know_growth(
    alloc: Global,
    state: &mut TrackedState,
    outcome: TermId,
    pages: (TermId, TermId),
    count: TermId,
) -> Result<(), Refused>
    requires outcome { outcome < length state.old.terms }
    requires before { pages.0 < length state.old.terms }
    requires after { pages.1 < length state.old.terms }
    requires count { count < length state.old.terms }
    ensures done { Gives refusal_of (λ _. state.new.state) result (fact_added (growth (tree_at state.old.terms outcome) (tree_at state.old.terms pages.0) (tree_at state.old.terms pages.1) (tree_at state.old.terms count)) state.old.state) }
    ensures kept { IfOk result (λ _. Grown state.old state.new) }
{
    let (sum, failure) = growth_terms(state, pages.0, count)?;
    let fact = growth(alloc, state.table(), outcome, pages, failure, sum)?;
    state.add_fact(fact)
}

/// The sum of a page count and another, and the number that says that memory didn't grow.
#[tactic(auto, using(symbolic_state::proofs::Grows::grown_ids))]
fn growth_terms(
    state: &mut TrackedState,
    before: TermId,
    count: TermId,
) -> Result<(TermId, TermId), Refused>
    requires before { before < length state.old.terms }
    requires count { count < length state.old.terms }
    ensures sum { Gives refusal_of (λ r. tree_at state.new.terms r.0) result (made (term.Add (tree_at state.old.terms before) (tree_at state.old.terms count))) }
    ensures failure { IfOk result (λ r. tree_at state.new.terms r.1 ≡ number 4294967295) }
    ensures within { IfOk result (λ r. (r.0 < length state.new.terms) × (r.1 < length state.new.terms)) }
    ensures state { IfOk result (λ _. state.new.state ≡ state.old.state) }
    ensures kept { IfOk result (λ _. Grown state.old state.new) }
{
    let sum = state.sum(before, count)?;
    let failure = state.number(4_294_967_295)?;
    Ok((sum, failure))
}

/// The bytes of so many pages.
#[tactic(auto, using(symbolic_state::proofs::Grows::grown_ids))]
fn bytes_of_pages(state: &mut TrackedState, pages: TermId) -> Result<TermId, Refused>
    requires { pages < length state.old.terms }
    ensures made { Gives refusal_of (tree_at state.new.terms) result (pages_made (tree_at state.old.terms pages)) }
    ensures within { IfOk result (λ id. id < length state.new.terms) }
    ensures state { IfOk result (λ _. state.new.state ≡ state.old.state) }
    ensures kept { IfOk result (λ _. Grown state.old state.new) }
{
    let page = state.number(65536)?;
    state.product(page, pages)
}

/// The bytes of the pages from one count to another.
#[tactic(auto, using(symbolic_state::proofs::Grows::grown_ids))]
fn bytes_between(state: &mut TrackedState, before: TermId, after: TermId) -> Result<TermId, Refused>
    requires before { before < length state.old.terms }
    requires after { after < length state.old.terms }
    ensures made { Gives refusal_of (tree_at state.new.terms) result (pages_between (tree_at state.old.terms before) (tree_at state.old.terms after)) }
    ensures within { IfOk result (λ id. id < length state.new.terms) }
    ensures state { IfOk result (λ _. state.new.state ≡ state.old.state) }
    ensures kept { IfOk result (λ _. Grown state.old state.new) }
{
    let more = state.difference(after, before)?;
    bytes_of_pages(state, more)
}

/// The address and the length of the new region.
#[tactic(auto, using(symbolic_state::proofs::Grows::grown_ids))]
fn region_terms(
    state: &mut TrackedState,
    before: TermId,
    after: TermId,
) -> Result<(TermId, TermId), Refused>
    requires before { before < length state.old.terms }
    requires after { after < length state.old.terms }
    ensures made { Gives refusal_of (λ r. (tree_at state.new.terms r.0, tree_at state.new.terms r.1)) result (region_made (tree_at state.old.terms before) (tree_at state.old.terms after)) }
    ensures within { IfOk result (λ r. (r.0 < length state.new.terms) × (r.1 < length state.new.terms)) }
    ensures state { IfOk result (λ _. state.new.state ≡ state.old.state) }
    ensures kept { IfOk result (λ _. Grown state.old state.new) }
{
    let at = bytes_of_pages(state, before)?;
    let len = bytes_between(state, before, after)?;
    Ok((at, len))
}

/// The new region is one more chunk.
#[tactic(auto, using(crate::proofs::Storing::regions))]
fn add_region(state: &mut TrackedState, before: TermId, after: TermId) -> Result<(), Refused>
    requires before { before < length state.old.terms }
    requires after { after < length state.old.terms }
    ensures done { Gives refusal_of (λ _. state.new.state) result (chunk_added (grown_region (tree_at state.old.terms before) (tree_at state.old.terms after)) state.old.state) }
    ensures kept { IfOk result (λ _. Grown state.old state.new) }
{
    let (at, len) = region_terms(state, before, after)?;
    state.add_chunk(IdChunk::Region { at, len })
}

/// What is known of a growth, and the new region.
#[tactic(auto, using(symbolic_state::proofs::Grows::grown_ids))]
fn add_growth(
    alloc: Global,
    state: &mut TrackedState,
    outcome: TermId,
    before: TermId,
    after: TermId,
    count: TermId,
) -> Result<(), Refused>
    requires outcome { outcome < length state.old.terms }
    requires before { before < length state.old.terms }
    requires after { after < length state.old.terms }
    requires count { count < length state.old.terms }
    ensures done { Gives refusal_of (λ _. state.new.state) result (growth_known (tree_at state.old.terms outcome) (tree_at state.old.terms before) (tree_at state.old.terms after) (tree_at state.old.terms count) state.old.state) }
    ensures kept { IfOk result (λ _. Grown state.old state.new) }
{
    know_growth(alloc, state, outcome, (before, after), count)?;
    add_region(state, before, after)
}

/// The private memory grows from so many pages.
#[tactic(auto, using(symbolic_state::proofs::Grows::grown_ids))]
fn grow_private(
    alloc: Global,
    state: &mut TrackedState,
    outcome: TermId,
    before: TermId,
    count: TermId,
) -> Result<(), Refused>
    requires outcome { outcome < length state.old.terms }
    requires before { before < length state.old.terms }
    requires count { count < length state.old.terms }
    ensures done { Gives refusal_of (λ _. state.new.state) result (private_grown (tree_at state.old.terms outcome) (tree_at state.old.terms count) (tree_at state.old.terms before) state.old.state) }
    ensures kept { IfOk result (λ _. Grown state.old state.new) }
{
    let after = state.add_pages(before)?;
    add_growth(alloc, state, outcome, before, after, count)
}

/// A memory grows, where it is private.
fn grow(
    alloc: Global,
    state: &mut TrackedState,
    outcome: TermId,
    count: TermId,
    pages: Option<TermId>,
) -> Result<(), Refused>
    requires outcome { outcome < length state.old.terms }
    requires count { count < length state.old.terms }
    requires pages { IfSome pages (λ id. id < length state.old.terms) }
    ensures done { Gives refusal_of (λ _. state.new.state) result (memory_grown (tree_at state.old.terms outcome) (tree_at state.old.terms count) (option_map (tree_at state.old.terms) pages) state.old.state) }
    ensures kept { IfOk result (λ _. Grown state.old state.new) }
{
    match pages {
        Some(before) => grow_private(alloc, state, outcome, before, count),
        None => Ok(()),
    }
}

/// The outcome of a growth is pushed, and the memory grows, where it is private.
#[tactic(auto, using(symbolic_state::proofs::Grows::grown_ids))]
fn push_growth(
    alloc: Global,
    state: &mut TrackedState,
    count: TermId,
    pages: Option<TermId>,
) -> Result<(), Refused>
    requires count { count < length state.old.terms }
    requires pages { IfSome pages (λ id. id < length state.old.terms) }
    ensures done { Gives refusal_of (λ _. state.new.state) result (growth_pushed (tree_at state.old.terms count) (option_map (tree_at state.old.terms) pages) state.old.state) }
    ensures kept { IfOk result (λ _. Grown state.old state.new) }
{
    let outcome = state.push_typed(ValType::I32)?;
    grow(alloc, state, outcome, count, pages)
}

/// `memory.grow`.
#[tactic(auto, using(symbolic_state::proofs::Grows::grown_ids))]
pub fn memory_grow(alloc: Global, state: &mut TrackedState, used: &Use) -> Result<(), Refused>
    ensures done { Gives refusal_of (λ _. state.new.state) result (memory_grow used.now state.old.state) }
    ensures kept { IfOk result (λ _. Grown state.old state.new) }
{
    unused(used)?;
    let (_, count) = state.entry(0)?;
    let pages = state.pages();
    state.pop(1);
    push_growth(alloc, state, count, pages)
}
