// The arguments of a call.

ghost use Rattle.std.specs.Prelude.{◌≡◌, ℕ, ◌+◌, ◌<◌, length, map, IfOk, OnOk};
ghost use Rattle.std.specs.List.{All};
ghost use Rattle.term_logic.specs.Table.{tree_at};
ghost use Rattle.outline_rules.specs.Calls.{arguments};
ghost use Rattle.symbolic_calls.specs.words.Topmost.{Gathered};

use std::alloc::Global;
use symbolic_state::TrackedState;
use term_logic::TermId;
use wasm_syntax::FuncType;
use wasm_values::{List, OutOfMemory};

/// How many arguments a call takes. Where a `u32` doesn't count them, memory is taken to be wanting.
pub(crate) fn argument_count(ty: &FuncType) -> Result<u32, OutOfMemory>
    ensures { IfOk result (λ n. n ≡ length ty.now.params) }
{
    let count = ty.params.len();
    if count > u32::MAX as usize {
        return Err(OutOfMemory);
    }
    Ok(count as u32)
}

/// The term of the operand at a place, if there is one, goes to the end.
#[tactic(auto, using(crate::proofs::Gathering::gathering))]
fn push_operand(state: &TrackedState, terms: &mut List<TermId>, k: u32) -> Result<(), OutOfMemory>
    ensures { OnOk result ((n m : ℕ) → m ≡ k + 1 → Gathered state.now n m terms.old → Gathered state.now n k terms.new) }
{
    match state.operand(k) {
        Some(entry) => terms.push(entry.1),
        None => Ok(()),
    }
}

/// The terms of the topmost operands, of which the last is the top.
#[tactic(auto, using(crate::proofs::Gathering::gathering))]
fn topmost(alloc: Global, state: &TrackedState, count: u32) -> Result<List<TermId>, OutOfMemory>
    ensures { IfOk result (λ ids. Gathered state.now count 0 ids) }
{
    let mut terms = List::new(alloc);
    let mut left = count;
    'gathering: while left > 0 {
        left -= 1;
        push_operand(state, &mut terms, left)?;
    }
    Ok(terms)
}

/// The terms of the arguments of a call, the first first.
pub(crate) fn arguments(
    alloc: Global,
    state: &TrackedState,
    ty: &FuncType,
    count: u32,
) -> Result<List<TermId>, OutOfMemory>
    requires { count ≡ length ty.now.params }
    ensures terms { IfOk result (λ ids. map (tree_at state.now.terms) ids ≡ arguments ty.now state.now.state) }
    ensures within { IfOk result (λ ids. All (λ id. id < length state.now.terms) ids) }
{
    let _ = ty;
    topmost(alloc, state, count)
}
