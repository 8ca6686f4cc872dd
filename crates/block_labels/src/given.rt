// The test of a label where its block begins.

ghost use Rattle.std.specs.Prelude.{◌≡◌, ◌&&◌};
ghost use Rattle.std.specs.List.{list_all};
ghost use Rattle.wasm_values.specs.Answers.{Gives};
ghost use Rattle.outline_rules.specs.Leaves.{has_leaves, formula_has_leaves, chunk_has_leaves, in_row};
ghost use Rattle.outline_rules.specs.Blocks.{label_has_leaves, label_given};
ghost use Rattle.symbolic_state.specs.Refused.{refusal_of};
ghost use Rattle.block_labels.specs.words.Scopes.{scope_leaves};

use crate::scopes::{LabelScope, RowScope};
use notes::{Assertion, Chunk, Reason};
use symbolic_state::{Refused, TrackedState};
use term_logic::{Formula, Term, formula_in_scope, in_scope};
use wasm_values::ValType;

/// Whether the leaves of a formula exist.
fn formula_there(f: &Formula, scope: &LabelScope<'_>) -> bool
    ensures { result ≡ formula_has_leaves (scope_leaves scope.now) f.now }
{
    formula_in_scope(f, scope)
}

/// Whether the leaves of two terms exist.
fn terms_there(a: &Term, b: &Term, scope: &LabelScope<'_>) -> bool
    ensures { result ≡ (has_leaves (scope_leaves scope.now) a.now && has_leaves (scope_leaves scope.now) b.now) }
{
    in_scope(a, scope) && in_scope(b, scope)
}

/// Whether the leaves of a row's formula exist.
fn row_there(f: &Formula, scope: &LabelScope<'_>) -> bool
    ensures { result ≡ formula_has_leaves (in_row (scope_leaves scope.now)) f.now }
{
    let row = RowScope { around: *scope };
    formula_in_scope(f, &row)
}

/// Whether the leaves of a chunk exist.
fn chunk_there(chunk: &Chunk, scope: &LabelScope<'_>) -> bool
    ensures { result ≡ chunk_has_leaves (scope_leaves scope.now) chunk.now }
{
    match chunk {
        Chunk::Cell { at, value, .. } => terms_there(at, value, scope),
        Chunk::Region { at, len } => terms_there(at, len, scope),
        Chunk::Row {
            at,
            count,
            each,
            ..
        } => in_scope(at, scope) && (in_scope(count, scope) && row_there(each, scope)),
    }
}

/// Whether the leaves of formulas exist.
fn formulas_there(formulas: &[Formula], scope: &LabelScope<'_>) -> bool
    ensures { result ≡ list_all (formula_has_leaves (scope_leaves scope.now)) formulas.now }
{
    formulas.iter().all(|f| formula_there(f, scope))
}

/// Whether the leaves of chunks exist.
fn chunks_there(chunks: &[Chunk], scope: &LabelScope<'_>) -> bool
    ensures { result ≡ list_all (chunk_has_leaves (scope_leaves scope.now)) chunks.now }
{
    chunks.iter().all(|chunk| chunk_there(chunk, scope))
}

/// Whether the leaves of an assertion exist.
fn all_there(assertion: &Assertion, scope: &LabelScope<'_>) -> bool
    ensures { result ≡ (list_all (formula_has_leaves (scope_leaves scope.now)) assertion.now.formulas && list_all (chunk_has_leaves (scope_leaves scope.now)) assertion.now.chunks) }
{
    formulas_there(assertion.formulas.as_slice(), scope)
        && chunks_there(assertion.chunks.as_slice(), scope)
}

/// Each leaf of a label's assertion has to exist in the state where its block begins. The label is told by the type that a
/// branch to it takes and by its assertion.
pub fn label_given(
    state: &TrackedState,
    takes: Option<ValType>,
    assertion: &Assertion,
) -> Result<(), Refused>
    ensures { Gives refusal_of (λ _. record { takes = takes; assertion = assertion.now }) result (label_given state.now.state (record { takes = takes; assertion = assertion.now })) }
{
    let scope = LabelScope {
        state,
        takes,
        assertion,
    };
    if all_there(assertion, &scope) {
        Ok(())
    } else {
        Err(Refused::Reason(Reason::Scope))
    }
}
