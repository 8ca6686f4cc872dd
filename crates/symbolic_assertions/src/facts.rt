// Facts that are the formulas of an assertion.

ghost use Rattle.std.specs.Prelude.{◌≡◌, ◌≤◌, length, map};
ghost use Rattle.term_trees.specs.Leaves.{replaced_formula};
ghost use Rattle.term_trees.specs.Same.{same_formula};
ghost use Rattle.term_logic.specs.Formulas.{formula_bound, formula_of};
ghost use Rattle.term_logic.specs.Leaves.{LeavesWithin, leaves_of};
ghost use Rattle.outline_rules.specs.HeapMoves.{is_fact};
ghost use Rattle.outline_rules.specs.Moves.{are_facts};

use symbolic_state::TrackedState;
use term_logic::{Formula, IdFormula, LeafIds, TermTable};

/// Whether a formula over a table is this one, once the leaves of this one are replaced.
pub(crate) fn is_formula(
    table: &TermTable,
    leaves: &LeafIds<'_>,
    f: &Formula,
    fact: &IdFormula,
) -> bool
    requires leaves { LeavesWithin (length table.now) leaves.now }
    requires fact { formula_bound fact.now ≤ length table.now }
    ensures { result ≡ same_formula (formula_of table.now fact.now) (replaced_formula (leaves_of table.now leaves.now) f.now) }
{
    table.is_replaced_formula(f, leaves, fact)
}

/// Whether the fact with a number is this formula, once its leaves are replaced.
fn is_fact(state: &TrackedState, leaves: &LeafIds<'_>, k: u32, f: &Formula) -> bool
    requires { LeavesWithin (length state.now.terms) leaves.now }
    ensures { result ≡ is_fact state.now.state k (replaced_formula (leaves_of state.now.terms leaves.now) f.now) }
{
    match state.fact(k) {
        Some(fact) => is_formula(state.table(), leaves, f, fact),
        None => false,
    }
}

/// Whether the facts with these numbers are these formulas, one by one, once the leaves of these are replaced.
pub(crate) fn are_facts(
    state: &TrackedState,
    leaves: &LeafIds<'_>,
    facts: &[u32],
    formulas: &[Formula],
) -> bool
    requires { LeavesWithin (length state.now.terms) leaves.now }
    ensures { result ≡ are_facts state.now.state facts.now (map (replaced_formula (leaves_of state.now.terms leaves.now)) formulas.now) }
{
    let mut rest = formulas;
    for k in facts {
        let Some((formula, more)) = rest.split_first() else {
            return false;
        };
        if !is_fact(state, leaves, *k, formula) {
            return false;
        }
        rest = more;
    }
    rest.is_empty()
}
