// Facts that moves want.

ghost use Rattle.std.specs.Prelude.{◌≡◌, ◌<◌, ◌≤◌, length};
ghost use Rattle.wasm_values.specs.Answers.{Gives};
ghost use Rattle.term_trees.specs.declared.term.Formula.TheVariants as formula;
ghost use Rattle.term_logic.specs.Table.{tree_at};
ghost use Rattle.term_logic.specs.Formulas.{formula_bound, formula_of};
ghost use Rattle.outline_rules.specs.HeapMoves.{is_fact, fact_wanted};
ghost use Rattle.symbolic_state.specs.Refused.{refusal_of};

use notes::Reason;
use symbolic_state::{Refused, TrackedState, equal};
use term_logic::{IdFormula, TermId};

/// Whether the fact with a number is this formula.
pub(crate) fn is_fact(state: &TrackedState, k: u32, f: &IdFormula) -> bool
    requires { formula_bound f.now ≤ length state.now.terms }
    ensures { result ≡ is_fact state.now.state k (formula_of state.now.terms f.now) }
{
    match state.fact(k) {
        Some(fact) => state.table().same_formula(fact, f),
        None => false,
    }
}

/// The fact with a number has to be that two terms are equal.
pub(crate) fn equal_wanted(
    state: &TrackedState,
    k: u32,
    a: TermId,
    b: TermId,
) -> Result<(), Refused>
    requires first { a < length state.now.terms }
    requires second { b < length state.now.terms }
    ensures { Gives refusal_of (λ _. tt) result (fact_wanted state.now.state k (formula.Eq (tree_at state.now.terms a) (tree_at state.now.terms b))) }
{
    if is_fact(state, k, &equal(a, b)) {
        Ok(())
    } else {
        Err(Refused::Reason(Reason::Fact))
    }
}
