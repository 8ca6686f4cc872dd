ghost use Rattle.std.specs.Prelude.{◌≡◌, ◌≤◌, map, length};
ghost use Rattle.std.specs.List.{All};
ghost use Rattle.term_logic.specs.Formulas.{formula_bound, formula_of};
ghost use Rattle.integer_rules.specs.Fits.{fits};

use crate::arithmetic::{is_add, is_addwrap, is_divs, is_divu, is_mul, is_sub, is_subwrap};
use crate::comparison::{is_test, is_tests};
use crate::reading::{is_mask, is_range, is_sgn, is_shift};
use crate::rule::IntegerRule;
use crate::widening::is_widen;
use term_logic::{IdFormula, TermTable};

/// Whether the premises, in the order of the references, and the conclusion are those of the rule.
#[tactic(auto, unfolding(crate::specs::Fits::fits))]
pub fn fits(
    table: &TermTable,
    rule: IntegerRule,
    premises: &[&IdFormula],
    conclusion: &IdFormula,
) -> bool
    requires premises { All (λ f. formula_bound f.now ≤ length table.now) premises.now }
    requires conclusion { formula_bound conclusion.now ≤ length table.now }
    ensures { result ≡ fits rule (map (λ f. formula_of table.now f.now) premises.now) (formula_of table.now conclusion.now) }
{
    match rule {
        IntegerRule::Range => is_range(table, premises, conclusion),
        IntegerRule::Add => is_add(table, premises, conclusion),
        IntegerRule::Addwrap => is_addwrap(table, premises, conclusion),
        IntegerRule::Sub => is_sub(table, premises, conclusion),
        IntegerRule::Subwrap => is_subwrap(table, premises, conclusion),
        IntegerRule::Mul => is_mul(table, premises, conclusion),
        IntegerRule::Divu => is_divu(table, premises, conclusion),
        IntegerRule::Divs => is_divs(table, premises, conclusion),
        IntegerRule::Test => is_test(table, premises, conclusion),
        IntegerRule::Tests => is_tests(table, premises, conclusion),
        IntegerRule::Sgn => is_sgn(table, premises, conclusion),
        IntegerRule::Shift => is_shift(table, premises, conclusion),
        IntegerRule::Mask => is_mask(table, premises, conclusion),
        IntegerRule::Widen => is_widen(table, premises, conclusion),
    }
}
