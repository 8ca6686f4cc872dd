ghost use Rattle.std.specs.Prelude.{◌≡◌, ◌<◌, ◌≤◌, map, length, IfSome};
ghost use Rattle.std.specs.List.{All};
ghost use Rattle.std.specs.Option.{option_map};
ghost use Rattle.term_logic.specs.Table.{tree_at};
ghost use Rattle.term_logic.specs.Formulas.{formula_bound, formula_of};
ghost use Rattle.integer_rules.specs.Rows.{unsigned_claim, signed_claim};
ghost use Rattle.integer_rules.specs.words.Claims.{side_tree, claim_formula, SideWithin, ClaimWithin};
ghost use Rattle.integer_rules.specs.Fits.{fits_zero, fits_compared, fits_test, fits_tests};

use crate::claim::{Claim, Side, are_claims, is_choice};
use crate::numbers::{greatest, operator};
use crate::read::{applied, sized, test_in};
use term_logic::{IdFormula, TermId, TermTable};
use wasm_values::IntOp;

/// What a comparison that knows no sign says of its operands.
fn unsigned_claim(table: &TermTable, op: IntOp, a: Side, b: Side) -> Option<Claim>
    requires first { SideWithin (length table.now) a }
    requires second { SideWithin (length table.now) b }
    ensures claim { option_map (claim_formula table.now) result ≡ unsigned_claim op (side_tree table.now a) (side_tree table.now b) }
    ensures within { IfSome result (λ c. ClaimWithin (length table.now) c) }
{
    let _ = table;
    match op {
        IntOp::Eq => Some(Claim::Eq(a, b)),
        IntOp::Ne => Some(Claim::Ne(a, b)),
        IntOp::LtU => Some(Claim::Lt(a, b)),
        IntOp::GtU => Some(Claim::Lt(b, a)),
        IntOp::LeU => Some(Claim::Le(a, b)),
        IntOp::GeU => Some(Claim::Le(b, a)),
        _ => None,
    }
}

/// What a comparison of signed readings says of these.
fn signed_claim(table: &TermTable, op: IntOp, a: Side, b: Side) -> Option<Claim>
    requires first { SideWithin (length table.now) a }
    requires second { SideWithin (length table.now) b }
    ensures claim { option_map (claim_formula table.now) result ≡ signed_claim op (side_tree table.now a) (side_tree table.now b) }
    ensures within { IfSome result (λ c. ClaimWithin (length table.now) c) }
{
    let _ = table;
    match op {
        IntOp::LtS => Some(Claim::Lt(a, b)),
        IntOp::GtS => Some(Claim::Lt(b, a)),
        IntOp::LeS => Some(Claim::Le(a, b)),
        IntOp::GeS => Some(Claim::Le(b, a)),
        _ => None,
    }
}

/// Whether the test for zero is taken as what it says.
fn is_zero(table: &TermTable, test: TermId, premises: &[&IdFormula], conclusion: &IdFormula) -> bool
    requires test { test < length table.now }
    requires premises { All (λ f. formula_bound f.now ≤ length table.now) premises.now }
    requires conclusion { formula_bound conclusion.now ≤ length table.now }
    ensures { result ≡ fits_zero (tree_at table.now test) (map (λ f. formula_of table.now f.now) premises.now) (formula_of table.now conclusion.now) }
{
    let Some((op, a)) = table.one_of(test) else {
        return false;
    };
    let Some((width, _)) = sized(op) else {
        return false;
    };
    let given = Side::One(operator(width, IntOp::Eqz), a);
    let claim = Claim::Eq(Side::Id(a), Side::Number(0));
    let wanted = [
        Claim::Le(Side::Number(0), Side::Id(a)),
        Claim::Le(Side::Id(a), Side::Number(greatest(width))),
    ];
    is_choice(table, &given, &claim, conclusion) && are_claims(table, &wanted, premises)
}

/// Whether a comparison that knows no sign is taken as what it says.
fn is_compared(
    table: &TermTable,
    test: TermId,
    premises: &[&IdFormula],
    conclusion: &IdFormula,
) -> bool
    requires test { test < length table.now }
    requires premises { All (λ f. formula_bound f.now ≤ length table.now) premises.now }
    requires conclusion { formula_bound conclusion.now ≤ length table.now }
    ensures { result ≡ fits_compared (tree_at table.now test) (map (λ f. formula_of table.now f.now) premises.now) (formula_of table.now conclusion.now) }
{
    let Some((width, op, a, b)) = applied(table, test) else {
        return false;
    };
    let Some(claim) = unsigned_claim(table, op, Side::Id(a), Side::Id(b)) else {
        return false;
    };
    let given = Side::Two(operator(width, op), a, b);
    let wanted = [
        Claim::Le(Side::Number(0), Side::Id(a)),
        Claim::Le(Side::Id(a), Side::Number(greatest(width))),
        Claim::Le(Side::Number(0), Side::Id(b)),
        Claim::Le(Side::Id(b), Side::Number(greatest(width))),
    ];
    is_choice(table, &given, &claim, conclusion) && are_claims(table, &wanted, premises)
}

/// Whether a test of numbers of the width is taken as what it says.
pub(crate) fn is_test(table: &TermTable, premises: &[&IdFormula], conclusion: &IdFormula) -> bool
    requires premises { All (λ f. formula_bound f.now ≤ length table.now) premises.now }
    requires conclusion { formula_bound conclusion.now ≤ length table.now }
    ensures { result ≡ fits_test (map (λ f. formula_of table.now f.now) premises.now) (formula_of table.now conclusion.now) }
{
    match test_in(table, conclusion) {
        Some(test) => is_zero(table, test, premises, conclusion)
            || is_compared(table, test, premises, conclusion),
        None => false,
    }
}

/// Whether a comparison of signed readings is taken as what it says of these.
pub(crate) fn is_tests(table: &TermTable, premises: &[&IdFormula], conclusion: &IdFormula) -> bool
    requires premises { All (λ f. formula_bound f.now ≤ length table.now) premises.now }
    requires conclusion { formula_bound conclusion.now ≤ length table.now }
    ensures { result ≡ fits_tests (map (λ f. formula_of table.now f.now) premises.now) (formula_of table.now conclusion.now) }
{
    let Some(test) = test_in(table, conclusion) else {
        return false;
    };
    let Some((width, op, a, b)) = applied(table, test) else {
        return false;
    };
    let first = Side::Sgn(width.bits(), a);
    let second = Side::Sgn(width.bits(), b);
    let Some(claim) = signed_claim(table, op, first, second) else {
        return false;
    };
    let given = Side::Two(operator(width, op), a, b);
    is_choice(table, &given, &claim, conclusion) && are_claims(table, &[], premises)
}
