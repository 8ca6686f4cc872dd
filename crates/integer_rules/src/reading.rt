ghost use Rattle.std.specs.Prelude.{◌≡◌, ◌<◌, ◌≤◌, map, length};
ghost use Rattle.std.specs.List.{All};
ghost use Rattle.term_logic.specs.Formulas.{formula_bound, formula_of};
ghost use Rattle.term_logic.specs.Table.{tree_at};
ghost use Rattle.integer_rules.specs.Rows.{mask_row};
ghost use Rattle.integer_rules.specs.Fits.{fits_row, fits_range, fits_sgn, fits_shift, fits_some_mask, fits_mask};

use crate::claim::{Claim, Side, are_claims, is_both, is_claim, is_split};
use crate::numbers::{
    digits, greatest, greatest_signed, half, modulus, operator, power, shift_as, width_with,
};
use crate::read::{applied, equated, first_of, last_of, left_of, limit_of, right_of};
use term_logic::{IdFormula, TermId, TermTable};
use wasm_values::{IntOp, ValType};

/// Whether the conclusion bounds a term by its limits.
pub(crate) fn is_range(table: &TermTable, premises: &[&IdFormula], conclusion: &IdFormula) -> bool
    requires premises { All (λ f. formula_bound f.now ≤ length table.now) premises.now }
    requires conclusion { formula_bound conclusion.now ≤ length table.now }
    ensures { result ≡ fits_range (map (λ f. formula_of table.now f.now) premises.now) (formula_of table.now conclusion.now) }
{
    let Some(first) = first_of(table, conclusion) else {
        return false;
    };
    let Some((_, t)) = first.le_of(table) else {
        return false;
    };
    let Some(limit) = limit_of(table, t) else {
        return false;
    };
    let low = Claim::Le(Side::Number(0), Side::Id(t));
    let high = Claim::Le(Side::Id(t), Side::Number(limit));
    is_both(table, low, high, conclusion) && are_claims(table, &[], premises)
}

/// Whether the signed reading of a number is told by its half of the range.
pub(crate) fn is_sgn(table: &TermTable, premises: &[&IdFormula], conclusion: &IdFormula) -> bool
    requires premises { All (λ f. formula_bound f.now ≤ length table.now) premises.now }
    requires conclusion { formula_bound conclusion.now ≤ length table.now }
    ensures { result ≡ fits_sgn (map (λ f. formula_of table.now f.now) premises.now) (formula_of table.now conclusion.now) }
{
    let Some(last) = last_of(table, conclusion) else {
        return false;
    };
    let Some(reading) = left_of(table, last) else {
        return false;
    };
    let Some((count, a)) = table.sgn_of(reading) else {
        return false;
    };
    let Some(width) = width_with(count) else {
        return false;
    };
    let wanted = [
        Claim::Le(Side::Number(0), Side::Id(a)),
        Claim::Le(Side::Id(a), Side::Number(greatest(width))),
    ];
    let low = (
        Claim::Le(Side::Id(a), Side::Number(greatest_signed(width))),
        Claim::Eq(Side::Sgn(width.bits(), a), Side::Id(a)),
    );
    let high = (
        Claim::Le(Side::Number(half(width)), Side::Id(a)),
        Claim::Eq(
            Side::Sgn(width.bits(), a),
            Side::LessNumber(a, modulus(width)),
        ),
    );
    is_split(table, &low, &high, conclusion) && are_claims(table, &wanted, premises)
}

/// Whether a shift by a number is taken as a product or a quotient.
pub(crate) fn is_shift(table: &TermTable, premises: &[&IdFormula], conclusion: &IdFormula) -> bool
    requires premises { All (λ f. formula_bound f.now ≤ length table.now) premises.now }
    requires conclusion { formula_bound conclusion.now ≤ length table.now }
    ensures { result ≡ fits_shift (map (λ f. formula_of table.now f.now) premises.now) (formula_of table.now conclusion.now) }
{
    let Some((width, op, a, count)) = equated(table, conclusion) else {
        return false;
    };
    let Some(other) = shift_as(op) else {
        return false;
    };
    let Some(k) = table.num_of(count) else {
        return false;
    };
    if k < 0 || k > greatest(width) {
        return false;
    }
    let shifted = Side::TwoNumber(operator(width, op), a, k);
    let given = Side::TwoNumber(operator(width, other), a, power(digits(width, k)));
    is_claim(table, Claim::Eq(shifted, given), conclusion) && are_claims(table, &[], premises)
}

/// Whether a mask of k low digits is taken as a remainder by a power of 2.
fn is_masked(
    table: &TermTable,
    width: ValType,
    a: TermId,
    k: u32,
    premises: &[&IdFormula],
    conclusion: &IdFormula,
) -> bool
    requires within { a < length table.now }
    requires digits { k ≤ 64 }
    requires premises { All (λ f. formula_bound f.now ≤ length table.now) premises.now }
    requires conclusion { formula_bound conclusion.now ≤ length table.now }
    ensures { result ≡ fits_row (mask_row width (tree_at table.now a) k) (map (λ f. formula_of table.now f.now) premises.now) (formula_of table.now conclusion.now) }
{
    let masked = Side::TwoNumber(operator(width, IntOp::And), a, power(k) - 1);
    let given = Side::TwoNumber(operator(width, IntOp::RemU), a, power(k));
    is_claim(table, Claim::Eq(masked, given), conclusion) && are_claims(table, &[], premises)
}

/// Whether a mask of fewer low digits than the width has, and at least one, is taken as a remainder.
fn is_some_mask(
    table: &TermTable,
    width: ValType,
    a: TermId,
    premises: &[&IdFormula],
    conclusion: &IdFormula,
) -> bool
    requires within { a < length table.now }
    requires premises { All (λ f. formula_bound f.now ≤ length table.now) premises.now }
    requires conclusion { formula_bound conclusion.now ≤ length table.now }
    ensures { result ≡ fits_some_mask width (tree_at table.now a) (map (λ f. formula_of table.now f.now) premises.now) (formula_of table.now conclusion.now) }
{
    let count = width.bits();
    for k in 1..count {
        if is_masked(table, width, a, k, premises, conclusion) {
            return true;
        }
    }
    false
}

/// Whether a mask of low digits is taken as a remainder by a power of 2.
pub(crate) fn is_mask(table: &TermTable, premises: &[&IdFormula], conclusion: &IdFormula) -> bool
    requires premises { All (λ f. formula_bound f.now ≤ length table.now) premises.now }
    requires conclusion { formula_bound conclusion.now ≤ length table.now }
    ensures { result ≡ fits_mask (map (λ f. formula_of table.now f.now) premises.now) (formula_of table.now conclusion.now) }
{
    let Some(right) = right_of(table, conclusion) else {
        return false;
    };
    match applied(table, right) {
        Some((width, _, a, _)) => is_some_mask(table, width, a, premises, conclusion),
        None => false,
    }
}
