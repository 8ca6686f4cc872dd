ghost use Rattle.std.specs.Prelude.{◌≡◌, ◌<◌, ◌≤◌, map, length};
ghost use Rattle.std.specs.List.{All};
ghost use Rattle.term_logic.specs.Formulas.{formula_bound, formula_of};
ghost use Rattle.term_logic.specs.Table.{tree_at};
ghost use Rattle.term_trees.specs.Same.{same_formula};
ghost use Rattle.integer_rules.specs.Rows.{divs_row};
ghost use Rattle.integer_rules.specs.Fits.{fits_add, fits_addwrap, fits_sub, fits_subwrap, fits_mul, fits_divu, fits_divs};

use crate::claim::{Claim, Side, are_claims, is_both, is_claim, is_division};
use crate::numbers::{greatest, greatest_signed, modulus, operator};
use crate::read::{applied, equated, first_of, remainder_in};
use term_logic::{IdFormula, TermId, TermTable};
use wasm_values::{IntOp, ValType};

/// Whether a sum that doesn't pass the greatest number is taken as it is.
pub(crate) fn is_add(table: &TermTable, premises: &[&IdFormula], conclusion: &IdFormula) -> bool
    requires premises { All (λ f. formula_bound f.now ≤ length table.now) premises.now }
    requires conclusion { formula_bound conclusion.now ≤ length table.now }
    ensures { result ≡ fits_add (map (λ f. formula_of table.now f.now) premises.now) (formula_of table.now conclusion.now) }
{
    let Some((width, _, a, b)) = equated(table, conclusion) else {
        return false;
    };
    let given = Side::Two(operator(width, IntOp::Add), a, b);
    let wanted = [
        Claim::Le(Side::Number(0), Side::Id(a)),
        Claim::Le(Side::Number(0), Side::Id(b)),
        Claim::Le(Side::Sum(a, b), Side::Number(greatest(width))),
    ];
    is_claim(table, Claim::Eq(given, Side::Sum(a, b)), conclusion)
        && are_claims(table, &wanted, premises)
}

/// Whether a sum that passes the greatest number is taken less by 2 to the number of bits.
pub(crate) fn is_addwrap(table: &TermTable, premises: &[&IdFormula], conclusion: &IdFormula) -> bool
    requires premises { All (λ f. formula_bound f.now ≤ length table.now) premises.now }
    requires conclusion { formula_bound conclusion.now ≤ length table.now }
    ensures { result ≡ fits_addwrap (map (λ f. formula_of table.now f.now) premises.now) (formula_of table.now conclusion.now) }
{
    let Some((width, _, a, b)) = equated(table, conclusion) else {
        return false;
    };
    let given = Side::Two(operator(width, IntOp::Add), a, b);
    let wanted = [
        Claim::Le(Side::Id(a), Side::Number(greatest(width))),
        Claim::Le(Side::Id(b), Side::Number(greatest(width))),
        Claim::Le(Side::Number(modulus(width)), Side::Sum(a, b)),
    ];
    is_claim(
        table,
        Claim::Eq(given, Side::SumLess(a, b, modulus(width))),
        conclusion,
    ) && are_claims(table, &wanted, premises)
}

/// Whether a difference that isn't negative is taken as it is.
pub(crate) fn is_sub(table: &TermTable, premises: &[&IdFormula], conclusion: &IdFormula) -> bool
    requires premises { All (λ f. formula_bound f.now ≤ length table.now) premises.now }
    requires conclusion { formula_bound conclusion.now ≤ length table.now }
    ensures { result ≡ fits_sub (map (λ f. formula_of table.now f.now) premises.now) (formula_of table.now conclusion.now) }
{
    let Some((width, _, a, b)) = equated(table, conclusion) else {
        return false;
    };
    let given = Side::Two(operator(width, IntOp::Sub), a, b);
    let wanted = [
        Claim::Le(Side::Number(0), Side::Id(b)),
        Claim::Le(Side::Id(b), Side::Id(a)),
        Claim::Le(Side::Id(a), Side::Number(greatest(width))),
    ];
    is_claim(table, Claim::Eq(given, Side::Difference(a, b)), conclusion)
        && are_claims(table, &wanted, premises)
}

/// Whether a negative difference is taken greater by 2 to the number of bits.
pub(crate) fn is_subwrap(table: &TermTable, premises: &[&IdFormula], conclusion: &IdFormula) -> bool
    requires premises { All (λ f. formula_bound f.now ≤ length table.now) premises.now }
    requires conclusion { formula_bound conclusion.now ≤ length table.now }
    ensures { result ≡ fits_subwrap (map (λ f. formula_of table.now f.now) premises.now) (formula_of table.now conclusion.now) }
{
    let Some((width, _, a, b)) = equated(table, conclusion) else {
        return false;
    };
    let given = Side::Two(operator(width, IntOp::Sub), a, b);
    let wanted = [
        Claim::Le(Side::Number(0), Side::Id(a)),
        Claim::Lt(Side::Id(a), Side::Id(b)),
        Claim::Le(Side::Id(b), Side::Number(greatest(width))),
    ];
    is_claim(
        table,
        Claim::Eq(given, Side::DifferencePlus(a, b, modulus(width))),
        conclusion,
    ) && are_claims(table, &wanted, premises)
}

/// Whether a product that doesn't pass the greatest number is taken as it is.
pub(crate) fn is_mul(table: &TermTable, premises: &[&IdFormula], conclusion: &IdFormula) -> bool
    requires premises { All (λ f. formula_bound f.now ≤ length table.now) premises.now }
    requires conclusion { formula_bound conclusion.now ≤ length table.now }
    ensures { result ≡ fits_mul (map (λ f. formula_of table.now f.now) premises.now) (formula_of table.now conclusion.now) }
{
    let Some((width, _, a, b)) = equated(table, conclusion) else {
        return false;
    };
    let given = Side::Two(operator(width, IntOp::Mul), a, b);
    let wanted = [
        Claim::Le(Side::Number(0), Side::Id(a)),
        Claim::Le(Side::Number(0), Side::Id(b)),
        Claim::Le(Side::Product(a, b), Side::Number(greatest(width))),
    ];
    is_claim(table, Claim::Eq(given, Side::Product(a, b)), conclusion)
        && are_claims(table, &wanted, premises)
}

/// Whether the conclusion is that of a division by a divisor that isn't 0.
pub(crate) fn is_divu(table: &TermTable, premises: &[&IdFormula], conclusion: &IdFormula) -> bool
    requires premises { All (λ f. formula_bound f.now ≤ length table.now) premises.now }
    requires conclusion { formula_bound conclusion.now ≤ length table.now }
    ensures { result ≡ fits_divu (map (λ f. formula_of table.now f.now) premises.now) (formula_of table.now conclusion.now) }
{
    let Some(remainder) = remainder_in(table, conclusion) else {
        return false;
    };
    let Some((width, _, a, b)) = applied(table, remainder) else {
        return false;
    };
    let divides = Claim::Le(Side::Number(1), Side::Id(b));
    let wanted = [
        Claim::Le(Side::Number(0), Side::Id(a)),
        Claim::Le(Side::Id(a), Side::Number(greatest(width))),
        divides,
        Claim::Le(Side::Id(b), Side::Number(greatest(width))),
    ];
    is_division(table, width, a, b, conclusion) && are_claims(table, &wanted, premises)
}

/// Whether the formula says that signed and unsigned division of a by b agree.
fn is_agreement(table: &TermTable, width: ValType, a: TermId, b: TermId, f: &IdFormula) -> bool
    requires first { a < length table.now }
    requires second { b < length table.now }
    requires within { formula_bound f.now ≤ length table.now }
    ensures { result ≡ same_formula (divs_row width (tree_at table.now a) (tree_at table.now b)).conclusion (formula_of table.now f.now) }
{
    let quotients = Claim::Eq(
        Side::Two(operator(width, IntOp::DivS), a, b),
        Side::Two(operator(width, IntOp::DivU), a, b),
    );
    let remainders = Claim::Eq(
        Side::Two(operator(width, IntOp::RemS), a, b),
        Side::Two(operator(width, IntOp::RemU), a, b),
    );
    is_both(table, quotients, remainders, f)
}

/// Whether signed and unsigned division of numbers that read the same are taken as equal.
pub(crate) fn is_divs(table: &TermTable, premises: &[&IdFormula], conclusion: &IdFormula) -> bool
    requires premises { All (λ f. formula_bound f.now ≤ length table.now) premises.now }
    requires conclusion { formula_bound conclusion.now ≤ length table.now }
    ensures { result ≡ fits_divs (map (λ f. formula_of table.now f.now) premises.now) (formula_of table.now conclusion.now) }
{
    let Some(first) = first_of(table, conclusion) else {
        return false;
    };
    let Some((width, _, a, b)) = equated(table, first) else {
        return false;
    };
    let wanted = [
        Claim::Le(Side::Number(0), Side::Id(a)),
        Claim::Le(Side::Id(a), Side::Number(greatest_signed(width))),
        Claim::Le(Side::Number(1), Side::Id(b)),
        Claim::Le(Side::Id(b), Side::Number(greatest_signed(width))),
    ];
    is_agreement(table, width, a, b, conclusion) && are_claims(table, &wanted, premises)
}
