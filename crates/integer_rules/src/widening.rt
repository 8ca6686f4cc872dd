ghost use Rattle.std.specs.Prelude.{◌≡◌, ◌≤◌, map, length};
ghost use Rattle.std.specs.List.{All};
ghost use Rattle.term_logic.specs.Formulas.{formula_bound, formula_of};
ghost use Rattle.std.specs.Prelude.{◌<◌, IfSome};
ghost use Rattle.std.specs.Option.{option_map};
ghost use Rattle.term_logic.specs.Table.{tree_at};
ghost use Rattle.term_trees.specs.Terms.{is_low_width, is_sext_pair};
ghost use Rattle.integer_rules.specs.Rows.{changed};
ghost use Rattle.integer_rules.specs.words.Claims.{side_tree, SideWithin};
ghost use Rattle.integer_rules.specs.Fits.{fits_changed, fits_low, fits_sext, fits_widen};

use crate::claim::{Claim, Side, are_claims, is_claim, is_split};
use crate::numbers::power;
use crate::read::{last_of, left_of};
use term_logic::{IdFormula, TermId, TermTable};
use wasm_values::NumOp;

/// What a change of width gives.
fn changed(table: &TermTable, op: NumOp, a: TermId) -> Option<Side>
    requires { a < length table.now }
    ensures side { option_map (side_tree table.now) result ≡ changed op (tree_at table.now a) }
    ensures within { IfSome result (λ s. SideWithin (length table.now) s) }
{
    let _ = table;
    match op {
        NumOp::Wrap | NumOp::ExtendU => Some(Side::Low(32, a)),
        NumOp::ExtendS => Some(Side::Sext(32, 64, a)),
        _ => None,
    }
}

/// Whether a `low` term may keep so many bits.
fn is_low_width(k: u32) -> bool
    ensures { result ≡ is_low_width k }
{
    k == 8 || k == 16 || k == 32
}

/// Whether a `sext` term may have these widths.
fn is_sext_pair(k: u32, n: u32) -> bool
    ensures { result ≡ is_sext_pair k n }
{
    (n == 32 && (k == 8 || k == 16)) || (n == 64 && is_low_width(k))
}

/// Whether a change between the widths is taken as what it gives.
fn is_changed(table: &TermTable, premises: &[&IdFormula], conclusion: &IdFormula) -> bool
    requires premises { All (λ f. formula_bound f.now ≤ length table.now) premises.now }
    requires conclusion { formula_bound conclusion.now ≤ length table.now }
    ensures { result ≡ fits_changed (map (λ f. formula_of table.now f.now) premises.now) (formula_of table.now conclusion.now) }
{
    let Some(left) = left_of(table, conclusion) else {
        return false;
    };
    let Some((op, a)) = table.one_of(left) else {
        return false;
    };
    let Some(given) = changed(table, op, a) else {
        return false;
    };
    is_claim(table, Claim::Eq(Side::One(op, a), given), conclusion)
        && are_claims(table, &[], premises)
}

/// Whether the low digits of a number of so many bits are taken as the number.
fn is_low(table: &TermTable, premises: &[&IdFormula], conclusion: &IdFormula) -> bool
    requires premises { All (λ f. formula_bound f.now ≤ length table.now) premises.now }
    requires conclusion { formula_bound conclusion.now ≤ length table.now }
    ensures { result ≡ fits_low (map (λ f. formula_of table.now f.now) premises.now) (formula_of table.now conclusion.now) }
{
    let Some(left) = left_of(table, conclusion) else {
        return false;
    };
    let Some((k, a)) = table.low_of(left) else {
        return false;
    };
    if !is_low_width(k) {
        return false;
    }
    let wanted = [
        Claim::Le(Side::Number(0), Side::Id(a)),
        Claim::Le(Side::Id(a), Side::Number(power(k) - 1)),
    ];
    is_claim(table, Claim::Eq(Side::Low(k, a), Side::Id(a)), conclusion)
        && are_claims(table, &wanted, premises)
}

/// Whether the sign extension of a number is told by its half of the range.
fn is_sext(table: &TermTable, premises: &[&IdFormula], conclusion: &IdFormula) -> bool
    requires premises { All (λ f. formula_bound f.now ≤ length table.now) premises.now }
    requires conclusion { formula_bound conclusion.now ≤ length table.now }
    ensures { result ≡ fits_sext (map (λ f. formula_of table.now f.now) premises.now) (formula_of table.now conclusion.now) }
{
    let Some(last) = last_of(table, conclusion) else {
        return false;
    };
    let Some(extended) = left_of(table, last) else {
        return false;
    };
    let Some((k, n, a)) = table.sext_of(extended) else {
        return false;
    };
    if !is_sext_pair(k, n) {
        return false;
    }
    let wanted = [
        Claim::Le(Side::Number(0), Side::Id(a)),
        Claim::Le(Side::Id(a), Side::Number(power(k) - 1)),
    ];
    let low = (
        Claim::Le(Side::Id(a), Side::Number(power(k - 1) - 1)),
        Claim::Eq(Side::Sext(k, n, a), Side::Id(a)),
    );
    let high = (
        Claim::Le(Side::Number(power(k - 1)), Side::Id(a)),
        Claim::Eq(
            Side::Sext(k, n, a),
            Side::PlusNumber(a, power(n) - power(k)),
        ),
    );
    is_split(table, &low, &high, conclusion) && are_claims(table, &wanted, premises)
}

/// Whether the conclusion is one of the five that change the width of a number.
pub(crate) fn is_widen(table: &TermTable, premises: &[&IdFormula], conclusion: &IdFormula) -> bool
    requires premises { All (λ f. formula_bound f.now ≤ length table.now) premises.now }
    requires conclusion { formula_bound conclusion.now ≤ length table.now }
    ensures { result ≡ fits_widen (map (λ f. formula_of table.now f.now) premises.now) (formula_of table.now conclusion.now) }
{
    is_changed(table, premises, conclusion)
        || is_low(table, premises, conclusion)
        || is_sext(table, premises, conclusion)
}
