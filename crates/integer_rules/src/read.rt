ghost use Rattle.std.specs.Prelude.{◌≡◌, ◌<◌, ◌≤◌, length, IfSome};
ghost use Rattle.std.specs.Option.{option_map};
ghost use Rattle.term_logic.specs.Table.{tree_at};
ghost use Rattle.term_logic.specs.Formulas.{formula_bound, formula_of};
ghost use Rattle.integer_rules.specs.Fits.{sized, applied, left_of, right_of, first_of, last_of, equated, test_in, remainder_in, limit_of};

use crate::numbers::{greatest, limit, power};
use term_logic::{IdFormula, TermCell, TermId, TermTable};
use wasm_values::{IntOp, NumOp, ValType};

/// The width and the name of an operator that there is at both widths.
pub(crate) fn sized(op: NumOp) -> Option<(ValType, IntOp)>
    ensures { result ≡ sized op }
{
    match op {
        NumOp::W32(op) => Some((ValType::I32, op)),
        NumOp::W64(op) => Some((ValType::I64, op)),
        _ => None,
    }
}

/// The width, the name and the operands of an operator with two.
pub(crate) fn applied(table: &TermTable, id: TermId) -> Option<(ValType, IntOp, TermId, TermId)>
    requires { id < length table.now }
    ensures parts { option_map (λ p. (p.0, p.1, tree_at table.now p.2, tree_at table.now p.3)) result ≡ applied (tree_at table.now id) }
    ensures within { IfSome result (λ p. (p.2 < length table.now) × (p.3 < length table.now)) }
{
    let (op, a, b) = table.two_of(id)?;
    let (width, op) = sized(op)?;
    Some((width, op, a, b))
}

/// The left side of an equation.
pub(crate) fn left_of(table: &TermTable, f: &IdFormula) -> Option<TermId>
    requires { formula_bound f.now ≤ length table.now }
    ensures side { option_map (tree_at table.now) result ≡ left_of (formula_of table.now f.now) }
    ensures within { IfSome result (λ a. a < length table.now) }
{
    let (a, _) = f.eq_of(table)?;
    Some(a)
}

/// The right side of an equation.
pub(crate) fn right_of(table: &TermTable, f: &IdFormula) -> Option<TermId>
    requires { formula_bound f.now ≤ length table.now }
    ensures side { option_map (tree_at table.now) result ≡ right_of (formula_of table.now f.now) }
    ensures within { IfSome result (λ a. a < length table.now) }
{
    let (_, b) = f.eq_of(table)?;
    Some(b)
}

/// The operator on the left of an equation.
pub(crate) fn equated(table: &TermTable, f: &IdFormula) -> Option<(ValType, IntOp, TermId, TermId)>
    requires { formula_bound f.now ≤ length table.now }
    ensures parts { option_map (λ p. (p.0, p.1, tree_at table.now p.2, tree_at table.now p.3)) result ≡ equated (formula_of table.now f.now) }
    ensures within { IfSome result (λ p. (p.2 < length table.now) × (p.3 < length table.now)) }
{
    let left = left_of(table, f)?;
    applied(table, left)
}

/// The first part of a conjunction.
pub(crate) fn first_of<'a>(table: &TermTable, f: &'a IdFormula) -> Option<&'a IdFormula>
    requires { formula_bound f.now ≤ length table.now }
    ensures part { option_map (λ g. formula_of table.now g.now) result ≡ first_of (formula_of table.now f.now) }
    ensures within { IfSome result (λ g. formula_bound g.now ≤ length table.now) }
{
    let (g, _) = f.and_of(table)?;
    Some(g)
}

/// The second part of the second part of a disjunction of conjunctions.
pub(crate) fn last_of<'a>(table: &TermTable, f: &'a IdFormula) -> Option<&'a IdFormula>
    requires { formula_bound f.now ≤ length table.now }
    ensures part { option_map (λ g. formula_of table.now g.now) result ≡ last_of (formula_of table.now f.now) }
    ensures within { IfSome result (λ g. formula_bound g.now ≤ length table.now) }
{
    let (_, second) = f.or_of(table)?;
    let (_, last) = second.and_of(table)?;
    Some(last)
}

/// The test that a choice speaks of first.
pub(crate) fn test_in(table: &TermTable, f: &IdFormula) -> Option<TermId>
    requires { formula_bound f.now ≤ length table.now }
    ensures test { option_map (tree_at table.now) result ≡ test_in (formula_of table.now f.now) }
    ensures within { IfSome result (λ t. t < length table.now) }
{
    let (first, _) = f.or_of(table)?;
    let (equation, _) = first.and_of(table)?;
    left_of(table, equation)
}

/// The remainder that the last part of a division speaks of.
pub(crate) fn remainder_in(table: &TermTable, f: &IdFormula) -> Option<TermId>
    requires { formula_bound f.now ≤ length table.now }
    ensures term { option_map (tree_at table.now) result ≡ remainder_in (formula_of table.now f.now) }
    ensures within { IfSome result (λ t. t < length table.now) }
{
    let (_, bounds) = f.and_of(table)?;
    let (_, below) = bounds.and_of(table)?;
    let (remainder, _) = below.lt_of(table)?;
    Some(remainder)
}

/// The greatest value that an operator, a `low` or a `sext` term may have.
pub(crate) fn limit_of(table: &TermTable, id: TermId) -> Option<i128>
    requires { id < length table.now }
    ensures { result ≡ limit_of (tree_at table.now id) }
{
    match table.cell(id) {
        TermCell::One(op, _) | TermCell::Two(op, _, _) => Some(limit(*op)),
        TermCell::Low(k, _) => Some(power(*k) - 1),
        TermCell::Sext(_, n, _) => Some(power(*n) - 1),
        _ => None,
    }
}
