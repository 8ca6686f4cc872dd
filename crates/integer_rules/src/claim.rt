ghost use Rattle.std.specs.Prelude.{◌≡◌, ◌<◌, ◌≤◌, pos, map, length};
ghost use Rattle.std.specs.List.{All};
ghost use Rattle.term_trees.specs.declared.term.Term.TheVariants as term;
ghost use Rattle.term_trees.specs.declared.term.Formula.TheVariants as formula;
ghost use Rattle.term_logic.specs.Table.{tree_at};
ghost use Rattle.term_logic.specs.Formulas.{formula_bound, formula_of};
ghost use Rattle.term_trees.specs.Same.{same, same_formula};
ghost use Rattle.integer_rules.specs.words.Claims.{side_tree, claim_formula, SideWithin, ClaimWithin};
ghost use Rattle.wasm_values.specs.declared.number.IntOp.TheVariants.{DivU};
ghost use Rattle.integer_rules.specs.Rows.{operator, choice, remainder_bounds, divu_row};
ghost use Rattle.integer_rules.specs.Fits.{same_formulas};

use crate::numbers::operator;
use term_logic::{IdFormula, TermId, TermTable};
use wasm_values::{IntOp, NumOp, ValType};

/// A side of an equation or of an inequality, over terms of a table.
#[derive(Clone, Copy)]
pub(crate) enum Side {
    Id(TermId),
    Number(i128),
    Sum(TermId, TermId),
    Difference(TermId, TermId),
    Product(TermId, TermId),
    LessNumber(TermId, i128),
    PlusNumber(TermId, i128),
    SumLess(TermId, TermId, i128),
    DifferencePlus(TermId, TermId, i128),
    /// The divisor times the quotient, and the remainder.
    Division(ValType, TermId, TermId),
    One(NumOp, TermId),
    Two(NumOp, TermId, TermId),
    TwoNumber(NumOp, TermId, i128),
    Low(u32, TermId),
    Sext(u32, u32, TermId),
    Sgn(u32, TermId),
}

/// A claim on two sides.
#[derive(Clone, Copy)]
pub(crate) enum Claim {
    Eq(Side, Side),
    Ne(Side, Side),
    Le(Side, Side),
    Lt(Side, Side),
}

/// Whether the term is the number.
#[tactic(auto, using(crate::proofs::Shapes::term_shapes))]
fn is_number(table: &TermTable, k: i128, id: TermId) -> bool
    requires { id < length table.now }
    ensures { result ≡ same (term.Num k) (tree_at table.now id) }
{
    match table.num_of(id) {
        Some(other) => k == other,
        None => false,
    }
}

/// Whether the term is the sum.
#[tactic(auto, using(crate::proofs::Shapes::term_shapes))]
fn is_sum(table: &TermTable, a: TermId, b: TermId, id: TermId) -> bool
    requires first { a < length table.now }
    requires second { b < length table.now }
    requires within { id < length table.now }
    ensures { result ≡ same (term.Add (tree_at table.now a) (tree_at table.now b)) (tree_at table.now id) }
{
    match table.sum_of(id) {
        Some((c, d)) => table.same_tree(a, c) && table.same_tree(b, d),
        None => false,
    }
}

/// Whether the term is the difference.
#[tactic(auto, using(crate::proofs::Shapes::term_shapes))]
fn is_difference(table: &TermTable, a: TermId, b: TermId, id: TermId) -> bool
    requires first { a < length table.now }
    requires second { b < length table.now }
    requires within { id < length table.now }
    ensures { result ≡ same (term.Sub (tree_at table.now a) (tree_at table.now b)) (tree_at table.now id) }
{
    match table.difference_of(id) {
        Some((c, d)) => table.same_tree(a, c) && table.same_tree(b, d),
        None => false,
    }
}

/// Whether the term is the product.
#[tactic(auto, using(crate::proofs::Shapes::term_shapes))]
fn is_product(table: &TermTable, a: TermId, b: TermId, id: TermId) -> bool
    requires first { a < length table.now }
    requires second { b < length table.now }
    requires within { id < length table.now }
    ensures { result ≡ same (term.Mul (tree_at table.now a) (tree_at table.now b)) (tree_at table.now id) }
{
    match table.product_of(id) {
        Some((c, d)) => table.same_tree(a, c) && table.same_tree(b, d),
        None => false,
    }
}

/// Whether the term is the operator at the operand.
#[tactic(auto, using(crate::proofs::Shapes::term_shapes))]
fn is_one(table: &TermTable, op: NumOp, a: TermId, id: TermId) -> bool
    requires operand { a < length table.now }
    requires within { id < length table.now }
    ensures { result ≡ same (term.One op (tree_at table.now a)) (tree_at table.now id) }
{
    match table.one_of(id) {
        Some((other, c)) => op == other && table.same_tree(a, c),
        None => false,
    }
}

/// Whether the term is the operator at the operands.
#[tactic(auto, using(crate::proofs::Shapes::term_shapes))]
fn is_two(table: &TermTable, op: NumOp, a: TermId, b: TermId, id: TermId) -> bool
    requires first { a < length table.now }
    requires second { b < length table.now }
    requires within { id < length table.now }
    ensures { result ≡ same (term.Two op (tree_at table.now a) (tree_at table.now b)) (tree_at table.now id) }
{
    match table.two_of(id) {
        Some((other, c, d)) => op == other && table.same_tree(a, c) && table.same_tree(b, d),
        None => false,
    }
}

/// Whether the term is the operator at the operand and the number.
#[tactic(auto, using(crate::proofs::Shapes::term_shapes))]
fn is_two_number(table: &TermTable, op: NumOp, a: TermId, k: i128, id: TermId) -> bool
    requires operand { a < length table.now }
    requires within { id < length table.now }
    ensures { result ≡ same (term.Two op (tree_at table.now a) (term.Num k)) (tree_at table.now id) }
{
    match table.two_of(id) {
        Some((other, c, d)) => op == other && table.same_tree(a, c) && is_number(table, k, d),
        None => false,
    }
}

/// Whether the term is the k low digits of the operand.
#[tactic(auto, using(crate::proofs::Shapes::term_shapes))]
fn is_low(table: &TermTable, k: u32, a: TermId, id: TermId) -> bool
    requires operand { a < length table.now }
    requires within { id < length table.now }
    ensures { result ≡ same (term.Low k (tree_at table.now a)) (tree_at table.now id) }
{
    match table.low_of(id) {
        Some((j, c)) => k == j && table.same_tree(a, c),
        None => false,
    }
}

/// Whether the term is the sign extension of the operand from k digits to n.
#[tactic(auto, using(crate::proofs::Shapes::term_shapes))]
fn is_sext(table: &TermTable, k: u32, n: u32, a: TermId, id: TermId) -> bool
    requires operand { a < length table.now }
    requires within { id < length table.now }
    ensures { result ≡ same (term.Sext k n (tree_at table.now a)) (tree_at table.now id) }
{
    match table.sext_of(id) {
        Some((j, m, c)) => k == j && n == m && table.same_tree(a, c),
        None => false,
    }
}

/// Whether the term is the signed reading of the operand at n digits.
#[tactic(auto, using(crate::proofs::Shapes::term_shapes))]
fn is_sgn(table: &TermTable, n: u32, a: TermId, id: TermId) -> bool
    requires operand { a < length table.now }
    requires within { id < length table.now }
    ensures { result ≡ same (term.Sgn n (tree_at table.now a)) (tree_at table.now id) }
{
    match table.sgn_of(id) {
        Some((m, c)) => n == m && table.same_tree(a, c),
        None => false,
    }
}

/// Whether the term is the divisor times the quotient.
#[tactic(auto, using(crate::proofs::Shapes::term_shapes))]
fn is_multiple(table: &TermTable, width: ValType, a: TermId, b: TermId, id: TermId) -> bool
    requires first { a < length table.now }
    requires second { b < length table.now }
    requires within { id < length table.now }
    ensures { result ≡ same (term.Mul (tree_at table.now b) (term.Two (operator width DivU) (tree_at table.now a) (tree_at table.now b))) (tree_at table.now id) }
{
    match table.product_of(id) {
        Some((c, d)) => table.same_tree(b, c)
            && is_two(table, operator(width, IntOp::DivU), a, b, d),
        None => false,
    }
}

/// Whether the term is the side.
#[tactic(auto, using(crate::proofs::Shapes::term_shapes))]
pub(crate) fn is_side(table: &TermTable, side: Side, id: TermId) -> bool
    requires side { SideWithin (length table.now) side }
    requires within { id < length table.now }
    ensures { result ≡ same (side_tree table.now side) (tree_at table.now id) }
{
    match side {
        Side::Id(a) => table.same_tree(a, id),
        Side::Number(k) => is_number(table, k, id),
        Side::Sum(a, b) => is_sum(table, a, b, id),
        Side::Difference(a, b) => is_difference(table, a, b, id),
        Side::Product(a, b) => is_product(table, a, b, id),
        Side::LessNumber(a, k) => match table.difference_of(id) {
            Some((c, d)) => table.same_tree(a, c) && is_number(table, k, d),
            None => false,
        },
        Side::PlusNumber(a, k) => match table.sum_of(id) {
            Some((c, d)) => table.same_tree(a, c) && is_number(table, k, d),
            None => false,
        },
        Side::SumLess(a, b, k) => match table.difference_of(id) {
            Some((c, d)) => is_sum(table, a, b, c) && is_number(table, k, d),
            None => false,
        },
        Side::DifferencePlus(a, b, k) => match table.sum_of(id) {
            Some((c, d)) => is_difference(table, a, b, c) && is_number(table, k, d),
            None => false,
        },
        Side::Division(width, a, b) => match table.sum_of(id) {
            Some((c, d)) => is_multiple(table, width, a, b, c)
                && is_two(table, operator(width, IntOp::RemU), a, b, d),
            None => false,
        },
        Side::One(op, a) => is_one(table, op, a, id),
        Side::Two(op, a, b) => is_two(table, op, a, b, id),
        Side::TwoNumber(op, a, k) => is_two_number(table, op, a, k, id),
        Side::Low(k, a) => is_low(table, k, a, id),
        Side::Sext(k, n, a) => is_sext(table, k, n, a, id),
        Side::Sgn(n, a) => is_sgn(table, n, a, id),
    }
}

/// Whether the formula is the equation of the sides.
#[tactic(auto, using(crate::proofs::Shapes::formula_shapes))]
fn is_equation(table: &TermTable, a: Side, b: Side, f: &IdFormula) -> bool
    requires first { SideWithin (length table.now) a }
    requires second { SideWithin (length table.now) b }
    requires within { formula_bound f.now ≤ length table.now }
    ensures { result ≡ same_formula (formula.Eq (side_tree table.now a) (side_tree table.now b)) (formula_of table.now f.now) }
{
    match f.eq_of(table) {
        Some((c, d)) => is_side(table, a, c) && is_side(table, b, d),
        None => false,
    }
}

/// Whether the formula is the claim.
#[tactic(auto, using(crate::proofs::Shapes::formula_shapes))]
pub(crate) fn is_claim(table: &TermTable, claim: Claim, f: &IdFormula) -> bool
    requires claim { ClaimWithin (length table.now) claim }
    requires within { formula_bound f.now ≤ length table.now }
    ensures { result ≡ same_formula (claim_formula table.now claim) (formula_of table.now f.now) }
{
    match claim {
        Claim::Eq(a, b) => is_equation(table, a, b, f),
        Claim::Ne(a, b) => match f.not_of(table) {
            Some(g) => is_equation(table, a, b, g),
            None => false,
        },
        Claim::Le(a, b) => match f.le_of(table) {
            Some((c, d)) => is_side(table, a, c) && is_side(table, b, d),
            None => false,
        },
        Claim::Lt(a, b) => match f.lt_of(table) {
            Some((c, d)) => is_side(table, a, c) && is_side(table, b, d),
            None => false,
        },
    }
}

/// Whether the formula is the conjunction of the claims.
#[tactic(auto, using(crate::proofs::Shapes::formula_shapes))]
pub(crate) fn is_both(table: &TermTable, first: Claim, second: Claim, f: &IdFormula) -> bool
    requires first { ClaimWithin (length table.now) first }
    requires second { ClaimWithin (length table.now) second }
    requires within { formula_bound f.now ≤ length table.now }
    ensures { result ≡ same_formula (formula.And (claim_formula table.now first) (claim_formula table.now second)) (formula_of table.now f.now) }
{
    match f.and_of(table) {
        Some((g, h)) => is_claim(table, first, g) && is_claim(table, second, h),
        None => false,
    }
}

/// Whether the formula denies the claim.
#[tactic(auto, using(crate::proofs::Shapes::formula_shapes))]
fn is_denial(table: &TermTable, claim: Claim, f: &IdFormula) -> bool
    requires claim { ClaimWithin (length table.now) claim }
    requires within { formula_bound f.now ≤ length table.now }
    ensures { result ≡ same_formula (formula.Not (claim_formula table.now claim)) (formula_of table.now f.now) }
{
    match f.not_of(table) {
        Some(g) => is_claim(table, claim, g),
        None => false,
    }
}

/// Whether the formula says that the test is 0 and denies the claim.
#[tactic(auto, using(crate::proofs::Shapes::formula_shapes))]
fn is_failure(table: &TermTable, test: Side, claim: Claim, f: &IdFormula) -> bool
    requires test { SideWithin (length table.now) test }
    requires claim { ClaimWithin (length table.now) claim }
    requires within { formula_bound f.now ≤ length table.now }
    ensures { result ≡ same_formula (formula.And (formula.Eq (side_tree table.now test) (term.Num (pos 0))) (formula.Not (claim_formula table.now claim))) (formula_of table.now f.now) }
{
    match f.and_of(table) {
        Some((g, h)) => is_equation(table, test, Side::Number(0), g) && is_denial(table, claim, h),
        None => false,
    }
}

/// Whether the formula says that the test is 1 where the claim is true, and else 0.
#[tactic(auto, using(crate::proofs::Shapes::formula_shapes))]
pub(crate) fn is_choice(table: &TermTable, test: &Side, claim: &Claim, f: &IdFormula) -> bool
    requires test { SideWithin (length table.now) test.now }
    requires claim { ClaimWithin (length table.now) claim.now }
    requires within { formula_bound f.now ≤ length table.now }
    ensures { result ≡ same_formula (choice (side_tree table.now test.now) (claim_formula table.now claim.now)) (formula_of table.now f.now) }
{
    match f.or_of(table) {
        Some((g, h)) => is_both(table, Claim::Eq(*test, Side::Number(1)), *claim, g)
            && is_failure(table, *test, *claim, h),
        None => false,
    }
}

/// Whether the formula is the disjunction of the two conjunctions of claims.
#[tactic(auto, using(crate::proofs::Shapes::formula_shapes))]
pub(crate) fn is_split(
    table: &TermTable,
    low: &(Claim, Claim),
    high: &(Claim, Claim),
    f: &IdFormula,
) -> bool
    requires low { ClaimWithin (length table.now) low.now.0 × ClaimWithin (length table.now) low.now.1 }
    requires high { ClaimWithin (length table.now) high.now.0 × ClaimWithin (length table.now) high.now.1 }
    requires within { formula_bound f.now ≤ length table.now }
    ensures { result ≡ same_formula (formula.Or (formula.And (claim_formula table.now low.now.0) (claim_formula table.now low.now.1)) (formula.And (claim_formula table.now high.now.0) (claim_formula table.now high.now.1))) (formula_of table.now f.now) }
{
    match f.or_of(table) {
        Some((g, h)) => is_both(table, low.0, low.1, g) && is_both(table, high.0, high.1, h),
        None => false,
    }
}

/// Whether the formula bounds the remainder from below by 0 and from above by the divisor.
#[tactic(auto, using(crate::proofs::Shapes::formula_shapes))]
fn is_bounded(table: &TermTable, width: ValType, a: TermId, b: TermId, f: &IdFormula) -> bool
    requires first { a < length table.now }
    requires second { b < length table.now }
    requires within { formula_bound f.now ≤ length table.now }
    ensures { result ≡ same_formula (remainder_bounds width (tree_at table.now a) (tree_at table.now b)) (formula_of table.now f.now) }
{
    let low = Side::Two(operator(width, IntOp::RemU), a, b);
    let high = Side::Two(operator(width, IntOp::RemU), a, b);
    is_both(
        table,
        Claim::Le(Side::Number(0), low),
        Claim::Lt(high, Side::Id(b)),
        f,
    )
}

/// Whether the formula says that the quotient and the remainder divide a by b.
#[tactic(auto, using(crate::proofs::Shapes::formula_shapes))]
pub(crate) fn is_division(
    table: &TermTable,
    width: ValType,
    a: TermId,
    b: TermId,
    f: &IdFormula,
) -> bool
    requires first { a < length table.now }
    requires second { b < length table.now }
    requires within { formula_bound f.now ≤ length table.now }
    ensures { result ≡ same_formula (divu_row width (tree_at table.now a) (tree_at table.now b)).conclusion (formula_of table.now f.now) }
{
    match f.and_of(table) {
        Some((g, h)) => is_equation(table, Side::Id(a), Side::Division(width, a, b), g)
            && is_bounded(table, width, a, b, h),
        None => false,
    }
}

/// Whether the formulas are the claims, one after another.
pub(crate) fn are_claims(table: &TermTable, claims: &[Claim], formulas: &[&IdFormula]) -> bool
    requires claims { All (λ c. ClaimWithin (length table.now) c) claims.now }
    requires within { All (λ f. formula_bound f.now ≤ length table.now) formulas.now }
    ensures { result ≡ same_formulas (map (claim_formula table.now) claims.now) (map (λ f. formula_of table.now f.now) formulas.now) }
{
    let Some((claim, claims)) = claims.split_first() else {
        return formulas.is_empty();
    };
    let Some((f, formulas)) = formulas.split_first() else {
        return false;
    };
    is_claim(table, *claim, f) && are_claims(table, claims, formulas)
}
