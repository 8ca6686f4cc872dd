ghost use Rattle.std.specs.Prelude.{◌≡◌, ◌<◌, ◌≤◌, length, IfSome, IsTrue};
ghost use Rattle.std.specs.Option.{option_map};
ghost use Rattle.term_logic.specs.Table.{tree_at};
ghost use Rattle.term_trees.specs.Formulas.{well_formed_formula};
ghost use Rattle.term_logic.specs.Formulas.{formula_bound, formula_of};
ghost use Rattle.equality_rules.specs.Equality.{are_sides, is_refl, is_eval, is_equal_or_above, is_order, is_notle, is_notlt, is_zero, nonnegative_of, is_mulpos};

use term_logic::{Formula, IdFormula, TermId, TermTable, ground};

/// Whether there are two sides, and they are the terms `a` and `b`.
fn are_sides(table: &TermTable, sides: Option<(TermId, TermId)>, a: TermId, b: TermId) -> bool
    requires sides { IfSome sides (λ p. (p.0 < length table.now) × (p.1 < length table.now)) }
    requires first { a < length table.now }
    requires second { b < length table.now }
    ensures { result ≡ are_sides (option_map (λ p. (tree_at table.now p.0, tree_at table.now p.1)) sides) (tree_at table.now a) (tree_at table.now b) }
{
    match sides {
        Some((c, d)) => table.same_tree(a, c) && table.same_tree(b, d),
        None => false,
    }
}

/// Whether the formula says that a term equals itself.
pub fn is_refl(table: &TermTable, conclusion: &IdFormula) -> bool
    requires { formula_bound conclusion.now ≤ length table.now }
    ensures { result ≡ is_refl (formula_of table.now conclusion.now) }
{
    match conclusion.eq_of(table) {
        Some((a, b)) => table.same_tree(a, b),
        None => false,
    }
}

/// Whether the formula is ground and true.
pub fn is_eval(conclusion: &Formula) -> bool
    requires { IsTrue (well_formed_formula conclusion.now) }
    ensures { result ≡ is_eval conclusion.now }
{
    match ground(conclusion) {
        Some(holds) => holds,
        None => false,
    }
}

/// Whether the formula says that two terms are equal, or the second is less than the first.
fn is_equal_or_above(table: &TermTable, f: &IdFormula, a: TermId, b: TermId) -> bool
    requires within { formula_bound f.now ≤ length table.now }
    requires first { a < length table.now }
    requires second { b < length table.now }
    ensures { result ≡ is_equal_or_above (formula_of table.now f.now) (tree_at table.now a) (tree_at table.now b) }
{
    match f.or_of(table) {
        Some((equal, above)) => {
            are_sides(table, equal.eq_of(table), a, b) && are_sides(table, above.lt_of(table), b, a)
        }
        None => false,
    }
}

/// Whether the formula says that one of two terms is less than the other, or they are equal.
pub fn is_order(table: &TermTable, conclusion: &IdFormula) -> bool
    requires { formula_bound conclusion.now ≤ length table.now }
    ensures { result ≡ is_order (formula_of table.now conclusion.now) }
{
    let Some((below, rest)) = conclusion.or_of(table) else {
        return false;
    };
    match below.lt_of(table) {
        Some((a, b)) => is_equal_or_above(table, rest, a, b),
        None => false,
    }
}

/// Whether the premise denies `a <= b`, and the conclusion is `b < a`.
pub fn is_notle(table: &TermTable, premise: &IdFormula, conclusion: &IdFormula) -> bool
    requires premise { formula_bound premise.now ≤ length table.now }
    requires conclusion { formula_bound conclusion.now ≤ length table.now }
    ensures { result ≡ is_notle (formula_of table.now premise.now) (formula_of table.now conclusion.now) }
{
    let Some(f) = premise.not_of(table) else {
        return false;
    };
    match f.le_of(table) {
        Some((a, b)) => are_sides(table, conclusion.lt_of(table), b, a),
        None => false,
    }
}

/// Whether the premise denies `a < b`, and the conclusion is `b <= a`.
pub fn is_notlt(table: &TermTable, premise: &IdFormula, conclusion: &IdFormula) -> bool
    requires premise { formula_bound premise.now ≤ length table.now }
    requires conclusion { formula_bound conclusion.now ≤ length table.now }
    ensures { result ≡ is_notlt (formula_of table.now premise.now) (formula_of table.now conclusion.now) }
{
    let Some(f) = premise.not_of(table) else {
        return false;
    };
    match f.lt_of(table) {
        Some((a, b)) => are_sides(table, conclusion.le_of(table), b, a),
        None => false,
    }
}

/// Whether the term is the number 0.
fn is_zero(table: &TermTable, t: TermId) -> bool
    requires { t < length table.now }
    ensures { result ≡ is_zero (tree_at table.now t) }
{
    match table.num_of(t) {
        Some(n) => n == 0,
        None => false,
    }
}

/// The term that the formula says to be at least 0.
fn nonnegative_of(table: &TermTable, f: &IdFormula) -> Option<TermId>
    requires { formula_bound f.now ≤ length table.now }
    ensures term { option_map (tree_at table.now) result ≡ nonnegative_of (formula_of table.now f.now) }
    ensures within { IfSome result (λ t. t < length table.now) }
{
    let (zero, t) = f.le_of(table)?;
    if is_zero(table, zero) { Some(t) } else { None }
}

/// Whether the premises say that two terms are at least 0, and the conclusion says so of their product.
pub fn is_mulpos(
    table: &TermTable,
    first: &IdFormula,
    second: &IdFormula,
    conclusion: &IdFormula,
) -> bool
    requires first { formula_bound first.now ≤ length table.now }
    requires second { formula_bound second.now ≤ length table.now }
    requires conclusion { formula_bound conclusion.now ≤ length table.now }
    ensures { result ≡ is_mulpos (formula_of table.now first.now) (formula_of table.now second.now) (formula_of table.now conclusion.now) }
{
    let Some(a) = nonnegative_of(table, first) else {
        return false;
    };
    let Some(b) = nonnegative_of(table, second) else {
        return false;
    };
    match nonnegative_of(table, conclusion) {
        Some(t) => are_sides(table, table.product_of(t), a, b),
        None => false,
    }
}
