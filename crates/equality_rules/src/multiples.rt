ghost use Rattle.std.specs.Prelude.{◌≡◌, ◌<◌, ◌≤◌, ◌&&◌, ◌+ℤ◌, pos, int_le, length, IfSome, IsTrue};
ghost use Rattle.std.specs.Option.{option_map};
ghost use Rattle.std.specs.Ordering.{int_eq};
ghost use Rattle.term_logic.specs.Table.{tree_at};
ghost use Rattle.term_logic.specs.Formulas.{formula_bound, formula_of};
ghost use Rattle.equality_rules.specs.Equality.{multiple_of, upper_of, lower_of, is_greatest, is_least, is_floor, is_ceil};

use term_logic::{IdFormula, TermId, TermTable};

/// The number and the term of a product of these.
fn multiple_of(table: &TermTable, t: TermId) -> Option<(i128, TermId)>
    requires { t < length table.now }
    ensures parts { option_map (λ p. (p.0, tree_at table.now p.1)) result ≡ multiple_of (tree_at table.now t) }
    ensures within { IfSome result (λ p. p.1 < length table.now) }
{
    let (number, a) = table.product_of(t)?;
    let number = table.num_of(number)?;
    Some((number, a))
}

/// The number, the term and the upper bound of their product.
fn upper_of(table: &TermTable, f: &IdFormula) -> Option<((i128, TermId), i128)>
    requires { formula_bound f.now ≤ length table.now }
    ensures parts { option_map (λ p. ((p.0.0, tree_at table.now p.0.1), p.1)) result ≡ upper_of (formula_of table.now f.now) }
    ensures within { IfSome result (λ p. p.0.1 < length table.now) }
{
    let (product, bound) = f.le_of(table)?;
    let multiple = multiple_of(table, product)?;
    let bound = table.num_of(bound)?;
    Some((multiple, bound))
}

/// The lower bound, the number and the term of their product.
fn lower_of(table: &TermTable, f: &IdFormula) -> Option<(i128, (i128, TermId))>
    requires { formula_bound f.now ≤ length table.now }
    ensures parts { option_map (λ p. (p.0, (p.1.0, tree_at table.now p.1.1))) result ≡ lower_of (formula_of table.now f.now) }
    ensures within { IfSome result (λ p. p.1.1 < length table.now) }
{
    let (bound, product) = f.le_of(table)?;
    let bound = table.num_of(bound)?;
    let multiple = multiple_of(table, product)?;
    Some((bound, multiple))
}

/// Whether `q` is the greatest number that `d` times is at most `n`, and `d` is at least 1.
fn is_greatest(d: i128, n: i128, q: i128) -> bool
    ensures { result ≡ (int_le (pos 1) d && is_greatest d n q) }
{
    1 <= d && q == n.div_euclid(d)
}

/// Whether the second number is the first and 1.
fn is_next(first: i128, second: i128) -> bool
    ensures { result ≡ int_eq (first +ℤ pos 1) second }
{
    first < second && first == second - 1
}

/// Whether `q` is the least number that `d` times is at least `n`, and `d` is at least 1.
fn is_least(d: i128, n: i128, q: i128) -> bool
    ensures { result ≡ (int_le (pos 1) d && is_least d n q) }
{
    if d < 1 {
        return false;
    }
    let quotient = n.div_euclid(d);
    if n.rem_euclid(d) == 0 {
        q == quotient
    } else {
        is_next(quotient, q)
    }
}

/// Whether the premise bounds a multiple of a term from above, and the conclusion the term, by the greatest number.
pub fn is_floor(table: &TermTable, premise: &IdFormula, conclusion: &IdFormula) -> bool
    requires premise { formula_bound premise.now ≤ length table.now }
    requires conclusion { formula_bound conclusion.now ≤ length table.now }
    ensures { result ≡ is_floor (formula_of table.now premise.now) (formula_of table.now conclusion.now) }
{
    let Some(((d, a), n)) = upper_of(table, premise) else {
        return false;
    };
    let Some((term, bound)) = conclusion.le_of(table) else {
        return false;
    };
    match table.num_of(bound) {
        Some(q) => table.same_tree(a, term) && is_greatest(d, n, q),
        None => false,
    }
}

/// Whether the premise bounds a multiple of a term from below, and the conclusion the term, by the least number.
pub fn is_ceil(table: &TermTable, premise: &IdFormula, conclusion: &IdFormula) -> bool
    requires premise { formula_bound premise.now ≤ length table.now }
    requires conclusion { formula_bound conclusion.now ≤ length table.now }
    ensures { result ≡ is_ceil (formula_of table.now premise.now) (formula_of table.now conclusion.now) }
{
    let Some((n, (d, a))) = lower_of(table, premise) else {
        return false;
    };
    let Some((bound, term)) = conclusion.le_of(table) else {
        return false;
    };
    match table.num_of(bound) {
        Some(q) => table.same_tree(a, term) && is_least(d, n, q),
        None => false,
    }
}
