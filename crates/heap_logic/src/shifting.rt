ghost use Rattle.std.specs.Prelude.{◌≡◌, ◌<◌, ◌≤◌, length, unwrap_or, IfOk, IfSome};
ghost use Rattle.std.specs.Option.{option_map};
ghost use Rattle.term_trees.specs.declared.term.Place.TheVariants as place;
ghost use Rattle.term_trees.specs.declared.term.Term.TheVariants as term;
ghost use Rattle.term_trees.specs.Leaves.{replaced, replaced_formula};
ghost use Rattle.term_trees.specs.Same.{same, same_parts, same_counted, same_formula};
ghost use Rattle.term_logic.specs.Table.{tree_at};
ghost use Rattle.term_logic.specs.Formulas.{formula_bound, formula_of};
ghost use Rattle.outline_rules.specs.Chunks.{shifted};
ghost use Rattle.heap_logic.specs.words.Shifts.{shift_leaves};

use term_logic::{Formula, IdFormula, Place, Term, TermId, TermTable};
use wasm_values::OutOfMemory;

/// Whether a term is the sum of `(index)` and another.
#[tactic(auto, using(crate::proofs::Compared::index_sums))]
fn is_index_with(table: &TermTable, by: TermId, id: TermId) -> bool
    requires by { by < length table.now }
    requires term { id < length table.now }
    ensures { result ≡ same (term.Add (term.At place.Index) (tree_at table.now by)) (tree_at table.now id) }
{
    match table.sum_of(id) {
        Some((x, y)) => table.is_place(x, Place::Index) && table.same_tree(by, y),
        None => false,
    }
}

/// Whether a place of a row's formula, its positions counted from a term on, is the term at a position.
#[tactic(auto, using(crate::proofs::Compared::place_tests))]
fn is_shifted_place(table: &TermTable, p: Place, by: TermId, id: TermId) -> bool
    requires by { by < length table.now }
    requires term { id < length table.now }
    ensures { result ≡ same (unwrap_or ((shift_leaves (tree_at table.now by)).place p) (term.At p)) (tree_at table.now id) }
{
    match p {
        Place::Index => is_index_with(table, by, id),
        _ => table.is_place(id, p),
    }
}

/// Whether two positions hold the trees, their positions counted from a term on.
#[cycle(shifting)]
fn are_shifted(
    table: &TermTable,
    a: &Term,
    b: &Term,
    by: TermId,
    ids: Option<(TermId, TermId)>,
) -> bool
    requires by { by < length table.now }
    requires within { IfSome ids (λ p. (p.0 < length table.now) × (p.1 < length table.now)) }
    ensures { result ≡ same_parts (replaced (shift_leaves (tree_at table.now by)) a.now) (replaced (shift_leaves (tree_at table.now by)) b.now) (option_map (λ p. (tree_at table.now p.0, tree_at table.now p.1)) ids) }
{
    match ids {
        Some((c, d)) => is_shifted_term(table, a, by, c) && is_shifted_term(table, b, by, d),
        None => false,
    }
}

/// Whether there is this number with a position that holds the tree, its positions counted from a term on.
#[cycle(shifting)]
fn is_counted(
    table: &TermTable,
    k: u32,
    a: &Term,
    by: TermId,
    counted: Option<(u32, TermId)>,
) -> bool
    requires by { by < length table.now }
    requires within { IfSome counted (λ p. p.1 < length table.now) }
    ensures { result ≡ same_counted k (replaced (shift_leaves (tree_at table.now by)) a.now) (option_map (λ p. (p.0, tree_at table.now p.1)) counted) }
{
    match counted {
        Some((j, c)) => k == j && is_shifted_term(table, a, by, c),
        None => false,
    }
}

/// Whether the term at a position is the tree, its positions counted from a term on.
#[cycle(shifting)]
fn is_shifted_term(table: &TermTable, t: &Term, by: TermId, id: TermId) -> bool
    requires by { by < length table.now }
    requires term { id < length table.now }
    ensures { result ≡ same (replaced (shift_leaves (tree_at table.now by)) t.now) (tree_at table.now id) }
{
    match t {
        Term::Num(n) => table.is_num(id, *n),
        Term::Var(k) => table.is_var(id, *k),
        Term::Own(k) => table.is_own(id, *k),
        Term::At(place) => is_shifted_place(table, *place, by, id),
        Term::Add(a, b) => are_shifted(table, a.get(), b.get(), by, table.sum_of(id)),
        Term::Sub(a, b) => are_shifted(table, a.get(), b.get(), by, table.difference_of(id)),
        Term::Mul(a, b) => are_shifted(table, a.get(), b.get(), by, table.product_of(id)),
        Term::One(op, a) => match table.one_of(id) {
            Some((other, c)) => *op == other && is_shifted_term(table, a.get(), by, c),
            None => false,
        },
        Term::Two(op, a, b) => match table.two_of(id) {
            Some((other, c, d)) => *op == other
                && are_shifted(table, a.get(), b.get(), by, Some((c, d))),
            None => false,
        },
        Term::Low(k, a) => is_counted(table, *k, a.get(), by, table.low_of(id)),
        Term::Sext(k, n, a) => match table.sext_of(id) {
            Some((j, m, c)) => *k == j && *n == m && is_shifted_term(table, a.get(), by, c),
            None => false,
        },
        Term::Sgn(n, a) => is_counted(table, *n, a.get(), by, table.sgn_of(id)),
    }
}

/// Whether the formula over the table is the tree, its positions counted from a term on.
fn is_shifted_tree(table: &TermTable, f: &Formula, by: TermId, g: &IdFormula) -> bool
    requires by { by < length table.now }
    requires within { formula_bound g.now ≤ length table.now }
    ensures { result ≡ same_formula (replaced_formula (shift_leaves (tree_at table.now by)) f.now) (formula_of table.now g.now) }
{
    match f {
        Formula::True => g.is_true(table),
        Formula::False => g.is_false(table),
        Formula::Eq(a, b) => are_shifted(table, a, b, by, g.eq_of(table)),
        Formula::Le(a, b) => are_shifted(table, a, b, by, g.le_of(table)),
        Formula::Lt(a, b) => are_shifted(table, a, b, by, g.lt_of(table)),
        Formula::Not(a) => match g.not_of(table) {
            Some(h) => is_shifted_tree(table, a.get(), by, h),
            None => false,
        },
        Formula::And(a, b) => match g.and_of(table) {
            Some((h, k)) => is_shifted_tree(table, a.get(), by, h)
                && is_shifted_tree(table, b.get(), by, k),
            None => false,
        },
        Formula::Or(a, b) => match g.or_of(table) {
            Some((h, k)) => is_shifted_tree(table, a.get(), by, h)
                && is_shifted_tree(table, b.get(), by, k),
            None => false,
        },
        Formula::Imp(a, b) => match g.imp_of(table) {
            Some((h, k)) => is_shifted_tree(table, a.get(), by, h)
                && is_shifted_tree(table, b.get(), by, k),
            None => false,
        },
    }
}

/// Whether a formula is that of a row, its positions counted from a term on.
#[tactic(auto, using(crate::proofs::Compared::turned_tests))]
pub(crate) fn is_shifted(
    table: &TermTable,
    each: &IdFormula,
    by: TermId,
    g: &IdFormula,
) -> Result<bool, OutOfMemory>
    requires by { by < length table.now }
    requires each { formula_bound each.now ≤ length table.now }
    requires within { formula_bound g.now ≤ length table.now }
    ensures { IfOk result (λ b. b ≡ same_formula (formula_of table.now g.now) (shifted (formula_of table.now each.now) (tree_at table.now by))) }
{
    let tree = table.formula_tree(each)?;
    Ok(is_shifted_tree(table, &tree, by, g))
}
