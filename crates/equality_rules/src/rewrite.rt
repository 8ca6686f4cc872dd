ghost use Rattle.std.specs.Prelude.{◌≡◌, ◌<◌, ◌≤◌, ◌&&◌, length, IfSome};
ghost use Rattle.std.specs.Option.{option_map};
ghost use Rattle.term_logic.specs.Table.{tree_at, CellWithin};
ghost use Rattle.term_logic.specs.Formulas.{formula_bound, formula_of};
ghost use Rattle.term_trees.specs.Same.{same};
ghost use Rattle.equality_rules.specs.Rewrite.{becomes, cell_becomes, formula_becomes, is_rewrite};
ghost use Rattle.equality_rules.specs.words.Becoming.{parts_become, counted_becomes};

use term_logic::{IdFormula, TermCell, TermId, TermTable};

/// What is replaced, and by what.
#[derive(Drop)]
struct Exchange {
    from: TermId,
    to: TermId,
}

/// Whether the terms are what is replaced and what it is replaced by.
fn is_exchanged(table: &TermTable, exchange: &Exchange, t: TermId, u: TermId) -> bool
    requires from { exchange.now.from < length table.now }
    requires to { exchange.now.to < length table.now }
    requires first { t < length table.now }
    requires second { u < length table.now }
    ensures { result ≡ (same (tree_at table.now t) (tree_at table.now exchange.now.from) && same (tree_at table.now u) (tree_at table.now exchange.now.to)) }
{
    table.same_tree(t, exchange.from) && table.same_tree(u, exchange.to)
}

/// Whether a term becomes another by replacing some of its subterms.
#[cycle(terms)]
fn becomes(table: &TermTable, exchange: &Exchange, t: TermId, u: TermId) -> bool
    requires from { exchange.now.from < length table.now }
    requires to { exchange.now.to < length table.now }
    requires first { t < length table.now }
    requires second { u < length table.now }
    ensures { result ≡ becomes (tree_at table.now exchange.now.from) (tree_at table.now exchange.now.to) (tree_at table.now t) (tree_at table.now u) }
{
    if is_exchanged(table, exchange, t, u) {
        true
    } else {
        cell_becomes(table, exchange, table.cell(t), u)
    }
}

/// Whether there are two terms, and these become them.
#[cycle(terms)]
fn parts_become(
    table: &TermTable,
    exchange: &Exchange,
    a: TermId,
    b: TermId,
    others: Option<(TermId, TermId)>,
) -> bool
    requires from { exchange.now.from < length table.now }
    requires to { exchange.now.to < length table.now }
    requires first { a < length table.now }
    requires second { b < length table.now }
    requires others { IfSome others (λ p. (p.0 < length table.now) × (p.1 < length table.now)) }
    ensures { result ≡ parts_become (tree_at table.now exchange.now.from) (tree_at table.now exchange.now.to) (tree_at table.now a) (tree_at table.now b) (option_map (λ p. (tree_at table.now p.0, tree_at table.now p.1)) others) }
{
    match others {
        Some((c, d)) => becomes(table, exchange, a, c) && becomes(table, exchange, b, d),
        None => false,
    }
}

/// Whether there is this number with a term, and the term given becomes it.
#[cycle(terms)]
fn counted_becomes(
    table: &TermTable,
    exchange: &Exchange,
    k: u32,
    a: TermId,
    other: Option<(u32, TermId)>,
) -> bool
    requires from { exchange.now.from < length table.now }
    requires to { exchange.now.to < length table.now }
    requires first { a < length table.now }
    requires other { IfSome other (λ p. p.1 < length table.now) }
    ensures { result ≡ counted_becomes (tree_at table.now exchange.now.from) (tree_at table.now exchange.now.to) k (tree_at table.now a) (option_map (λ p. (p.0, tree_at table.now p.1)) other) }
{
    match other {
        Some((j, c)) => k == j && becomes(table, exchange, a, c),
        None => false,
    }
}

/// Whether a term is built as the cell is, from what the cell's parts become.
#[cycle(terms)]
fn cell_becomes(table: &TermTable, exchange: &Exchange, cell: &TermCell, u: TermId) -> bool
    requires from { exchange.now.from < length table.now }
    requires to { exchange.now.to < length table.now }
    requires cell { CellWithin (length table.now) cell.now }
    requires second { u < length table.now }
    ensures { result ≡ cell_becomes (tree_at table.now exchange.now.from) (tree_at table.now exchange.now.to) table.now cell.now (tree_at table.now u) }
{
    match cell {
        TermCell::Num(n) => table.is_num(u, *n),
        TermCell::Var(k) => table.is_var(u, *k),
        TermCell::Own(k) => table.is_own(u, *k),
        TermCell::At(place) => table.is_place(u, *place),
        TermCell::Add(a, b) => parts_become(table, exchange, *a, *b, table.sum_of(u)),
        TermCell::Sub(a, b) => parts_become(table, exchange, *a, *b, table.difference_of(u)),
        TermCell::Mul(a, b) => parts_become(table, exchange, *a, *b, table.product_of(u)),
        TermCell::One(op, a) => match table.one_of(u) {
            Some((other, c)) => *op == other && becomes(table, exchange, *a, c),
            None => false,
        },
        TermCell::Two(op, a, b) => match table.two_of(u) {
            Some((other, c, d)) => *op == other
                && becomes(table, exchange, *a, c)
                && becomes(table, exchange, *b, d),
            None => false,
        },
        TermCell::Low(k, a) => counted_becomes(table, exchange, *k, *a, table.low_of(u)),
        TermCell::Sext(k, n, a) => match table.sext_of(u) {
            Some((j, m, c)) => *k == j && *n == m && becomes(table, exchange, *a, c),
            None => false,
        },
        TermCell::Sgn(n, a) => counted_becomes(table, exchange, *n, *a, table.sgn_of(u)),
    }
}

/// Whether a formula becomes another by replacing some subterms of its terms.
fn formula_becomes(table: &TermTable, exchange: &Exchange, f: &IdFormula, g: &IdFormula) -> bool
    requires from { exchange.now.from < length table.now }
    requires to { exchange.now.to < length table.now }
    requires first { formula_bound f.now ≤ length table.now }
    requires second { formula_bound g.now ≤ length table.now }
    ensures { result ≡ formula_becomes (tree_at table.now exchange.now.from) (tree_at table.now exchange.now.to) (formula_of table.now f.now) (formula_of table.now g.now) }
{
    match f {
        IdFormula::True => g.is_true(table),
        IdFormula::False => g.is_false(table),
        IdFormula::Eq(a, b) => parts_become(table, exchange, *a, *b, g.eq_of(table)),
        IdFormula::Le(a, b) => parts_become(table, exchange, *a, *b, g.le_of(table)),
        IdFormula::Lt(a, b) => parts_become(table, exchange, *a, *b, g.lt_of(table)),
        IdFormula::Not(a) => match g.not_of(table) {
            Some(h) => formula_becomes(table, exchange, a.get(), h),
            None => false,
        },
        IdFormula::And(a, b) => match g.and_of(table) {
            Some((h, k)) => formula_becomes(table, exchange, a.get(), h)
                && formula_becomes(table, exchange, b.get(), k),
            None => false,
        },
        IdFormula::Or(a, b) => match g.or_of(table) {
            Some((h, k)) => formula_becomes(table, exchange, a.get(), h)
                && formula_becomes(table, exchange, b.get(), k),
            None => false,
        },
        IdFormula::Imp(a, b) => match g.imp_of(table) {
            Some((h, k)) => formula_becomes(table, exchange, a.get(), h)
                && formula_becomes(table, exchange, b.get(), k),
            None => false,
        },
    }
}

/// Whether the first premise is an equation, and the conclusion the second premise with some subterms that are the left
/// side replaced by the right side.
pub fn is_rewrite(
    table: &TermTable,
    equation: &IdFormula,
    premise: &IdFormula,
    conclusion: &IdFormula,
) -> bool
    requires equation { formula_bound equation.now ≤ length table.now }
    requires premise { formula_bound premise.now ≤ length table.now }
    requires conclusion { formula_bound conclusion.now ≤ length table.now }
    ensures { result ≡ is_rewrite (formula_of table.now equation.now) (formula_of table.now premise.now) (formula_of table.now conclusion.now) }
{
    match equation.eq_of(table) {
        Some((from, to)) => { formula_becomes(table, &Exchange { from, to }, premise, conclusion) }
        None => false,
    }
}
