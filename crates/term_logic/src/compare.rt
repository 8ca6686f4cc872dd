ghost use Rattle.std.specs.Prelude.{◌≡◌, ◌↔◌, ◌<◌, ◌≤◌, length, IfSome, IsTrue};
ghost use Rattle.std.specs.Option.{option_map};
ghost use Rattle.term_logic.specs.Table.{tree_at};
ghost use Rattle.term_logic.specs.Formulas.{formula_bound, formula_of};
ghost use Rattle.term_trees.specs.Same.{same, same_parts, same_counted, same_formula};
ghost use Rattle.term_trees.specs.Leaves.{replaced, replaced_formula};
ghost use Rattle.term_logic.specs.Leaves.{LeavesWithin, leaves_of};

use crate::formula::IdFormula;
use crate::leaves::LeafIds;
use crate::table::{TermId, TermTable};
use term_trees::{Formula, Term};

impl TermTable {
    /// Whether two positions hold the trees, once their leaves are replaced.
    #[cycle(comparing)]
    fn test_parts(
        &self,
        a: &Term,
        b: &Term,
        leaves: &LeafIds<'_>,
        ids: Option<(TermId, TermId)>,
    ) -> bool
        requires within { IfSome ids (λ p. (p.0 < length self.now) × (p.1 < length self.now)) }
        requires leaves { LeavesWithin (length self.now) leaves.now }
        ensures { result ≡ same_parts (replaced (leaves_of self.now leaves.now) a.now) (replaced (leaves_of self.now leaves.now) b.now) (option_map (λ p. (tree_at self.now p.0, tree_at self.now p.1)) ids) }
    {
        match ids {
            Some((c, d)) => self.test_term(a, leaves, c) && self.test_term(b, leaves, d),
            None => false,
        }
    }

    /// Whether there is this number with a position that holds the tree, once its leaves are replaced.
    #[cycle(comparing)]
    fn test_counted(
        &self,
        k: u32,
        a: &Term,
        leaves: &LeafIds<'_>,
        counted: Option<(u32, TermId)>,
    ) -> bool
        requires within { IfSome counted (λ p. p.1 < length self.now) }
        requires leaves { LeavesWithin (length self.now) leaves.now }
        ensures { result ≡ same_counted k (replaced (leaves_of self.now leaves.now) a.now) (option_map (λ p. (p.0, tree_at self.now p.1)) counted) }
    {
        match counted {
            Some((j, c)) => k == j && self.test_term(a, leaves, c),
            None => false,
        }
    }

    /// Whether the term at a position is the tree, once its leaves are replaced.
    #[cycle(comparing)]
    fn test_term(&self, t: &Term, leaves: &LeafIds<'_>, id: TermId) -> bool
        requires within { id < length self.now }
        requires leaves { LeavesWithin (length self.now) leaves.now }
        ensures { result ≡ same (replaced (leaves_of self.now leaves.now) t.now) (tree_at self.now id) }
    {
        match t {
            Term::Num(n) => self.is_num(id, *n),
            Term::Var(k) => match leaves.variable(*k) {
                Some(other) => self.same_tree(other, id),
                None => self.is_var(id, *k),
            },
            Term::Own(k) => match leaves.own(*k) {
                Some(other) => self.same_tree(other, id),
                None => self.is_own(id, *k),
            },
            Term::At(place) => match leaves.place(*place) {
                Some(other) => self.same_tree(other, id),
                None => self.is_place(id, *place),
            },
            Term::Add(a, b) => self.test_parts(a.get(), b.get(), leaves, self.sum_of(id)),
            Term::Sub(a, b) => self.test_parts(a.get(), b.get(), leaves, self.difference_of(id)),
            Term::Mul(a, b) => self.test_parts(a.get(), b.get(), leaves, self.product_of(id)),
            Term::One(op, a) => match self.one_of(id) {
                Some((other, c)) => *op == other && self.test_term(a.get(), leaves, c),
                None => false,
            },
            Term::Two(op, a, b) => match self.two_of(id) {
                Some((other, c, d)) => *op == other
                    && self.test_parts(a.get(), b.get(), leaves, Some((c, d))),
                None => false,
            },
            Term::Low(k, a) => self.test_counted(*k, a.get(), leaves, self.low_of(id)),
            Term::Sext(k, n, a) => match self.sext_of(id) {
                Some((j, m, c)) => *k == j && *n == m && self.test_term(a.get(), leaves, c),
                None => false,
            },
            Term::Sgn(n, a) => self.test_counted(*n, a.get(), leaves, self.sgn_of(id)),
        }
    }

    /// Whether the term at a position is the tree, once its leaves are replaced.
    pub fn is_replaced(&self, t: &Term, leaves: &LeafIds<'_>, id: TermId) -> bool
        requires within { id < length self.now }
        requires leaves { LeavesWithin (length self.now) leaves.now }
        ensures same { IsTrue result ↔ (replaced (leaves_of self.now leaves.now) t.now ≡ tree_at self.now id) }
        ensures value { result ≡ same (replaced (leaves_of self.now leaves.now) t.now) (tree_at self.now id) }
    {
        self.test_term(t, leaves, id)
    }

    fn test_formula(&self, f: &Formula, leaves: &LeafIds<'_>, g: &IdFormula) -> bool
        requires within { formula_bound g.now ≤ length self.now }
        requires leaves { LeavesWithin (length self.now) leaves.now }
        ensures { result ≡ same_formula (replaced_formula (leaves_of self.now leaves.now) f.now) (formula_of self.now g.now) }
    {
        match f {
            Formula::True => g.is_true(self),
            Formula::False => g.is_false(self),
            Formula::Eq(a, b) => self.test_parts(a, b, leaves, g.eq_of(self)),
            Formula::Le(a, b) => self.test_parts(a, b, leaves, g.le_of(self)),
            Formula::Lt(a, b) => self.test_parts(a, b, leaves, g.lt_of(self)),
            Formula::Not(a) => match g.not_of(self) {
                Some(h) => self.test_formula(a.get(), leaves, h),
                None => false,
            },
            Formula::And(a, b) => match g.and_of(self) {
                Some((h, k)) => self.test_formula(a.get(), leaves, h)
                    && self.test_formula(b.get(), leaves, k),
                None => false,
            },
            Formula::Or(a, b) => match g.or_of(self) {
                Some((h, k)) => self.test_formula(a.get(), leaves, h)
                    && self.test_formula(b.get(), leaves, k),
                None => false,
            },
            Formula::Imp(a, b) => match g.imp_of(self) {
                Some((h, k)) => self.test_formula(a.get(), leaves, h)
                    && self.test_formula(b.get(), leaves, k),
                None => false,
            },
        }
    }

    /// Whether the formula over the table stands for the tree, once the tree's leaves are replaced.
    pub fn is_replaced_formula(&self, f: &Formula, leaves: &LeafIds<'_>, g: &IdFormula) -> bool
        requires within { formula_bound g.now ≤ length self.now }
        requires leaves { LeavesWithin (length self.now) leaves.now }
        ensures same { IsTrue result ↔ (replaced_formula (leaves_of self.now leaves.now) f.now ≡ formula_of self.now g.now) }
        ensures value { result ≡ same_formula (replaced_formula (leaves_of self.now leaves.now) f.now) (formula_of self.now g.now) }
    {
        self.test_formula(f, leaves, g)
    }

    fn test_formulas(&self, f: &IdFormula, g: &IdFormula) -> bool
        requires first { formula_bound f.now ≤ length self.now }
        requires second { formula_bound g.now ≤ length self.now }
        ensures { result ≡ same_formula (formula_of self.now f.now) (formula_of self.now g.now) }
    {
        match f {
            IdFormula::True => g.is_true(self),
            IdFormula::False => g.is_false(self),
            IdFormula::Eq(a, b) => match g.eq_of(self) {
                Some((c, d)) => self.same_tree(*a, c) && self.same_tree(*b, d),
                None => false,
            },
            IdFormula::Le(a, b) => match g.le_of(self) {
                Some((c, d)) => self.same_tree(*a, c) && self.same_tree(*b, d),
                None => false,
            },
            IdFormula::Lt(a, b) => match g.lt_of(self) {
                Some((c, d)) => self.same_tree(*a, c) && self.same_tree(*b, d),
                None => false,
            },
            IdFormula::Not(a) => match g.not_of(self) {
                Some(h) => self.test_formulas(a.get(), h),
                None => false,
            },
            IdFormula::And(a, b) => match g.and_of(self) {
                Some((h, k)) => self.test_formulas(a.get(), h) && self.test_formulas(b.get(), k),
                None => false,
            },
            IdFormula::Or(a, b) => match g.or_of(self) {
                Some((h, k)) => self.test_formulas(a.get(), h) && self.test_formulas(b.get(), k),
                None => false,
            },
            IdFormula::Imp(a, b) => match g.imp_of(self) {
                Some((h, k)) => self.test_formulas(a.get(), h) && self.test_formulas(b.get(), k),
                None => false,
            },
        }
    }

    /// Whether two formulas over the table stand for one formula.
    pub fn same_formula(&self, f: &IdFormula, g: &IdFormula) -> bool
        requires first { formula_bound f.now ≤ length self.now }
        requires second { formula_bound g.now ≤ length self.now }
        ensures same { IsTrue result ↔ (formula_of self.now f.now ≡ formula_of self.now g.now) }
        ensures value { result ≡ same_formula (formula_of self.now f.now) (formula_of self.now g.now) }
    {
        self.test_formulas(f, g)
    }
}
