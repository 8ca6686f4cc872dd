ghost use Rattle.std.specs.Prelude.{◌≡◌, ◌==◌, ◌<◌, length, IfSome};
ghost use Rattle.std.specs.Option.{option_map};
ghost use Rattle.std.specs.Ordering.{int_eq};
ghost use Rattle.term_trees.specs.contracts.term.PlacePartialEq.TheImpl as places;
ghost use Rattle.term_trees.specs.Same.{passes};
ghost use Rattle.term_logic.specs.Table.{tree_at};
ghost use Rattle.term_trees.specs.Views.{num_of, var_of, own_of, place_of, sum_of, difference_of, product_of, one_of, two_of, low_of, sext_of, sgn_of};

use crate::table::{TermCell, TermId, TermTable};
use term_trees::Place;
use wasm_values::NumOp;

/// What the term at a position is made of, by its outermost form.
impl TermTable {
    /// The number, where the term is one.
    pub fn num_of(&self, id: TermId) -> Option<i128>
        requires { id < length self.now }
        ensures { result ≡ num_of (tree_at self.now id) }
    {
        match self.cell(id) {
            TermCell::Num(n) => Some(*n),
            _ => None,
        }
    }

    /// The variable's number, where the term is one.
    pub fn var_of(&self, id: TermId) -> Option<u32>
        requires { id < length self.now }
        ensures { result ≡ var_of (tree_at self.now id) }
    {
        match self.cell(id) {
            TermCell::Var(k) => Some(*k),
            _ => None,
        }
    }

    /// The own variable's number, where the term is one.
    pub fn own_of(&self, id: TermId) -> Option<u32>
        requires { id < length self.now }
        ensures { result ≡ own_of (tree_at self.now id) }
    {
        match self.cell(id) {
            TermCell::Own(k) => Some(*k),
            _ => None,
        }
    }

    /// The place, where the term is one.
    pub fn place_of(&self, id: TermId) -> Option<Place>
        requires { id < length self.now }
        ensures { result ≡ place_of (tree_at self.now id) }
    {
        match self.cell(id) {
            TermCell::At(place) => Some(*place),
            _ => None,
        }
    }

    /// Whether the term is this number.
    pub fn is_num(&self, id: TermId, n: i128) -> bool
        requires { id < length self.now }
        ensures { result ≡ passes (num_of (tree_at self.now id)) (λ m. int_eq n m) }
    {
        match self.num_of(id) {
            Some(m) => n == m,
            None => false,
        }
    }

    /// Whether the term is the variable of this number.
    pub fn is_var(&self, id: TermId, k: u32) -> bool
        requires { id < length self.now }
        ensures { result ≡ passes (var_of (tree_at self.now id)) (λ j. k == j) }
    {
        match self.var_of(id) {
            Some(j) => k == j,
            None => false,
        }
    }

    /// Whether the term is the own variable of this number.
    pub fn is_own(&self, id: TermId, k: u32) -> bool
        requires { id < length self.now }
        ensures { result ≡ passes (own_of (tree_at self.now id)) (λ j. k == j) }
    {
        match self.own_of(id) {
            Some(j) => k == j,
            None => false,
        }
    }

    /// Whether the term is this place.
    pub fn is_place(&self, id: TermId, place: Place) -> bool
        requires { id < length self.now }
        ensures { result ≡ passes (place_of (tree_at self.now id)) (λ p. (places.ghosts).eq place p) }
    {
        match self.place_of(id) {
            Some(p) => place == p,
            None => false,
        }
    }

    /// The two parts of a sum.
    pub fn sum_of(&self, id: TermId) -> Option<(TermId, TermId)>
        requires { id < length self.now }
        ensures parts { option_map (λ p. (tree_at self.now p.0, tree_at self.now p.1)) result ≡ sum_of (tree_at self.now id) }
        ensures within { IfSome result (λ p. (p.0 < length self.now) × (p.1 < length self.now)) }
    {
        match self.cell(id) {
            TermCell::Add(a, b) => Some((*a, *b)),
            _ => None,
        }
    }

    /// The two parts of a difference.
    pub fn difference_of(&self, id: TermId) -> Option<(TermId, TermId)>
        requires { id < length self.now }
        ensures parts { option_map (λ p. (tree_at self.now p.0, tree_at self.now p.1)) result ≡ difference_of (tree_at self.now id) }
        ensures within { IfSome result (λ p. (p.0 < length self.now) × (p.1 < length self.now)) }
    {
        match self.cell(id) {
            TermCell::Sub(a, b) => Some((*a, *b)),
            _ => None,
        }
    }

    /// The two sides of a product.
    pub fn product_of(&self, id: TermId) -> Option<(TermId, TermId)>
        requires { id < length self.now }
        ensures parts { option_map (λ p. (tree_at self.now p.0, tree_at self.now p.1)) result ≡ product_of (tree_at self.now id) }
        ensures within { IfSome result (λ p. (p.0 < length self.now) × (p.1 < length self.now)) }
    {
        match self.cell(id) {
            TermCell::Mul(a, b) => Some((*a, *b)),
            _ => None,
        }
    }

    /// The operator and the operand of a term with one.
    pub fn one_of(&self, id: TermId) -> Option<(NumOp, TermId)>
        requires { id < length self.now }
        ensures parts { option_map (λ p. (p.0, tree_at self.now p.1)) result ≡ one_of (tree_at self.now id) }
        ensures within { IfSome result (λ p. p.1 < length self.now) }
    {
        match self.cell(id) {
            TermCell::One(op, a) => Some((*op, *a)),
            _ => None,
        }
    }

    /// The operator and the operands of a term with two.
    pub fn two_of(&self, id: TermId) -> Option<(NumOp, TermId, TermId)>
        requires { id < length self.now }
        ensures parts { option_map (λ p. (p.0, tree_at self.now p.1, tree_at self.now p.2)) result ≡ two_of (tree_at self.now id) }
        ensures within { IfSome result (λ p. (p.1 < length self.now) × (p.2 < length self.now)) }
    {
        match self.cell(id) {
            TermCell::Two(op, a, b) => Some((*op, *a, *b)),
            _ => None,
        }
    }

    /// The number of bits that are kept, and what they are kept of.
    pub fn low_of(&self, id: TermId) -> Option<(u32, TermId)>
        requires { id < length self.now }
        ensures parts { option_map (λ p. (p.0, tree_at self.now p.1)) result ≡ low_of (tree_at self.now id) }
        ensures within { IfSome result (λ p. p.1 < length self.now) }
    {
        match self.cell(id) {
            TermCell::Low(k, a) => Some((*k, *a)),
            _ => None,
        }
    }

    /// The two widths of a sign extension, and what is extended.
    pub fn sext_of(&self, id: TermId) -> Option<(u32, u32, TermId)>
        requires { id < length self.now }
        ensures parts { option_map (λ p. (p.0, p.1, tree_at self.now p.2)) result ≡ sext_of (tree_at self.now id) }
        ensures within { IfSome result (λ p. p.2 < length self.now) }
    {
        match self.cell(id) {
            TermCell::Sext(k, n, a) => Some((*k, *n, *a)),
            _ => None,
        }
    }

    /// The width of a signed reading, and what is read.
    pub fn sgn_of(&self, id: TermId) -> Option<(u32, TermId)>
        requires { id < length self.now }
        ensures parts { option_map (λ p. (p.0, tree_at self.now p.1)) result ≡ sgn_of (tree_at self.now id) }
        ensures within { IfSome result (λ p. p.1 < length self.now) }
    {
        match self.cell(id) {
            TermCell::Sgn(n, a) => Some((*n, *a)),
            _ => None,
        }
    }
}
