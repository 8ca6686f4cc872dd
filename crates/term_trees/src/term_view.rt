ghost use Rattle.std.specs.Prelude.{◌≡◌};
ghost use Rattle.std.specs.Option.{option_map};
ghost use Rattle.term_trees.specs.Views.{num_of, var_of, own_of, place_of, sum_of, difference_of, product_of, one_of, two_of, low_of, sext_of, sgn_of};

use crate::term::{Place, Term};
use wasm_values::NumOp;

/// What a term is made of, by its outermost form.
impl Term {
    /// The number, where the term is one.
    pub fn num_of(&self) -> Option<i128>
        ensures { result ≡ num_of self.now }
    {
        match self {
            Term::Num(n) => Some(*n),
            _ => None,
        }
    }

    /// The variable's number, where the term is one.
    pub fn var_of(&self) -> Option<u32>
        ensures { result ≡ var_of self.now }
    {
        match self {
            Term::Var(k) => Some(*k),
            _ => None,
        }
    }

    /// The own variable's number, where the term is one.
    pub fn own_of(&self) -> Option<u32>
        ensures { result ≡ own_of self.now }
    {
        match self {
            Term::Own(k) => Some(*k),
            _ => None,
        }
    }

    /// The place, where the term is one.
    pub fn place_of(&self) -> Option<Place>
        ensures { result ≡ place_of self.now }
    {
        match self {
            Term::At(place) => Some(*place),
            _ => None,
        }
    }

    /// The two parts of a sum.
    pub fn sum_of(&self) -> Option<(&Term, &Term)>
        ensures { option_map (λ p. (p.0.now, p.1.now)) result ≡ sum_of self.now }
    {
        match self {
            Term::Add(a, b) => Some((a.get(), b.get())),
            _ => None,
        }
    }

    /// The two parts of a difference.
    pub fn difference_of(&self) -> Option<(&Term, &Term)>
        ensures { option_map (λ p. (p.0.now, p.1.now)) result ≡ difference_of self.now }
    {
        match self {
            Term::Sub(a, b) => Some((a.get(), b.get())),
            _ => None,
        }
    }

    /// The two sides of a product.
    pub fn product_of(&self) -> Option<(&Term, &Term)>
        ensures { option_map (λ p. (p.0.now, p.1.now)) result ≡ product_of self.now }
    {
        match self {
            Term::Mul(a, b) => Some((a.get(), b.get())),
            _ => None,
        }
    }

    /// The operator and the operand of a term with one.
    pub fn one_of(&self) -> Option<(NumOp, &Term)>
        ensures { option_map (λ p. (p.0, p.1.now)) result ≡ one_of self.now }
    {
        match self {
            Term::One(op, a) => Some((*op, a.get())),
            _ => None,
        }
    }

    /// The operator and the operands of a term with two.
    pub fn two_of(&self) -> Option<(NumOp, &Term, &Term)>
        ensures { option_map (λ p. (p.0, p.1.now, p.2.now)) result ≡ two_of self.now }
    {
        match self {
            Term::Two(op, a, b) => Some((*op, a.get(), b.get())),
            _ => None,
        }
    }

    /// The number of bits that are kept, and what they are kept of.
    pub fn low_of(&self) -> Option<(u32, &Term)>
        ensures { option_map (λ p. (p.0, p.1.now)) result ≡ low_of self.now }
    {
        match self {
            Term::Low(k, a) => Some((*k, a.get())),
            _ => None,
        }
    }

    /// The two widths of a sign extension, and what is extended.
    pub fn sext_of(&self) -> Option<(u32, u32, &Term)>
        ensures { option_map (λ p. (p.0, p.1, p.2.now)) result ≡ sext_of self.now }
    {
        match self {
            Term::Sext(k, n, a) => Some((*k, *n, a.get())),
            _ => None,
        }
    }

    /// The width of a signed reading, and what is read.
    pub fn sgn_of(&self) -> Option<(u32, &Term)>
        ensures { option_map (λ p. (p.0, p.1.now)) result ≡ sgn_of self.now }
    {
        match self {
            Term::Sgn(n, a) => Some((*n, a.get())),
            _ => None,
        }
    }
}
