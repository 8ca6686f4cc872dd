ghost use Rattle.std.specs.Prelude.{◌≡◌};
ghost use Rattle.term_trees.specs.declared.term.Term.{out-Term};
ghost use Rattle.term_logic.specs.Table.{cell_layer};
ghost use Rattle.term_logic.specs.words.Parts.{given_id, with_parts, PartsOf};

use crate::leaves::LeafIds;
use crate::table::{TermCell, TermId};
use term_trees::Term;

/// What the outermost node of a term stands over.
pub(crate) enum Parts<'a> {
    Leaf(TermCell),
    One(&'a Term),
    Two(&'a Term, &'a Term),
}

impl LeafIds<'_> {
    /// The position that is given for the term, where it is a leaf that has one.
    pub(crate) fn given(&self, t: &Term) -> Option<TermId>
        ensures { result ≡ given_id self.now t.now }
    {
        match t {
            Term::Var(k) => self.variable(*k),
            Term::Own(k) => self.own(*k),
            Term::At(place) => self.place(*place),
            _ => None,
        }
    }
}

/// The parts of the term's outermost node.
pub(crate) fn parts_of_term(t: &Term) -> Parts<'_>
    ensures { PartsOf (out-Term t.now) result }
{
    match t {
        Term::Num(n) => Parts::Leaf(TermCell::Num(*n)),
        Term::Var(k) => Parts::Leaf(TermCell::Var(*k)),
        Term::Own(k) => Parts::Leaf(TermCell::Own(*k)),
        Term::At(place) => Parts::Leaf(TermCell::At(*place)),
        Term::One(_, a) | Term::Low(_, a) | Term::Sext(_, _, a) | Term::Sgn(_, a) => {
            Parts::One(a.get())
        }
        Term::Add(a, b) | Term::Sub(a, b) | Term::Mul(a, b) | Term::Two(_, a, b) => {
            Parts::Two(a.get(), b.get())
        }
    }
}

/// The node of the term over these positions: over the first, where it has one part.
pub(crate) fn cell_over(t: &Term, a: TermId, b: TermId) -> TermCell
    ensures { cell_layer result ≡ with_parts a b (out-Term t.now) }
{
    match t {
        Term::Num(n) => TermCell::Num(*n),
        Term::Var(k) => TermCell::Var(*k),
        Term::Own(k) => TermCell::Own(*k),
        Term::At(place) => TermCell::At(*place),
        Term::Add(_, _) => TermCell::Add(a, b),
        Term::Sub(_, _) => TermCell::Sub(a, b),
        Term::Mul(_, _) => TermCell::Mul(a, b),
        Term::One(op, _) => TermCell::One(*op, a),
        Term::Two(op, _, _) => TermCell::Two(*op, a, b),
        Term::Low(k, _) => TermCell::Low(*k, a),
        Term::Sext(k, n, _) => TermCell::Sext(*k, *n, a),
        Term::Sgn(n, _) => TermCell::Sgn(*n, a),
    }
}
