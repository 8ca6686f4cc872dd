ghost use Rattle.std.specs.Prelude.{◌≡◌};
ghost use Rattle.term_logic.specs.words.FormulaParts.{compared, joined, made_of_ids};

use crate::formula::IdFormula;
use crate::formula_parts::{Connective, Relation};
use crate::table::TermId;
use term_trees::{Boxed, Formula, Term};

/// A formula over a table by its outermost form.
pub(crate) enum IdFormulaParts<'a> {
    True,
    False,
    Compared(Relation, TermId, TermId),
    Not(&'a IdFormula),
    Joined(Connective, &'a IdFormula, &'a IdFormula),
}

/// The parts that the formula is made of.
pub(crate) fn parts_of_ids(f: &IdFormula) -> IdFormulaParts<'_>
    ensures { made_of_ids result ≡ f.now }
{
    match f {
        IdFormula::True => IdFormulaParts::True,
        IdFormula::False => IdFormulaParts::False,
        IdFormula::Eq(a, b) => IdFormulaParts::Compared(Relation::Equal, *a, *b),
        IdFormula::Le(a, b) => IdFormulaParts::Compared(Relation::AtMost, *a, *b),
        IdFormula::Lt(a, b) => IdFormulaParts::Compared(Relation::Below, *a, *b),
        IdFormula::Not(f) => IdFormulaParts::Not(f.get()),
        IdFormula::And(f, g) => IdFormulaParts::Joined(Connective::Both, f.get(), g.get()),
        IdFormula::Or(f, g) => IdFormulaParts::Joined(Connective::Either, f.get(), g.get()),
        IdFormula::Imp(f, g) => IdFormulaParts::Joined(Connective::Follows, f.get(), g.get()),
    }
}

impl Relation {
    /// The claim on two terms.
    pub(crate) fn claim(self, a: Term, b: Term) -> Formula
        ensures { result ≡ compared self a b }
    {
        match self {
            Relation::Equal => Formula::Eq(a, b),
            Relation::AtMost => Formula::Le(a, b),
            Relation::Below => Formula::Lt(a, b),
        }
    }
}

impl Connective {
    /// The tree that joins two.
    pub(crate) fn claim(self, f: Boxed<Formula>, g: Boxed<Formula>) -> Formula
        ensures { result ≡ joined self f g }
    {
        match self {
            Connective::Both => Formula::And(f, g),
            Connective::Either => Formula::Or(f, g),
            Connective::Follows => Formula::Imp(f, g),
        }
    }
}
