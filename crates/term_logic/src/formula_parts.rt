ghost use Rattle.std.specs.Prelude.{◌≡◌};
ghost use Rattle.term_logic.specs.words.FormulaParts.{compared_ids, joined_ids, made_of};

use crate::formula::IdFormula;
use crate::table::TermId;
use term_trees::{Boxed, Formula, Term};

/// How a formula compares two terms: `=`, `<=` or `<`.
#[derive(Clone, Copy)]
pub(crate) enum Relation {
    Equal,
    AtMost,
    Below,
}

/// How a formula joins two: `and`, `or` or `imp`.
#[derive(Clone, Copy)]
pub(crate) enum Connective {
    Both,
    Either,
    Follows,
}

/// A formula by its outermost form.
pub(crate) enum FormulaParts<'a> {
    True,
    False,
    Compared(Relation, &'a Term, &'a Term),
    Not(&'a Formula),
    Joined(Connective, &'a Formula, &'a Formula),
}

/// The parts that the formula is made of.
pub(crate) fn parts_of_formula(f: &Formula) -> FormulaParts<'_>
    ensures { made_of result ≡ f.now }
{
    match f {
        Formula::True => FormulaParts::True,
        Formula::False => FormulaParts::False,
        Formula::Eq(a, b) => FormulaParts::Compared(Relation::Equal, a, b),
        Formula::Le(a, b) => FormulaParts::Compared(Relation::AtMost, a, b),
        Formula::Lt(a, b) => FormulaParts::Compared(Relation::Below, a, b),
        Formula::Not(f) => FormulaParts::Not(f.get()),
        Formula::And(f, g) => FormulaParts::Joined(Connective::Both, f.get(), g.get()),
        Formula::Or(f, g) => FormulaParts::Joined(Connective::Either, f.get(), g.get()),
        Formula::Imp(f, g) => FormulaParts::Joined(Connective::Follows, f.get(), g.get()),
    }
}

impl Relation {
    /// The claim on two positions.
    pub(crate) fn over(self, a: TermId, b: TermId) -> IdFormula
        ensures { result ≡ compared_ids self a b }
    {
        match self {
            Relation::Equal => IdFormula::Eq(a, b),
            Relation::AtMost => IdFormula::Le(a, b),
            Relation::Below => IdFormula::Lt(a, b),
        }
    }
}

impl Connective {
    /// The formula that joins two.
    pub(crate) fn over(self, f: Boxed<IdFormula>, g: Boxed<IdFormula>) -> IdFormula
        ensures { result ≡ joined_ids self f g }
    {
        match self {
            Connective::Both => IdFormula::And(f, g),
            Connective::Either => IdFormula::Or(f, g),
            Connective::Follows => IdFormula::Imp(f, g),
        }
    }
}
