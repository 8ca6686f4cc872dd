//! The first reason in a term or a formula.

ghost use Rattle.std.specs.Prelude.{◌≡◌};
ghost use Rattle.std.specs.Option.{option_or};
ghost use Rattle.outline_rules.specs.Tests.{LeafTest, first_reason, formula_reason};

use notes::Reason;
use term_trees::{Formula, Place, Term};

/// What tells why an own variable or a place may not stand somewhere.
pub(crate) trait Leaf {
    // These reasons.
    ghost test: { Self → LeafTest };

    fn own_reason(&self, k: u32) -> Option<Reason>
        ensures { result ≡ (test self.now).own k };

    fn place_reason(&self, place: Place) -> Option<Reason>
        ensures { result ≡ (test self.now).place place };
}

/// The first reason in a term.
pub(crate) fn first_reason<L: Leaf>(t: &Term, leaf: &L) -> Option<Reason>
    ensures { result ≡ first_reason (L.test leaf.now) t.now }
{
    match t {
        Term::Num(_) => None,
        Term::Var(_) => Some(Reason::Scope),
        Term::Own(k) => leaf.own_reason(*k),
        Term::At(place) => leaf.place_reason(*place),
        Term::One(_, a) | Term::Low(_, a) | Term::Sext(_, _, a) | Term::Sgn(_, a) => {
            first_reason(a.get(), leaf)
        }
        Term::Add(a, b) | Term::Sub(a, b) | Term::Mul(a, b) | Term::Two(_, a, b) => {
            match first_reason(a.get(), leaf) {
                Some(why) => Some(why),
                None => first_reason(b.get(), leaf),
            }
        }
    }
}

/// The first reason in two terms.
pub(crate) fn either_reason<L: Leaf>(a: &Term, b: &Term, leaf: &L) -> Option<Reason>
    ensures { result ≡ option_or (first_reason (L.test leaf.now) a.now) (first_reason (L.test leaf.now) b.now) }
{
    match first_reason(a, leaf) {
        Some(why) => Some(why),
        None => first_reason(b, leaf),
    }
}

/// The first reason in a formula.
pub(crate) fn formula_reason<L: Leaf>(f: &Formula, leaf: &L) -> Option<Reason>
    ensures { result ≡ formula_reason (L.test leaf.now) f.now }
{
    match f {
        Formula::True | Formula::False => None,
        Formula::Eq(a, b) | Formula::Le(a, b) | Formula::Lt(a, b) => either_reason(a, b, leaf),
        Formula::Not(f) => formula_reason(f.get(), leaf),
        Formula::And(f, g) | Formula::Or(f, g) | Formula::Imp(f, g) => {
            match formula_reason(f.get(), leaf) {
                Some(why) => Some(why),
                None => formula_reason(g.get(), leaf),
            }
        }
    }
}
