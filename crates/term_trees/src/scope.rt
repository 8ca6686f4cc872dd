ghost use Rattle.std.specs.Prelude.{◌≡◌, ℕ};
ghost use Rattle.term_trees.specs.Scopes.{Scope, in_scope, formula_in_scope, bounded_scope};

use crate::term::{Formula, Place, Term};

/// What tells which leaves there are.
pub trait Scoped {
    // The leaves that there are.
    ghost scope: { Self → Scope };

    fn has_variable(&self, k: u32) -> bool
        ensures { result ≡ (scope self.now).variable k };

    fn has_own(&self, k: u32) -> bool
        ensures { result ≡ (scope self.now).own k };

    fn has_place(&self, place: Place) -> bool
        ensures { result ≡ (scope self.now).place place };
}

/// The first variables, the first own variables, and some places.
#[derive(Clone, Copy)]
pub struct Bounds<'a> {
    pub variables: u32,
    pub own: u32,
    pub places: &'a [Place],
}

impl Scoped for Bounds<'_> {
    ghost scope = { bounded_scope };

    fn has_variable(&self, k: u32) -> bool {
        k < self.variables
    }

    fn has_own(&self, k: u32) -> bool {
        k < self.own
    }

    fn has_place(&self, place: Place) -> bool {
        self.places.iter().any(|p| *p == place)
    }
}

/// Whether the leaves of a term are among those that there are.
pub fn in_scope<S: Scoped>(t: &Term, scope: &S) -> bool
    ensures { result ≡ in_scope (S.scope scope.now) t.now }
{
    match t {
        Term::Num(_) => true,
        Term::Var(k) => scope.has_variable(*k),
        Term::Own(k) => scope.has_own(*k),
        Term::At(place) => scope.has_place(*place),
        Term::One(_, a) | Term::Low(_, a) | Term::Sext(_, _, a) | Term::Sgn(_, a) => {
            in_scope(a.get(), scope)
        }
        Term::Add(a, b) | Term::Sub(a, b) | Term::Mul(a, b) | Term::Two(_, a, b) => {
            in_scope(a.get(), scope) && in_scope(b.get(), scope)
        }
    }
}

/// Whether the leaves of a formula are among those that there are.
pub fn formula_in_scope<S: Scoped>(f: &Formula, scope: &S) -> bool
    ensures { result ≡ formula_in_scope (S.scope scope.now) f.now }
{
    match f {
        Formula::True | Formula::False => true,
        Formula::Eq(a, b) | Formula::Le(a, b) | Formula::Lt(a, b) => {
            in_scope(a, scope) && in_scope(b, scope)
        }
        Formula::Not(f) => formula_in_scope(f.get(), scope),
        Formula::And(f, g) | Formula::Or(f, g) | Formula::Imp(f, g) => {
            formula_in_scope(f.get(), scope) && formula_in_scope(g.get(), scope)
        }
    }
}
