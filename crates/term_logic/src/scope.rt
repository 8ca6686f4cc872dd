ghost use Rattle.std.specs.Prelude.{◌≡◌, ◌<◌, ◌≤◌, length};
ghost use Rattle.term_trees.specs.Scopes.{in_scope, formula_in_scope};
ghost use Rattle.term_logic.specs.Table.{tree_at};
ghost use Rattle.term_logic.specs.Formulas.{formula_bound, formula_of};
ghost use Rattle.term_logic.specs.Scopes.{leaf_scope};
ghost use Rattle.term_logic.specs.words.Scopes.{scope_of};

use crate::formula::IdFormula;
use crate::id_formula_parts::{IdFormulaParts, parts_of_ids};
use crate::leaves::LeafIds;
use crate::table::{TermCell, TermId, TermTable};
use term_trees::{Place, Scoped};

/// The leaves that have a term, and the first variables, which stand for themselves.
#[derive(Clone, Copy)]
pub struct LeafScope<'a> {
    pub variables: u32,
    pub leaves: &'a LeafIds<'a>,
}

impl Scoped for LeafScope<'_> {
    ghost scope = { leaf_scope };

    fn has_variable(&self, k: u32) -> bool {
        k < self.variables || self.leaves.variable(k).is_some()
    }

    fn has_own(&self, k: u32) -> bool {
        self.leaves.own(k).is_some()
    }

    fn has_place(&self, place: Place) -> bool {
        self.leaves.place(place).is_some()
    }
}

impl TermTable {
    #[tactic(auto, using(crate::proofs::ScopeCells::cell_scopes))]
    fn test_scope<S: Scoped>(&self, id: TermId, scope: &S) -> bool
        requires { id < length self.now }
        ensures { result ≡ scope_of (S.scope scope.now) (tree_at self.now id) }
    {
        match self.cell(id) {
            TermCell::Num(_) => true,
            TermCell::Var(k) => scope.has_variable(*k),
            TermCell::Own(k) => scope.has_own(*k),
            TermCell::At(place) => scope.has_place(*place),
            TermCell::One(_, a)
            | TermCell::Low(_, a)
            | TermCell::Sext(_, _, a)
            | TermCell::Sgn(_, a) => self.test_scope(*a, scope),
            TermCell::Add(a, b)
            | TermCell::Sub(a, b)
            | TermCell::Mul(a, b)
            | TermCell::Two(_, a, b) => self.test_scope(*a, scope) && self.test_scope(*b, scope),
        }
    }

    /// Whether the leaves of the term at a position are among those that there are.
    pub fn id_in_scope<S: Scoped>(&self, id: TermId, scope: &S) -> bool
        requires { id < length self.now }
        ensures { result ≡ in_scope (S.scope scope.now) (tree_at self.now id) }
    {
        self.test_scope(id, scope)
    }

    /// Whether the leaves of a formula over the table are among those that there are.
    pub fn id_formula_in_scope<S: Scoped>(&self, f: &IdFormula, scope: &S) -> bool
        requires { formula_bound f.now ≤ length self.now }
        ensures { result ≡ formula_in_scope (S.scope scope.now) (formula_of self.now f.now) }
    {
        match parts_of_ids(f) {
            IdFormulaParts::True => true,
            IdFormulaParts::False => true,
            IdFormulaParts::Compared(_, a, b) => {
                self.id_in_scope(a, scope) && self.id_in_scope(b, scope)
            }
            IdFormulaParts::Not(f) => self.id_formula_in_scope(f, scope),
            IdFormulaParts::Joined(_, f, g) => {
                self.id_formula_in_scope(f, scope) && self.id_formula_in_scope(g, scope)
            }
        }
    }
}
