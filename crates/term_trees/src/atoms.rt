ghost use Rattle.std.specs.Prelude.{◌≡◌};
ghost use Rattle.term_trees.specs.declared.term.Term.{Term};
ghost use Rattle.term_trees.specs.Same.{same};

use crate::same::same_term;
use crate::term::Term;

/// What knows the terms that values of `X` stand for, and tells whether two of them are the same.
pub trait Atoms<X: Copy> {
    // The term that a value stands for.
    ghost tree: { Self → X → Term };

    // That the value stands for one.
    ghost Within: { Self → X → Type 0 };

    /// Whether two values stand for the same term.
    fn same(&self, a: X, b: X) -> bool
        requires first { Within self.now a }
        requires second { Within self.now b }
        ensures { result ≡ same (tree self.now a) (tree self.now b) };
}

/// Terms that are lent as trees: a reference stands for what it points to.
pub(crate) struct Lent;

impl<'a> Atoms<&'a Term> for Lent {
    ghost tree = { λ _ t. t.now };

    ghost Within = { λ _ _. Unit {0} };

    fn same(&self, a: &'a Term, b: &'a Term) -> bool {
        same_term(a, b)
    }
}
