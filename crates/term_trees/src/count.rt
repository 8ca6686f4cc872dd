ghost use Rattle.std.specs.Prelude.{◌≡◌, min};
ghost use Rattle.term_trees.specs.Terms.{node_count};
ghost use Rattle.term_trees.specs.Formulas.{formula_nodes};

use crate::term::{Formula, Term};

/// The nodes of the tree, or the last `usize` where there are more.
pub fn nodes(t: &Term) -> usize
    ensures { result ≡ min (node_count t.now) usize.MAX }
{
    match t {
        Term::Num(_) | Term::Var(_) | Term::Own(_) | Term::At(_) => 1,
        Term::One(_, a) | Term::Low(_, a) | Term::Sext(_, _, a) | Term::Sgn(_, a) => {
            nodes(a.get()).saturating_add(1)
        }
        Term::Add(a, b) | Term::Sub(a, b) | Term::Mul(a, b) | Term::Two(_, a, b) => nodes(a.get())
            .saturating_add(nodes(b.get()))
            .saturating_add(1),
    }
}

/// The nodes of the formula, or the last `usize` where there are more.
pub fn formula_nodes(f: &Formula) -> usize
    ensures { result ≡ min (formula_nodes f.now) usize.MAX }
{
    match f {
        Formula::True | Formula::False => 1,
        Formula::Eq(a, b) | Formula::Le(a, b) | Formula::Lt(a, b) => {
            nodes(a).saturating_add(nodes(b)).saturating_add(1)
        }
        Formula::Not(f) => formula_nodes(f.get()).saturating_add(1),
        Formula::And(f, g) | Formula::Or(f, g) | Formula::Imp(f, g) => formula_nodes(f.get())
            .saturating_add(formula_nodes(g.get()))
            .saturating_add(1),
    }
}
