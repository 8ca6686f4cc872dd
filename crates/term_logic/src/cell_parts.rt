ghost use Rattle.std.specs.Prelude.{◌≡◌};
ghost use Rattle.term_logic.specs.words.CellParts.{one_tree, two_tree, made_cell};

use crate::table::{TermCell, TermId};
use term_trees::{Boxed, Place, Term};
use wasm_values::NumOp;

/// What stands over one part.
#[derive(Clone, Copy)]
pub(crate) enum OverOne {
    One(NumOp),
    Low(u32),
    Sext(u32, u32),
    Sgn(u32),
}

/// What stands over two parts.
#[derive(Clone, Copy)]
pub(crate) enum OverTwo {
    Add,
    Sub,
    Mul,
    Two(NumOp),
}

/// A cell by the number of its parts.
pub(crate) enum CellParts {
    Num(i128),
    Var(u32),
    Own(u32),
    At(Place),
    One(OverOne, TermId),
    Two(OverTwo, TermId, TermId),
}

/// The parts that the cell is made of.
pub(crate) fn parts_of_cell(cell: &TermCell) -> CellParts
    ensures { made_cell result ≡ cell.now }
{
    match cell {
        TermCell::Num(n) => CellParts::Num(*n),
        TermCell::Var(k) => CellParts::Var(*k),
        TermCell::Own(k) => CellParts::Own(*k),
        TermCell::At(place) => CellParts::At(*place),
        TermCell::Add(a, b) => CellParts::Two(OverTwo::Add, *a, *b),
        TermCell::Sub(a, b) => CellParts::Two(OverTwo::Sub, *a, *b),
        TermCell::Mul(a, b) => CellParts::Two(OverTwo::Mul, *a, *b),
        TermCell::Two(op, a, b) => CellParts::Two(OverTwo::Two(*op), *a, *b),
        TermCell::One(op, a) => CellParts::One(OverOne::One(*op), *a),
        TermCell::Low(k, a) => CellParts::One(OverOne::Low(*k), *a),
        TermCell::Sext(k, n, a) => CellParts::One(OverOne::Sext(*k, *n), *a),
        TermCell::Sgn(n, a) => CellParts::One(OverOne::Sgn(*n), *a),
    }
}

impl OverOne {
    /// The term over one part.
    pub(crate) fn over(self, a: Boxed<Term>) -> Term
        ensures { result ≡ one_tree self a }
    {
        match self {
            OverOne::One(op) => Term::One(op, a),
            OverOne::Low(k) => Term::Low(k, a),
            OverOne::Sext(k, n) => Term::Sext(k, n, a),
            OverOne::Sgn(n) => Term::Sgn(n, a),
        }
    }
}

impl OverTwo {
    /// The term over two parts.
    pub(crate) fn over(self, a: Boxed<Term>, b: Boxed<Term>) -> Term
        ensures { result ≡ two_tree self a b }
    {
        match self {
            OverTwo::Add => Term::Add(a, b),
            OverTwo::Sub => Term::Sub(a, b),
            OverTwo::Mul => Term::Mul(a, b),
            OverTwo::Two(op) => Term::Two(op, a, b),
        }
    }
}
