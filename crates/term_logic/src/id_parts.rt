ghost use Rattle.std.specs.Prelude.{◌≡◌, ◌<◌, length};
ghost use Rattle.term_trees.specs.declared.term.Term.{out-Term};
ghost use Rattle.term_logic.specs.Table.{cell_layer, tree_at};
ghost use Rattle.term_logic.specs.words.Parts.{given_id, with_parts, IdPartsOf, IdPartsBelow};

use crate::leaves::LeafIds;
use crate::table::{TermCell, TermId, TermTable};

/// What the outermost node of a term of a table stands over.
pub(crate) enum IdParts {
    Leaf,
    One(TermId),
    Two(TermId, TermId),
}

impl TermTable {
    /// The parts of the outermost node of the term at a position.
    pub(crate) fn parts_at(&self, id: TermId) -> IdParts
        requires { id < length self.now }
        ensures parts { IdPartsOf self.now (out-Term (tree_at self.now id)) result }
        ensures earlier { IdPartsBelow id result }
    {
        match self.cell(id) {
            TermCell::Num(_) | TermCell::Var(_) | TermCell::Own(_) | TermCell::At(_) => {
                IdParts::Leaf
            }
            TermCell::One(_, a)
            | TermCell::Low(_, a)
            | TermCell::Sext(_, _, a)
            | TermCell::Sgn(_, a) => IdParts::One(*a),
            TermCell::Add(a, b)
            | TermCell::Sub(a, b)
            | TermCell::Mul(a, b)
            | TermCell::Two(_, a, b) => IdParts::Two(*a, *b),
        }
    }

    /// The position that is given for the term at a position, where it is a leaf that has one.
    pub(crate) fn given_at(&self, id: TermId, leaves: &LeafIds<'_>) -> Option<TermId>
        requires { id < length self.now }
        ensures { result ≡ given_id leaves.now (tree_at self.now id) }
    {
        match self.cell(id) {
            TermCell::Var(k) => leaves.variable(*k),
            TermCell::Own(k) => leaves.own(*k),
            TermCell::At(place) => leaves.place(*place),
            _ => None,
        }
    }
}

impl TermCell {
    /// The node over these positions: over the first, where it has one part.
    pub(crate) fn over(&self, a: TermId, b: TermId) -> TermCell
        ensures { cell_layer result ≡ with_parts a b (cell_layer self.now) }
    {
        match self {
            TermCell::Num(n) => TermCell::Num(*n),
            TermCell::Var(k) => TermCell::Var(*k),
            TermCell::Own(k) => TermCell::Own(*k),
            TermCell::At(place) => TermCell::At(*place),
            TermCell::Add(_, _) => TermCell::Add(a, b),
            TermCell::Sub(_, _) => TermCell::Sub(a, b),
            TermCell::Mul(_, _) => TermCell::Mul(a, b),
            TermCell::One(op, _) => TermCell::One(*op, a),
            TermCell::Two(op, _, _) => TermCell::Two(*op, a, b),
            TermCell::Low(k, _) => TermCell::Low(*k, a),
            TermCell::Sext(k, n, _) => TermCell::Sext(*k, *n, a),
            TermCell::Sgn(n, _) => TermCell::Sgn(*n, a),
        }
    }
}
