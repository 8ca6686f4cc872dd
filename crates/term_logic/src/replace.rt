ghost use Rattle.std.specs.Prelude.{◌≡◌, ◌+◌, ◌<◌, ◌≤◌, ◌&&◌, length, min, IfOk, IsTrue};
ghost use Rattle.term_trees.specs.Terms.{node_count, well_formed};
ghost use Rattle.term_logic.specs.Table.{tree_at};
ghost use Rattle.term_logic.specs.Extends.{Extends};
ghost use Rattle.term_trees.specs.Leaves.{replaced, replaced_formula};
ghost use Rattle.term_logic.specs.Leaves.{LeavesWithin, leaves_of};

use crate::formula::IdFormula;
use crate::formula_parts::{FormulaParts, parts_of_formula};
use crate::leaves::LeafIds;
use crate::parts::{Parts, cell_over, parts_of_term};
use crate::table::{TermId, TermTable};
use term_trees::{Boxed, Formula, Term};
use wasm_values::OutOfMemory;

impl TermTable {
    /// The nodes of the term once its leaves are replaced, or the last `usize` where there are more.
    pub fn replaced_nodes(&self, t: &Term, leaves: &LeafIds<'_>) -> usize
        requires { LeavesWithin (length self.now) leaves.now }
        ensures { result ≡ min (node_count (replaced (leaves_of self.now leaves.now) t.now)) usize.MAX }
    {
        match t {
            Term::Num(_) => 1,
            Term::Var(k) => match leaves.variable(*k) {
                Some(id) => self.nodes_of(id) as usize,
                None => 1,
            },
            Term::Own(k) => match leaves.own(*k) {
                Some(id) => self.nodes_of(id) as usize,
                None => 1,
            },
            Term::At(place) => match leaves.place(*place) {
                Some(id) => self.nodes_of(id) as usize,
                None => 1,
            },
            Term::One(_, a) | Term::Low(_, a) | Term::Sext(_, _, a) | Term::Sgn(_, a) => {
                self.replaced_nodes(a.get(), leaves).saturating_add(1)
            }
            Term::Add(a, b) | Term::Sub(a, b) | Term::Mul(a, b) | Term::Two(_, a, b) => self
                .replaced_nodes(a.get(), leaves)
                .saturating_add(self.replaced_nodes(b.get(), leaves))
                .saturating_add(1),
        }
    }

    #[cycle(replace)]
    fn put_two_replaced(
        &mut self,
        a: &Term,
        b: &Term,
        leaves: &LeafIds<'_>,
    ) -> Result<(TermId, TermId), OutOfMemory>
        requires leaves { LeavesWithin (length self.old) leaves.now }
        requires small { node_count (replaced (leaves_of self.old leaves.now) a.now) + node_count (replaced (leaves_of self.old leaves.now) b.now) ≤ 4096 }
        requires well_formed { IsTrue (well_formed a.now && well_formed b.now) }
        ensures within { IfOk result (λ p. (p.0 < length self.new) × (p.1 < length self.new)) }
        ensures first { IfOk result (λ p. tree_at self.new p.0 ≡ replaced (leaves_of self.old leaves.now) a.now) }
        ensures second { IfOk result (λ p. tree_at self.new p.1 ≡ replaced (leaves_of self.old leaves.now) b.now) }
        ensures kept { Extends self.old self.new }
    {
        let first = self.put_replaced(a, leaves)?;
        let second = self.put_replaced(b, leaves)?;
        Ok((first, second))
    }

    /// The position of a tree, once its leaves are replaced. Terms that the table lacks are added.
    #[cycle(replace)]
    pub fn put_replaced(&mut self, t: &Term, leaves: &LeafIds<'_>) -> Result<TermId, OutOfMemory>
        requires leaves { LeavesWithin (length self.old) leaves.now }
        requires small { node_count (replaced (leaves_of self.old leaves.now) t.now) ≤ 4096 }
        requires well_formed { IsTrue (well_formed t.now) }
        ensures within { IfOk result (λ id. id < length self.new) }
        ensures tree { IfOk result (λ id. tree_at self.new id ≡ replaced (leaves_of self.old leaves.now) t.now) }
        ensures kept { Extends self.old self.new }
    {
        match leaves.given(t) {
            Some(id) => return Ok(id),
            None => {}
        }
        match parts_of_term(t) {
            Parts::Leaf(cell) => self.intern(cell),
            Parts::One(a) => {
                let a = self.put_replaced(a, leaves)?;
                self.intern(cell_over(t, a, a))
            }
            Parts::Two(a, b) => {
                let (a, b) = self.put_two_replaced(a, b, leaves)?;
                self.intern(cell_over(t, a, b))
            }
        }
    }
}

impl TermTable {
    ghost use Rattle.term_trees.specs.Formulas.{formula_nodes, well_formed_formula};
    ghost use Rattle.term_logic.specs.Formulas.{formula_bound, formula_of};

    /// The nodes of the formula once its leaves are replaced, or the last `usize` where there are more.
    pub fn replaced_formula_nodes(&self, f: &Formula, leaves: &LeafIds<'_>) -> usize
        requires { LeavesWithin (length self.now) leaves.now }
        ensures { result ≡ min (formula_nodes (replaced_formula (leaves_of self.now leaves.now) f.now)) usize.MAX }
    {
        match f {
            Formula::True | Formula::False => 1,
            Formula::Eq(a, b) | Formula::Le(a, b) | Formula::Lt(a, b) => self
                .replaced_nodes(a, leaves)
                .saturating_add(self.replaced_nodes(b, leaves))
                .saturating_add(1),
            Formula::Not(f) => self
                .replaced_formula_nodes(f.get(), leaves)
                .saturating_add(1),
            Formula::And(f, g) | Formula::Or(f, g) | Formula::Imp(f, g) => self
                .replaced_formula_nodes(f.get(), leaves)
                .saturating_add(self.replaced_formula_nodes(g.get(), leaves))
                .saturating_add(1),
        }
    }

    #[cycle(replace_formulas)]
    fn put_boxed_formula(
        &mut self,
        f: &Formula,
        leaves: &LeafIds<'_>,
    ) -> Result<Boxed<IdFormula>, OutOfMemory>
        requires leaves { LeavesWithin (length self.old) leaves.now }
        requires small { formula_nodes (replaced_formula (leaves_of self.old leaves.now) f.now) ≤ 4096 }
        requires well_formed { IsTrue (well_formed_formula f.now) }
        ensures within { IfOk result (λ g. formula_bound g ≤ length self.new) }
        ensures tree { IfOk result (λ g. formula_of self.new g ≡ replaced_formula (leaves_of self.old leaves.now) f.now) }
        ensures kept { Extends self.old self.new }
    {
        let f = self.put_replaced_formula(f, leaves)?;
        Boxed::new(self.allocator(), f)
    }

    #[cycle(replace_formulas)]
    fn put_two_replaced_formulas(
        &mut self,
        f: &Formula,
        g: &Formula,
        leaves: &LeafIds<'_>,
    ) -> Result<(Boxed<IdFormula>, Boxed<IdFormula>), OutOfMemory>
        requires leaves { LeavesWithin (length self.old) leaves.now }
        requires small { formula_nodes (replaced_formula (leaves_of self.old leaves.now) f.now) + formula_nodes (replaced_formula (leaves_of self.old leaves.now) g.now) ≤ 4096 }
        requires well_formed { IsTrue (well_formed_formula f.now && well_formed_formula g.now) }
        ensures within { IfOk result (λ p. (formula_bound p.0 ≤ length self.new) × (formula_bound p.1 ≤ length self.new)) }
        ensures first { IfOk result (λ p. formula_of self.new p.0 ≡ replaced_formula (leaves_of self.old leaves.now) f.now) }
        ensures second { IfOk result (λ p. formula_of self.new p.1 ≡ replaced_formula (leaves_of self.old leaves.now) g.now) }
        ensures kept { Extends self.old self.new }
    {
        let f = self.put_boxed_formula(f, leaves)?;
        let g = self.put_boxed_formula(g, leaves)?;
        Ok((f, g))
    }

    /// The formula over the table, once the tree's leaves are replaced. Terms that the table lacks are added.
    #[cycle(replace_formulas)]
    pub fn put_replaced_formula(
        &mut self,
        f: &Formula,
        leaves: &LeafIds<'_>,
    ) -> Result<IdFormula, OutOfMemory>
        requires leaves { LeavesWithin (length self.old) leaves.now }
        requires small { formula_nodes (replaced_formula (leaves_of self.old leaves.now) f.now) ≤ 4096 }
        requires well_formed { IsTrue (well_formed_formula f.now) }
        ensures within { IfOk result (λ g. formula_bound g ≤ length self.new) }
        ensures tree { IfOk result (λ g. formula_of self.new g ≡ replaced_formula (leaves_of self.old leaves.now) f.now) }
        ensures kept { Extends self.old self.new }
    {
        match parts_of_formula(f) {
            FormulaParts::True => Ok(IdFormula::True),
            FormulaParts::False => Ok(IdFormula::False),
            FormulaParts::Compared(relation, a, b) => {
                let (a, b) = self.put_two_replaced(a, b, leaves)?;
                Ok(relation.over(a, b))
            }
            FormulaParts::Not(f) => {
                let f = self.put_boxed_formula(f, leaves)?;
                Ok(IdFormula::Not(f))
            }
            FormulaParts::Joined(connective, f, g) => {
                let (f, g) = self.put_two_replaced_formulas(f, g, leaves)?;
                Ok(connective.over(f, g))
            }
        }
    }
}
