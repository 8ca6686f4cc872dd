ghost use Rattle.std.specs.Prelude.{◌≡◌, ◌+◌, ◌≤◌, length, min, IfOk, IsTrue};
ghost use Rattle.term_trees.specs.Formulas.{formula_nodes, well_formed_formula};
ghost use Rattle.term_trees.specs.Leaves.{replaced_formula};
ghost use Rattle.term_logic.specs.Extends.{Extends};
ghost use Rattle.term_logic.specs.Formulas.{formula_bound, formula_of};
ghost use Rattle.term_logic.specs.Leaves.{LeavesWithin, leaves_of};

use crate::formula::IdFormula;
use crate::id_formula_parts::{IdFormulaParts, parts_of_ids};
use crate::leaves::LeafIds;
use crate::table::TermTable;
use std::alloc::Global;
use term_trees::{Boxed, Formula};
use wasm_values::OutOfMemory;

/// The trees of formulas over the table.
impl TermTable {
    /// The nodes of the formula as a tree, or the last `usize` where there are more.
    pub fn formula_nodes(&self, f: &IdFormula) -> usize
        requires { formula_bound f.now ≤ length self.now }
        ensures { result ≡ min (formula_nodes (formula_of self.now f.now)) usize.MAX }
    {
        match parts_of_ids(f) {
            IdFormulaParts::True => 1,
            IdFormulaParts::False => 1,
            IdFormulaParts::Compared(_, a, b) => {
                self.nodes_of(a) as usize + self.nodes_of(b) as usize + 1
            }
            IdFormulaParts::Not(f) => self.formula_nodes(f).saturating_add(1),
            IdFormulaParts::Joined(_, f, g) => self
                .formula_nodes(f)
                .saturating_add(self.formula_nodes(g))
                .saturating_add(1),
        }
    }

    #[cycle(formula_trees)]
    fn boxed_formula_tree(
        &self,
        alloc: Global,
        f: &IdFormula,
    ) -> Result<Boxed<Formula>, OutOfMemory>
        requires { formula_bound f.now ≤ length self.now }
        ensures tree { IfOk result (λ g. g ≡ formula_of self.now f.now) }
        ensures well_formed { IfOk result (λ g. IsTrue (well_formed_formula g)) }
    {
        let tree = self.formula_tree(f)?;
        Boxed::new(alloc, tree)
    }

    /// The formula that one over the table stands for.
    #[cycle(formula_trees)]
    pub fn formula_tree(&self, f: &IdFormula) -> Result<Formula, OutOfMemory>
        requires { formula_bound f.now ≤ length self.now }
        ensures tree { IfOk result (λ g. g ≡ formula_of self.now f.now) }
        ensures well_formed { IfOk result (λ g. IsTrue (well_formed_formula g)) }
    {
        let alloc = self.allocator();
        match parts_of_ids(f) {
            IdFormulaParts::True => Ok(Formula::True),
            IdFormulaParts::False => Ok(Formula::False),
            IdFormulaParts::Compared(relation, a, b) => {
                let a = self.tree(a)?;
                let b = self.tree(b)?;
                Ok(relation.claim(a, b))
            }
            IdFormulaParts::Not(f) => {
                let f = self.boxed_formula_tree(alloc, f)?;
                Ok(Formula::Not(f))
            }
            IdFormulaParts::Joined(connective, f, g) => {
                let f = self.boxed_formula_tree(alloc, f)?;
                let g = self.boxed_formula_tree(alloc, g)?;
                Ok(connective.claim(f, g))
            }
        }
    }
}

/// Formulas over the table with their leaves replaced.
impl TermTable {
    /// The nodes of the formula once its leaves are replaced, or the last `usize` where there are more.
    pub fn replaced_id_formula_nodes(&self, f: &IdFormula, leaves: &LeafIds<'_>) -> usize
        requires within { formula_bound f.now ≤ length self.now }
        requires leaves { LeavesWithin (length self.now) leaves.now }
        ensures { result ≡ min (formula_nodes (replaced_formula (leaves_of self.now leaves.now) (formula_of self.now f.now))) usize.MAX }
    {
        match parts_of_ids(f) {
            IdFormulaParts::True => 1,
            IdFormulaParts::False => 1,
            IdFormulaParts::Compared(_, a, b) => self
                .replaced_id_nodes(a, leaves)
                .saturating_add(self.replaced_id_nodes(b, leaves))
                .saturating_add(1),
            IdFormulaParts::Not(f) => self.replaced_id_formula_nodes(f, leaves).saturating_add(1),
            IdFormulaParts::Joined(_, f, g) => self
                .replaced_id_formula_nodes(f, leaves)
                .saturating_add(self.replaced_id_formula_nodes(g, leaves))
                .saturating_add(1),
        }
    }

    #[cycle(replace_id_formulas)]
    fn put_boxed_id_formula(
        &mut self,
        f: &IdFormula,
        leaves: &LeafIds<'_>,
    ) -> Result<Boxed<IdFormula>, OutOfMemory>
        requires within { formula_bound f.now ≤ length self.old }
        requires leaves { LeavesWithin (length self.old) leaves.now }
        requires small { formula_nodes (replaced_formula (leaves_of self.old leaves.now) (formula_of self.old f.now)) ≤ 4096 }
        ensures within { IfOk result (λ g. formula_bound g ≤ length self.new) }
        ensures tree { IfOk result (λ g. formula_of self.new g ≡ replaced_formula (leaves_of self.old leaves.now) (formula_of self.old f.now)) }
        ensures kept { Extends self.old self.new }
    {
        let f = self.put_replaced_id_formula(f, leaves)?;
        Boxed::new(self.allocator(), f)
    }

    #[cycle(replace_id_formulas)]
    fn put_two_id_formulas(
        &mut self,
        f: &IdFormula,
        g: &IdFormula,
        leaves: &LeafIds<'_>,
    ) -> Result<(Boxed<IdFormula>, Boxed<IdFormula>), OutOfMemory>
        requires first { formula_bound f.now ≤ length self.old }
        requires second { formula_bound g.now ≤ length self.old }
        requires leaves { LeavesWithin (length self.old) leaves.now }
        requires small { formula_nodes (replaced_formula (leaves_of self.old leaves.now) (formula_of self.old f.now)) + formula_nodes (replaced_formula (leaves_of self.old leaves.now) (formula_of self.old g.now)) ≤ 4096 }
        ensures within { IfOk result (λ p. (formula_bound p.0 ≤ length self.new) × (formula_bound p.1 ≤ length self.new)) }
        ensures first { IfOk result (λ p. formula_of self.new p.0 ≡ replaced_formula (leaves_of self.old leaves.now) (formula_of self.old f.now)) }
        ensures second { IfOk result (λ p. formula_of self.new p.1 ≡ replaced_formula (leaves_of self.old leaves.now) (formula_of self.old g.now)) }
        ensures kept { Extends self.old self.new }
    {
        let f = self.put_boxed_id_formula(f, leaves)?;
        let g = self.put_boxed_id_formula(g, leaves)?;
        Ok((f, g))
    }

    /// The formula over the table, once its leaves are replaced. Terms that the table lacks are added.
    #[cycle(replace_id_formulas)]
    pub fn put_replaced_id_formula(
        &mut self,
        f: &IdFormula,
        leaves: &LeafIds<'_>,
    ) -> Result<IdFormula, OutOfMemory>
        requires within { formula_bound f.now ≤ length self.old }
        requires leaves { LeavesWithin (length self.old) leaves.now }
        requires small { formula_nodes (replaced_formula (leaves_of self.old leaves.now) (formula_of self.old f.now)) ≤ 4096 }
        ensures within { IfOk result (λ g. formula_bound g ≤ length self.new) }
        ensures tree { IfOk result (λ g. formula_of self.new g ≡ replaced_formula (leaves_of self.old leaves.now) (formula_of self.old f.now)) }
        ensures kept { Extends self.old self.new }
    {
        match parts_of_ids(f) {
            IdFormulaParts::True => Ok(IdFormula::True),
            IdFormulaParts::False => Ok(IdFormula::False),
            IdFormulaParts::Compared(relation, a, b) => {
                let (a, b) = self.put_two_replaced_ids(a, b, leaves)?;
                Ok(relation.over(a, b))
            }
            IdFormulaParts::Not(f) => {
                let f = self.put_boxed_id_formula(f, leaves)?;
                Ok(IdFormula::Not(f))
            }
            IdFormulaParts::Joined(connective, f, g) => {
                let (f, g) = self.put_two_id_formulas(f, g, leaves)?;
                Ok(connective.over(f, g))
            }
        }
    }
}
