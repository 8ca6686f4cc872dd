use crate::cell_parts::{CellParts, parts_of_cell};
use indexmap::IndexMap;
use std::alloc::Global;
use std::marker::Model;
use term_trees::{Boxed, Place, Term};
use wasm_values::{NumOp, OutOfMemory};

/// The position of a term in a table.
#[derive(Clone, Copy, Debug, PartialEq, Eq, Hash)]
pub struct TermId {
    at: usize,
}

impl Model for TermId {
    ghost use Rattle.std.specs.Prelude.{ℕ};

    ghost Value = { ℕ };

    ghost view = { λ id. id.at };

    ghost inverse = { λ n. record { at = n } };
}

/// One node of a term.
#[derive(Clone, Copy, Debug, PartialEq, Eq, Hash)]
pub enum TermCell {
    Num(i128),
    Var(u32),
    Own(u32),
    At(Place),
    Add(TermId, TermId),
    Sub(TermId, TermId),
    Mul(TermId, TermId),
    One(NumOp, TermId),
    Two(NumOp, TermId, TermId),
    Low(u32, TermId),
    Sext(u32, u32, TermId),
    Sgn(u32, TermId),
}

/// Terms, each kept once: a term's parts are positions of earlier ones.
///
/// Contracts see the trees that the positions stand for.
#[derive(Drop)]
pub struct TermTable {
    cells: IndexMap<TermCell, u32>,
}

impl Model for TermTable {
    ghost use Rattle.std.specs.Prelude.{List};
    ghost use Rattle.std.specs.Coded.{coded_list};
    ghost use Rattle.indexmap.specs.IndexMap.{keys, values};
    ghost use Rattle.term_trees.specs.declared.term.Term.{Term};
    ghost use Rattle.term_logic.specs.Table.{trees, IsTable};
    ghost use Rattle.term_trees.specs.contracts.term.Term as term;

    ghost Value = { List Term };

    ghost coded = { coded_list term.the_row.coded };

    ghost view = { λ t. trees (keys t.cells) };

    ghost invariant = { λ t. IsTable (keys t.cells) (values t.cells) };
}

impl TermTable {
    ghost use Rattle.std.specs.Prelude.{◌≡◌, ◌↔◌, ℕ, [], ◌+◌, ◌<◌, ◌≤◌, length, IsTrue, IfOk, OnErr};
    ghost use Rattle.term_trees.specs.Terms.{node_count, well_formed};
    ghost use Rattle.term_trees.specs.declared.term.Term.{Term, out-Term, map-Term};
    ghost use Rattle.term_logic.specs.Table.{cell_layer, cell_nodes, tree_at, tree_here, well_formed_cell, CellWithin};
    ghost use Rattle.term_trees.specs.Same.{same};
    ghost use Rattle.term_logic.specs.Extends.{Extends};

    pub fn new(alloc: Global) -> TermTable
        ensures { result ≡ [] }
    {
        TermTable {
            cells: IndexMap::new(alloc),
        }
    }

    pub(crate) fn allocator(&self) -> Global {
        *self.cells.allocator()
    }

    /// The node at a position, whose parts are earlier positions.
    pub fn cell(&self, id: TermId) -> &TermCell
        requires { id < length self.now }
        ensures tree { tree_here self.now result.now ≡ tree_at self.now id }
        ensures layer { out-Term (tree_at self.now id) ≡ map-Term ℕ Term (tree_at self.now) (cell_layer result.now) }
        ensures earlier { CellWithin id result.now }
        ensures well_formed { IsTrue (well_formed_cell result.now) }
        ensures tree_well_formed { IsTrue (well_formed (tree_at self.now id)) }
    {
        &self.cells.keys().as_slice()[id.at]
    }

    /// Whether two positions stand for one tree, which is exactly where they are equal.
    pub fn same_tree(&self, a: TermId, b: TermId) -> bool
        requires first { a < length self.now }
        requires second { b < length self.now }
        ensures ids { IsTrue result ↔ (a ≡ b) }
        ensures same { IsTrue result ↔ (tree_at self.now a ≡ tree_at self.now b) }
        ensures value { result ≡ same (tree_at self.now a) (tree_at self.now b) }
    {
        let _ = &self.cells;
        a == b
    }

    /// How many nodes the tree has.
    pub fn nodes_of(&self, id: TermId) -> u32
        requires { id < length self.now }
        ensures count { result ≡ node_count (tree_at self.now id) }
        ensures small { result ≤ 4096 }
        ensures well_formed { IsTrue (well_formed (tree_at self.now id)) }
    {
        self.cells[id.at]
    }

    /// How many nodes the cell's tree has.
    fn nodes_here(&self, cell: &TermCell) -> u32
        requires within { CellWithin (length self.now) cell.now }
        requires small { cell_nodes self.now cell.now ≤ 4096 }
        ensures { result ≡ cell_nodes self.now cell.now }
    {
        match cell {
            TermCell::Num(_) | TermCell::Var(_) | TermCell::Own(_) | TermCell::At(_) => 1,
            TermCell::One(_, a)
            | TermCell::Low(_, a)
            | TermCell::Sext(_, _, a)
            | TermCell::Sgn(_, a) => 1 + self.nodes_of(*a),
            TermCell::Add(a, b)
            | TermCell::Sub(a, b)
            | TermCell::Mul(a, b)
            | TermCell::Two(_, a, b) => 1 + self.nodes_of(*a) + self.nodes_of(*b),
        }
    }

    /// The position of the cell's tree, which is added where the table lacks it.
    pub fn intern(&mut self, cell: TermCell) -> Result<TermId, OutOfMemory>
        requires within { CellWithin (length self.old) cell }
        requires small { cell_nodes self.old cell ≤ 4096 }
        requires well_formed { IsTrue (well_formed_cell cell) }
        ensures within { IfOk result (λ id. id < length self.new) }
        ensures tree { IfOk result (λ id. tree_at self.new id ≡ tree_here self.old cell) }
        ensures kept { Extends self.old self.new }
        ensures err { OnErr result (self.new ≡ self.old) }
    {
        if let Some(at) = self.cells.get_index_of(&cell) {
            return Ok(TermId { at });
        }
        let nodes = self.nodes_here(&cell);
        let at = self.cells.len();
        let Ok(_) = self.cells.insert(cell, nodes) else {
            return Err(OutOfMemory);
        };
        Ok(TermId { at })
    }

    #[cycle(trees)]
    fn boxed_tree(&self, alloc: Global, id: TermId) -> Result<Boxed<Term>, OutOfMemory>
        requires { id < length self.now }
        ensures { IfOk result (λ b. b ≡ tree_at self.now id) }
    {
        let tree = self.tree(id)?;
        Boxed::new(alloc, tree)
    }

    #[cycle(trees)]
    fn boxed_trees(
        &self,
        alloc: Global,
        a: TermId,
        b: TermId,
    ) -> Result<(Boxed<Term>, Boxed<Term>), OutOfMemory>
        requires first { a < length self.now }
        requires second { b < length self.now }
        ensures first { IfOk result (λ p. p.0 ≡ tree_at self.now a) }
        ensures second { IfOk result (λ p. p.1 ≡ tree_at self.now b) }
    {
        let first = self.boxed_tree(alloc, a)?;
        let second = self.boxed_tree(alloc, b)?;
        Ok((first, second))
    }

    /// The tree at a position.
    #[cycle(trees)]
    #[tactic(auto, using(crate::proofs::Trees::cell_trees))]
    pub fn tree(&self, id: TermId) -> Result<Term, OutOfMemory>
        requires { id < length self.now }
        ensures tree { IfOk result (λ t. t ≡ tree_at self.now id) }
        ensures well_formed { IfOk result (λ t. IsTrue (well_formed t)) }
    {
        let alloc = *self.cells.allocator();
        match parts_of_cell(self.cell(id)) {
            CellParts::Num(n) => Ok(Term::Num(n)),
            CellParts::Var(k) => Ok(Term::Var(k)),
            CellParts::Own(k) => Ok(Term::Own(k)),
            CellParts::At(place) => Ok(Term::At(place)),
            CellParts::One(outer, a) => {
                let a = self.boxed_tree(alloc, a)?;
                Ok(outer.over(a))
            }
            CellParts::Two(outer, a, b) => {
                let (a, b) = self.boxed_trees(alloc, a, b)?;
                Ok(outer.over(a, b))
            }
        }
    }
}
