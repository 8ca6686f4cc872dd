ghost use Rattle.std.specs.Prelude.{◌≡◌, ◌+◌, ◌<◌, ◌≤◌, length, min, IfOk};
ghost use Rattle.term_trees.specs.Terms.{node_count};
ghost use Rattle.term_trees.specs.Leaves.{replaced};
ghost use Rattle.term_logic.specs.Table.{tree_at};
ghost use Rattle.term_logic.specs.Extends.{Extends};
ghost use Rattle.term_logic.specs.Leaves.{LeavesWithin, leaves_of};

use crate::id_parts::IdParts;
use crate::leaves::LeafIds;
use crate::table::{TermId, TermTable};
use wasm_values::OutOfMemory;

/// Terms of the table with their leaves replaced.
impl TermTable {
    /// The nodes of the term at a position once its leaves are replaced, or the last `usize` where there are more.
    pub fn replaced_id_nodes(&self, id: TermId, leaves: &LeafIds<'_>) -> usize
        requires within { id < length self.now }
        requires leaves { LeavesWithin (length self.now) leaves.now }
        ensures { result ≡ min (node_count (replaced (leaves_of self.now leaves.now) (tree_at self.now id))) usize.MAX }
    {
        match self.given_at(id, leaves) {
            Some(given) => return self.nodes_of(given) as usize,
            None => {}
        }
        match self.parts_at(id) {
            IdParts::Leaf => 1,
            IdParts::One(a) => self.replaced_id_nodes(a, leaves).saturating_add(1),
            IdParts::Two(a, b) => self
                .replaced_id_nodes(a, leaves)
                .saturating_add(self.replaced_id_nodes(b, leaves))
                .saturating_add(1),
        }
    }

    #[cycle(replace_ids)]
    pub(crate) fn put_two_replaced_ids(
        &mut self,
        a: TermId,
        b: TermId,
        leaves: &LeafIds<'_>,
    ) -> Result<(TermId, TermId), OutOfMemory>
        requires first { a < length self.old }
        requires second { b < length self.old }
        requires leaves { LeavesWithin (length self.old) leaves.now }
        requires small { node_count (replaced (leaves_of self.old leaves.now) (tree_at self.old a)) + node_count (replaced (leaves_of self.old leaves.now) (tree_at self.old b)) ≤ 4096 }
        ensures within { IfOk result (λ p. (p.0 < length self.new) × (p.1 < length self.new)) }
        ensures first { IfOk result (λ p. tree_at self.new p.0 ≡ replaced (leaves_of self.old leaves.now) (tree_at self.old a)) }
        ensures second { IfOk result (λ p. tree_at self.new p.1 ≡ replaced (leaves_of self.old leaves.now) (tree_at self.old b)) }
        ensures kept { Extends self.old self.new }
    {
        let first = self.put_replaced_id(a, leaves)?;
        let second = self.put_replaced_id(b, leaves)?;
        Ok((first, second))
    }

    /// The position of the term at a position, once its leaves are replaced. Terms that the table lacks are added.
    #[cycle(replace_ids)]
    pub fn put_replaced_id(
        &mut self,
        id: TermId,
        leaves: &LeafIds<'_>,
    ) -> Result<TermId, OutOfMemory>
        requires within { id < length self.old }
        requires leaves { LeavesWithin (length self.old) leaves.now }
        requires small { node_count (replaced (leaves_of self.old leaves.now) (tree_at self.old id)) ≤ 4096 }
        ensures within { IfOk result (λ i. i < length self.new) }
        ensures tree { IfOk result (λ i. tree_at self.new i ≡ replaced (leaves_of self.old leaves.now) (tree_at self.old id)) }
        ensures kept { Extends self.old self.new }
    {
        match self.given_at(id, leaves) {
            Some(given) => return Ok(given),
            None => {}
        }
        let cell = *self.cell(id);
        match self.parts_at(id) {
            IdParts::Leaf => Ok(id),
            IdParts::One(a) => {
                let a = self.put_replaced_id(a, leaves)?;
                self.intern(cell.over(a, a))
            }
            IdParts::Two(a, b) => {
                let (a, b) = self.put_two_replaced_ids(a, b, leaves)?;
                self.intern(cell.over(a, b))
            }
        }
    }
}
