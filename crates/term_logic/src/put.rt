ghost use Rattle.std.specs.Prelude.{◌≡◌, ◌<◌, ◌≤◌, length, IfOk, IsTrue};
ghost use Rattle.term_trees.specs.Terms.{node_count, well_formed};
ghost use Rattle.term_trees.specs.Formulas.{formula_nodes, well_formed_formula};
ghost use Rattle.term_logic.specs.Table.{tree_at};
ghost use Rattle.term_logic.specs.Formulas.{formula_bound, formula_of};
ghost use Rattle.term_logic.specs.Extends.{Extends};

use crate::formula::IdFormula;
use crate::leaves::LeafIds;
use crate::table::{TermId, TermTable};
use term_trees::{Formula, Term};
use wasm_values::OutOfMemory;

impl TermTable {
    /// The position of a tree, whose parts are added where the table lacks them.
    pub fn put_tree(&mut self, t: &Term) -> Result<TermId, OutOfMemory>
        requires small { node_count t.now ≤ 4096 }
        requires well_formed { IsTrue (well_formed t.now) }
        ensures within { IfOk result (λ id. id < length self.new) }
        ensures tree { IfOk result (λ id. tree_at self.new id ≡ t.now) }
        ensures kept { Extends self.old self.new }
    {
        self.put_replaced(t, &LeafIds::none())
    }

    /// The formula over the table, whose terms are added where the table lacks them.
    pub fn put_formula(&mut self, f: &Formula) -> Result<IdFormula, OutOfMemory>
        requires small { formula_nodes f.now ≤ 4096 }
        requires well_formed { IsTrue (well_formed_formula f.now) }
        ensures within { IfOk result (λ g. formula_bound g ≤ length self.new) }
        ensures tree { IfOk result (λ g. formula_of self.new g ≡ f.now) }
        ensures kept { Extends self.old self.new }
    {
        self.put_replaced_formula(f, &LeafIds::none())
    }
}
