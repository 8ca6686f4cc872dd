ghost use Rattle.std.specs.Prelude.{◌≡◌, ◌+◌, ◌<◌, ◌≤◌, [], ◌∷◌, length, IfOk};
ghost use Rattle.term_trees.specs.declared.term.Formula.TheVariants as formula;
ghost use Rattle.term_trees.specs.Terms.{node_count};
ghost use Rattle.term_trees.specs.Formulas.{formula_nodes};
ghost use Rattle.term_logic.specs.Table.{tree_at};
ghost use Rattle.term_logic.specs.Formulas.{formula_bound, formula_of};
ghost use Rattle.outline_rules.specs.States.{nodes_of, with_facts, with_top, with_local};

use crate::tracked::TrackedState;
use term_logic::{IdFormula, TermId};
use wasm_values::{OutOfMemory, ValType};

impl TrackedState {
    /// One more operand, on top.
    pub(crate) fn append_operand(&mut self, ty: ValType, id: TermId) -> Result<(), OutOfMemory>
        requires within { id < length self.old.terms }
        requires room { nodes_of self.old.state + node_count (tree_at self.old.terms id) ≤ 1000000 }
        ensures state { IfOk result (λ _. self.new ≡ record self.old { state = with_top ty (tree_at self.old.terms id) self.old.state }) }
        ensures nodes { IfOk result (λ _. nodes_of self.new.state ≡ nodes_of self.old.state + node_count (tree_at self.old.terms id)) }
    {
        let nodes = self.table.nodes_of(id) as usize;
        self.state.stack.push((ty, id))?;
        self.nodes += nodes;
        Ok(())
    }

    /// One more fact, of so many nodes.
    pub(crate) fn append_fact(&mut self, fact: IdFormula, nodes: usize) -> Result<(), OutOfMemory>
        requires within { formula_bound fact ≤ length self.old.terms }
        requires nodes { nodes ≡ formula_nodes (formula_of self.old.terms fact) }
        requires count { length self.old.state.facts < 4096 }
        requires room { nodes_of self.old.state + nodes ≤ 1000000 }
        ensures state { IfOk result (λ _. self.new ≡ record self.old { state = with_facts (formula_of self.old.terms fact ∷ []) self.old.state }) }
        ensures nodes { IfOk result (λ _. nodes_of self.new.state ≡ nodes_of self.old.state + nodes) }
    {
        self.state.heap.facts.push(fact)?;
        self.nodes += nodes;
        Ok(())
    }

    /// One more fact, that a term is at most another.
    #[tactic(auto, using(crate::proofs::Facts::formula_facts))]
    pub(crate) fn append_bound(&mut self, a: TermId, b: TermId) -> Result<(), OutOfMemory>
        requires first { a < length self.old.terms }
        requires second { b < length self.old.terms }
        requires count { length self.old.state.facts < 4096 }
        requires room { nodes_of self.old.state + (1 + node_count (tree_at self.old.terms a) + node_count (tree_at self.old.terms b)) ≤ 1000000 }
        ensures state { IfOk result (λ _. self.new ≡ record self.old { state = with_facts (formula.Le (tree_at self.old.terms a) (tree_at self.old.terms b) ∷ []) self.old.state }) }
        ensures nodes { IfOk result (λ _. nodes_of self.new.state ≡ nodes_of self.old.state + (1 + node_count (tree_at self.old.terms a) + node_count (tree_at self.old.terms b))) }
    {
        let nodes = 1 + self.table.nodes_of(a) as usize + self.table.nodes_of(b) as usize;
        self.append_fact(IdFormula::Le(a, b), nodes)
    }

    /// So many more variables.
    pub(crate) fn add_variables(&mut self, count: u32)
        requires { self.old.state.vars + count ≤ 1000000 }
        ensures state { self.new ≡ record self.old { state = record self.old.state { vars = self.old.state.vars + count } } }
        ensures nodes { nodes_of self.new.state ≡ nodes_of self.old.state }
    {
        self.state.heap.vars += count;
    }
}
