ghost use Rattle.std.specs.Prelude.{◌≡◌, ◌+◌, ◌<◌, ◌≤◌, nat_le, ◌∷◌, [], length, drop, IfOk};
ghost use Rattle.wasm_values.specs.Answers.{Gives};
ghost use Rattle.wasm_values.specs.declared.limit.LimitWord.TheVariants as limit;
ghost use Rattle.outline_rules.specs.Refusals.{limited};
ghost use Rattle.term_trees.specs.declared.term.Formula.TheVariants as formula;
ghost use Rattle.term_trees.specs.Formulas.{formula_nodes};
ghost use Rattle.term_logic.specs.Table.{tree_at};
ghost use Rattle.term_logic.specs.Formulas.{formula_bound, formula_of};
ghost use Rattle.outline_rules.specs.States.{nodes_of, settled, with_facts, fact_added, popped, pushed, with_local, with_operand, with_global, with_pages};
ghost use Rattle.symbolic_state.specs.Refused.{refusal_of};
ghost use Rattle.symbolic_state.specs.Growth.{Grown};

use crate::limits::NODES;
use crate::refused::Refused;
use crate::tracked::TrackedState;
use term_logic::{IdFormula, TermId};
use wasm_values::{LimitWord, ValType};

impl TrackedState {
    /// The nodes of a formula, within the limit.
    #[tactic(auto, using(crate::proofs::Settling::counts))]
    pub(crate) fn formula_count(&self, formula: &IdFormula) -> Result<usize, Refused>
        requires { formula_bound formula.now ≤ length self.now.terms }
        ensures done { Gives refusal_of (λ _. tt) result (limited limit.Nodes (nat_le (formula_nodes (formula_of self.now.terms formula.now)) 4096)) }
        ensures nodes { IfOk result (λ n. n ≡ formula_nodes (formula_of self.now.terms formula.now)) }
        ensures small { IfOk result (λ n. n ≤ 4096) }
    {
        let nodes = self.table.formula_nodes(formula);
        if nodes > NODES {
            return Err(Refused::Limit(LimitWord::Nodes));
        }
        Ok(nodes)
    }

    /// The nodes of a fact that there is room for.
    #[tactic(auto, using(crate::proofs::Settling::settlings))]
    fn room_for_fact(&self, fact: &IdFormula) -> Result<usize, Refused>
        requires { formula_bound fact.now ≤ length self.now.terms }
        ensures done { Gives refusal_of (λ _. with_facts (formula_of self.now.terms fact.now ∷ []) self.now.state) result (fact_added (formula_of self.now.terms fact.now) self.now.state) }
        ensures nodes { IfOk result (λ n. n ≡ formula_nodes (formula_of self.now.terms fact.now)) }
        ensures count { IfOk result (λ _. length self.now.state.facts < 4096) }
        ensures room { IfOk result (λ n. nodes_of self.now.state + n ≤ 1000000) }
    {
        let nodes = self.formula_count(fact)?;
        self.room(true, 0, 1, 0, self.nodes + nodes)?;
        Ok(nodes)
    }

    /// One more fact.
    pub fn add_fact(&mut self, fact: IdFormula) -> Result<(), Refused>
        requires { formula_bound fact ≤ length self.old.terms }
        ensures done { Gives refusal_of (λ _. self.new.state) result (fact_added (formula_of self.old.terms fact) self.old.state) }
        ensures terms { IfOk result (λ _. self.new.terms ≡ self.old.terms) }
        ensures kept { IfOk result (λ _. Grown self.old self.new) }
    {
        let nodes = self.room_for_fact(&fact)?;
        self.append_fact(fact, nodes)?;
        Ok(())
    }

    /// One more operand, on top.
    #[tactic(auto, using(crate::proofs::Settling::settlings))]
    pub fn push(&mut self, ty: ValType, id: TermId) -> Result<(), Refused>
        requires { id < length self.old.terms }
        ensures done { Gives refusal_of (λ _. self.new.state) result (pushed ty (tree_at self.old.terms id) self.old.state) }
        ensures terms { IfOk result (λ _. self.new.terms ≡ self.old.terms) }
        ensures kept { IfOk result (λ _. Grown self.old self.new) }
    {
        let nodes = self.nodes + self.table.nodes_of(id) as usize;
        self.room(true, 0, 0, 0, nodes)?;
        self.append_operand(ty, id)?;
        Ok(())
    }

    /// Another term for a local, if there is one with that number.
    #[tactic(auto, using(crate::proofs::Settling::slot_settlings))]
    pub fn set_local(&mut self, k: u32, id: TermId) -> Result<(), Refused>
        requires { id < length self.old.terms }
        ensures done { Gives refusal_of (λ _. self.new.state) result (settled [] (with_local k (tree_at self.old.terms id) self.old.state)) }
        ensures terms { IfOk result (λ _. self.new.terms ≡ self.old.terms) }
        ensures kept { IfOk result (λ _. Grown self.old self.new) }
    {
        let nodes = self.nodes_with_local(k as usize, id);
        self.room(true, 0, 0, 0, nodes)?;
        self.replace_local(k as usize, id, nodes);
        Ok(())
    }

    /// Another term for the operand at a place, 0 being the top, if there is one.
    #[tactic(auto, using(crate::proofs::Settling::slot_settlings))]
    pub fn set_operand(&mut self, k: u32, id: TermId) -> Result<(), Refused>
        requires { id < length self.old.terms }
        ensures done { Gives refusal_of (λ _. self.new.state) result (settled [] (with_operand k (tree_at self.old.terms id) self.old.state)) }
        ensures terms { IfOk result (λ _. self.new.terms ≡ self.old.terms) }
        ensures kept { IfOk result (λ _. Grown self.old self.new) }
    {
        let nodes = self.nodes_with_operand(k, id);
        self.room(true, 0, 0, 0, nodes)?;
        self.replace_operand(k, id, nodes);
        Ok(())
    }

    /// Another term for a global, if there is one with that number.
    #[tactic(auto, using(crate::proofs::Settling::slot_settlings))]
    pub fn set_global(&mut self, k: u32, id: TermId) -> Result<(), Refused>
        requires { id < length self.old.terms }
        ensures done { Gives refusal_of (λ _. self.new.state) result (settled [] (with_global k (tree_at self.old.terms id) self.old.state)) }
        ensures terms { IfOk result (λ _. self.new.terms ≡ self.old.terms) }
        ensures kept { IfOk result (λ _. Grown self.old self.new) }
    {
        let nodes = self.nodes_with_global(k as usize, id);
        self.room(true, 0, 0, 0, nodes)?;
        self.replace_global(k as usize, id, nodes);
        Ok(())
    }

    /// Another term for the page count.
    #[tactic(auto, using(crate::proofs::Settling::slot_settlings))]
    pub fn set_pages(&mut self, id: TermId) -> Result<(), Refused>
        requires { id < length self.old.terms }
        ensures done { Gives refusal_of (λ _. self.new.state) result (settled [] (with_pages (tree_at self.old.terms id) self.old.state)) }
        ensures terms { IfOk result (λ _. self.new.terms ≡ self.old.terms) }
        ensures kept { IfOk result (λ _. Grown self.old self.new) }
    {
        let nodes = self.nodes_with_pages(id);
        self.room(true, 0, 0, 0, nodes)?;
        self.replace_pages(id, nodes);
        Ok(())
    }
}
