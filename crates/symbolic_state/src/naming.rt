ghost use Rattle.std.specs.Prelude.{◌≡◌, ◌+◌, ◌<◌, ◌≤◌, [], ◌∷◌, length, map, IfOk};
ghost use Rattle.wasm_values.specs.Answers.{Gives};
ghost use Rattle.term_trees.specs.declared.term.Formula.TheVariants as formula;
ghost use Rattle.term_trees.specs.Terms.{node_count};
ghost use Rattle.term_trees.specs.Formulas.{formula_nodes};
ghost use Rattle.term_logic.specs.Table.{tree_at};
ghost use Rattle.outline_rules.specs.States.{nodes_of, number, settled, fresh, with_facts, fact_added};
ghost use Rattle.outline_rules.specs.Moves.{with_slot, name_facts};
ghost use Rattle.symbolic_state.specs.Refused.{refusal_of};
ghost use Rattle.symbolic_state.specs.Growth.{Grown};

use crate::limits::NODES;
use crate::refused::Refused;
use crate::tracked::TrackedState;
use term_logic::{IdFormula, Place, TermId};
use wasm_values::OutOfMemory;

impl TrackedState {
    /// One more fact, that two terms are equal.
    #[tactic(auto, using(crate::proofs::Facts::formula_facts))]
    fn append_equation(&mut self, a: TermId, b: TermId) -> Result<(), OutOfMemory>
        requires first { a < length self.old.terms }
        requires second { b < length self.old.terms }
        requires count { length self.old.state.facts < 4096 }
        requires room { nodes_of self.old.state + (1 + node_count (tree_at self.old.terms a) + node_count (tree_at self.old.terms b)) ≤ 1000000 }
        ensures state { IfOk result (λ _. self.new ≡ record self.old { state = with_facts (formula.Eq (tree_at self.old.terms a) (tree_at self.old.terms b) ∷ []) self.old.state }) }
        ensures nodes { IfOk result (λ _. nodes_of self.new.state ≡ nodes_of self.old.state + (1 + node_count (tree_at self.old.terms a) + node_count (tree_at self.old.terms b))) }
    {
        let nodes = 1 + self.table.nodes_of(a) as usize + self.table.nodes_of(b) as usize;
        self.append_fact(IdFormula::Eq(a, b), nodes)
    }

    /// The next variable is added with the fact that it is a term.
    #[tactic(auto, using(crate::proofs::Facts::leaf_nodes))]
    fn put_let(&mut self, variable: TermId, id: TermId) -> Result<(), OutOfMemory>
        requires variable { variable < length self.old.terms }
        requires within { id < length self.old.terms }
        requires fresh { tree_at self.old.terms variable ≡ fresh self.old.state }
        requires variables { self.old.state.vars + 1 ≤ 1000000 }
        requires facts { length self.old.state.facts + 1 ≤ 4096 }
        requires room { nodes_of self.old.state + (2 + node_count (tree_at self.old.terms id)) ≤ 1000000 }
        ensures { IfOk result (λ _. self.new ≡ record self.old { state = with_facts (formula.Eq (fresh self.old.state) (tree_at self.old.terms id) ∷ []) (record self.old.state { vars = self.old.state.vars + 1 }) }) }
    {
        self.add_variables(1);
        self.append_equation(variable, id)?;
        Ok(())
    }

    /// A fresh variable with the fact that it is a term.
    #[tactic(auto, using(crate::proofs::Named::namings, crate::proofs::Grows::grown))]
    pub fn let_variable(&mut self, id: TermId) -> Result<(), Refused>
        requires { id < length self.old.terms }
        ensures done { Gives refusal_of (λ _. self.new.state) result (fact_added (formula.Eq (fresh self.old.state) (tree_at self.old.terms id)) (record self.old.state { vars = self.old.state.vars + 1 })) }
        ensures kept { IfOk result (λ _. Grown self.old self.new) }
    {
        let variable = self.fresh()?;
        let more = 2 + self.table.nodes_of(id) as usize;
        let nodes = self.nodes + more;
        self.room(more <= NODES, 1, 1, 0, nodes)?;
        self.put_let(variable, id)?;
        Ok(())
    }

    /// The nodes of the state with another term in a slot. Places that are no slots change nothing.
    fn nodes_with_slot(&self, place: Place, id: TermId) -> usize
        requires { id < length self.now.terms }
        ensures nodes { result ≡ nodes_of (with_slot place (tree_at self.now.terms id) self.now.state) }
        ensures small { result ≤ 1004096 }
    {
        match place {
            Place::Local(k) => self.nodes_with_local(k as usize, id),
            Place::Stack(k) => self.nodes_with_operand(k, id),
            Place::Global(k) => self.nodes_with_global(k as usize, id),
            Place::Pages => self.nodes_with_pages(id),
            Place::Arg(_) => self.nodes,
            Place::Result => self.nodes,
            Place::Index => self.nodes,
            Place::Item => self.nodes,
        }
    }

    /// Another term in a slot. The state has so many nodes then.
    fn replace_slot(&mut self, place: Place, id: TermId, nodes: usize)
        requires within { id < length self.old.terms }
        requires nodes { nodes ≡ nodes_of (with_slot place (tree_at self.old.terms id) self.old.state) }
        requires room { nodes ≤ 1000000 }
        ensures state { self.new ≡ record self.old { state = with_slot place (tree_at self.old.terms id) self.old.state } }
    {
        match place {
            Place::Local(k) => self.replace_local(k as usize, id, nodes),
            Place::Stack(k) => self.replace_operand(k, id, nodes),
            Place::Global(k) => self.replace_global(k as usize, id, nodes),
            Place::Pages => self.replace_pages(id, nodes),
            Place::Arg(_) => {}
            Place::Result => {}
            Place::Index => {}
            Place::Item => {}
        }
    }

    /// Another term in a slot.
    #[tactic(auto, using(crate::proofs::Named::slots_put))]
    pub fn set_slot(&mut self, place: Place, id: TermId) -> Result<(), Refused>
        requires { id < length self.old.terms }
        ensures done { Gives refusal_of (λ _. self.new.state) result (settled [] (with_slot place (tree_at self.old.terms id) self.old.state)) }
        ensures terms { IfOk result (λ _. self.new.terms ≡ self.old.terms) }
        ensures kept { IfOk result (λ _. Grown self.old self.new) }
    {
        let nodes = self.nodes_with_slot(place, id);
        self.room(true, 0, 0, 0, nodes)?;
        self.replace_slot(place, id, nodes);
        Ok(())
    }

    /// The next variable, 0 and a number.
    #[tactic(auto, using(crate::proofs::Grows::grown))]
    fn range_to(&mut self, greatest: u64) -> Result<(TermId, TermId, TermId), OutOfMemory>
        ensures zero { IfOk result (λ r. tree_at self.new.terms r.0 ≡ number 0) }
        ensures variable { IfOk result (λ r. tree_at self.new.terms r.1 ≡ fresh self.old.state) }
        ensures greatest { IfOk result (λ r. tree_at self.new.terms r.2 ≡ number greatest) }
        ensures within { IfOk result (λ r. (r.0 < length self.new.terms) × (r.1 < length self.new.terms) × (r.2 < length self.new.terms)) }
        ensures state { IfOk result (λ _. self.new.state ≡ self.old.state) }
        ensures kept { IfOk result (λ _. Grown self.old self.new) }
    {
        let zero = self.number(0)?;
        let variable = self.fresh()?;
        let greatest = self.number(greatest)?;
        Ok((zero, variable, greatest))
    }

    /// The next variable stands in a slot, with the facts of its name. The state has so many nodes with the variable alone.
    #[tactic(auto, using(crate::proofs::Named::named_slots))]
    fn put_name(
        &mut self,
        place: Place,
        id: TermId,
        range: (TermId, TermId, TermId),
        nodes: usize,
    ) -> Result<(), OutOfMemory>
        requires within { id < length self.old.terms }
        requires range { (range.0 < length self.old.terms) × (range.1 < length self.old.terms) × (range.2 < length self.old.terms) }
        requires leaves { (node_count (tree_at self.old.terms range.0) ≡ 1) × (node_count (tree_at self.old.terms range.1) ≡ 1) × (node_count (tree_at self.old.terms range.2) ≡ 1) }
        requires variables { self.old.state.vars + 1 ≤ 1000000 }
        requires facts { length self.old.state.facts + 3 ≤ 4096 }
        requires nodes { nodes ≡ nodes_of (with_slot place (tree_at self.old.terms range.1) self.old.state) }
        requires room { nodes + (2 + node_count (tree_at self.old.terms id)) + 6 ≤ 1000000 }
        ensures { IfOk result (λ _. self.new ≡ record self.old { state = with_facts (formula.Eq (tree_at self.old.terms range.1) (tree_at self.old.terms id) ∷ formula.Le (tree_at self.old.terms range.0) (tree_at self.old.terms range.1) ∷ formula.Le (tree_at self.old.terms range.1) (tree_at self.old.terms range.2) ∷ []) (record (with_slot place (tree_at self.old.terms range.1) self.old.state) { vars = self.old.state.vars + 1 }) }) }
    {
        self.replace_slot(place, range.1, nodes);
        self.add_variables(1);
        self.append_equation(range.1, id)?;
        self.append_bound(range.0, range.1)?;
        self.append_bound(range.1, range.2)?;
        Ok(())
    }

    /// A fresh variable in the place of a slot's term, with the fact that it is that term, from 0 to a number.
    #[tactic(auto, using(crate::proofs::Named::slot_names, crate::proofs::Grows::grown))]
    pub fn name_slot(&mut self, place: Place, id: TermId, greatest: u64) -> Result<(), Refused>
        requires { id < length self.old.terms }
        ensures done { Gives refusal_of (λ _. self.new.state) result (settled (map formula_nodes (name_facts greatest (tree_at self.old.terms id) (fresh self.old.state))) (with_slot place (fresh self.old.state) (with_facts (name_facts greatest (tree_at self.old.terms id) (fresh self.old.state)) (record self.old.state { vars = self.old.state.vars + 1 })))) }
        ensures kept { IfOk result (λ _. Grown self.old self.new) }
    {
        let range = self.range_to(greatest)?;
        let more = 2 + self.table.nodes_of(id) as usize;
        let nodes = self.nodes_with_slot(place, range.1);
        self.room(more <= NODES, 1, 3, 0, nodes + more + 6)?;
        self.put_name(place, id, range, nodes)?;
        Ok(())
    }
}
