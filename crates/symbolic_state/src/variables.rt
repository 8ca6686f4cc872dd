ghost use Rattle.std.specs.Prelude.{◌≡◌, ◌+◌, ◌<◌, ◌≤◌, ◌++◌, length, Some, IfOk};
ghost use Rattle.wasm_values.specs.Answers.{Gives};
ghost use Rattle.term_trees.specs.Terms.{node_count};
ghost use Rattle.term_logic.specs.Table.{tree_at};
ghost use Rattle.outline_rules.specs.States.{nodes_of, number, greatest_of, fresh, with_typed, with_pages, page_facts, typed_pushed, pages_added};
ghost use Rattle.outline_rules.specs.Renewal.{global_renewed};
ghost use Rattle.outline_rules.specs.Blocks.{local_renewed};
ghost use Rattle.symbolic_state.specs.Refused.{refusal_of};
ghost use Rattle.symbolic_state.specs.Growth.{Grown};

use crate::limits::NODES;
use crate::refused::Refused;
use crate::tracked::TrackedState;
use term_logic::TermId;
use wasm_values::{OutOfMemory, ValType};

/// The greatest value of a type.
fn greatest_of(ty: ValType) -> u64
    ensures { result ≡ greatest_of ty }
{
    match ty {
        ValType::I32 => 4_294_967_295,
        ValType::I64 => 18_446_744_073_709_551_615,
    }
}

impl TrackedState {
    /// The next variable, between 0 and the greatest value of a type.
    #[tactic(auto, using(crate::proofs::Grows::grown))]
    fn range(&mut self, ty: ValType) -> Result<(TermId, TermId, TermId), OutOfMemory>
        ensures zero { IfOk result (λ r. tree_at self.new.terms r.0 ≡ number 0) }
        ensures variable { IfOk result (λ r. tree_at self.new.terms r.1 ≡ fresh self.old.state) }
        ensures greatest { IfOk result (λ r. tree_at self.new.terms r.2 ≡ number (greatest_of ty)) }
        ensures within { IfOk result (λ r. (r.0 < length self.new.terms) × (r.1 < length self.new.terms) × (r.2 < length self.new.terms)) }
        ensures state { IfOk result (λ _. self.new.state ≡ self.old.state) }
        ensures kept { IfOk result (λ _. Grown self.old self.new) }
    {
        let zero = self.number(0)?;
        let variable = self.fresh()?;
        let greatest = self.number(greatest_of(ty))?;
        Ok((zero, variable, greatest))
    }

    /// A fresh variable, in the range of a type.
    #[tactic(auto, using(crate::proofs::Facts::formula_facts, crate::proofs::Grows::grown))]
    pub(crate) fn add_typed(&mut self, ty: ValType) -> Result<TermId, OutOfMemory>
        requires variables { self.old.state.vars + 1 ≤ 1000000 }
        requires facts { length self.old.state.facts + 2 ≤ 4096 }
        requires nodes { nodes_of self.old.state + 6 ≤ 1000000 }
        ensures state { IfOk result (λ _. self.new.state ≡ with_typed ty self.old.state) }
        ensures nodes { IfOk result (λ _. nodes_of self.new.state ≡ nodes_of self.old.state + 6) }
        ensures tree { IfOk result (λ id. tree_at self.new.terms id ≡ fresh self.old.state) }
        ensures within { IfOk result (λ id. id < length self.new.terms) }
        ensures kept { IfOk result (λ _. Grown self.old self.new) }
    {
        let (zero, variable, greatest) = self.range(ty)?;
        self.add_variables(1);
        self.append_bound(zero, variable)?;
        self.append_bound(variable, greatest)?;
        Ok(variable)
    }

    /// A typed variable is added, and pushed.
    #[tactic(auto, using(crate::proofs::Settling::settlings, crate::proofs::Grows::grown))]
    pub fn push_typed(&mut self, ty: ValType) -> Result<TermId, Refused>
        ensures done { Gives refusal_of (λ _. self.new.state) result (typed_pushed ty self.old.state) }
        ensures tree { IfOk result (λ id. tree_at self.new.terms id ≡ fresh self.old.state) }
        ensures within { IfOk result (λ id. id < length self.new.terms) }
        ensures kept { IfOk result (λ _. Grown self.old self.new) }
    {
        let nodes = self.nodes + 7;
        self.room(true, 1, 2, 0, nodes)?;
        let id = self.add_typed(ty)?;
        self.append_operand(ty, id)?;
        Ok(id)
    }

    /// A local is a typed variable again.
    #[tactic(auto, using(crate::proofs::Settling::renewals, crate::proofs::Grows::grown))]
    pub fn renew_local(&mut self, k: usize, ty: ValType) -> Result<(), Refused>
        ensures done { Gives refusal_of (λ _. self.new.state) result (local_renewed k ty self.old.state) }
        ensures kept { IfOk result (λ _. Grown self.old self.new) }
    {
        let variable = self.fresh()?;
        let nodes = self.nodes_with_local(k, variable);
        self.room(true, 1, 2, 0, nodes + 6)?;
        self.replace_local(k, variable, nodes);
        self.add_typed(ty)?;
        Ok(())
    }

    /// A global is a typed variable again.
    #[tactic(auto, using(crate::proofs::Settling::renewals, crate::proofs::Grows::grown))]
    pub fn renew_global(&mut self, k: usize, ty: ValType) -> Result<(), Refused>
        ensures done { Gives refusal_of (λ _. self.new.state) result (global_renewed k ty self.old.state) }
        ensures kept { IfOk result (λ _. Grown self.old self.new) }
    {
        let variable = self.fresh()?;
        let nodes = self.nodes_with_global(k, variable);
        self.room(true, 1, 2, 0, nodes + 6)?;
        self.replace_global(k, variable, nodes);
        self.add_typed(ty)?;
        Ok(())
    }

    /// The next variable, and the number 65,536.
    #[tactic(auto, using(crate::proofs::Grows::grown))]
    fn page_range(&mut self) -> Result<(TermId, TermId), OutOfMemory>
        ensures variable { IfOk result (λ r. tree_at self.new.terms r.0 ≡ fresh self.old.state) }
        ensures most { IfOk result (λ r. tree_at self.new.terms r.1 ≡ number 65536) }
        ensures within { IfOk result (λ r. (r.0 < length self.new.terms) × (r.1 < length self.new.terms)) }
        ensures state { IfOk result (λ _. self.new.state ≡ self.old.state) }
        ensures kept { IfOk result (λ _. Grown self.old self.new) }
    {
        let variable = self.fresh()?;
        let most = self.number(65_536)?;
        Ok((variable, most))
    }

    /// The page count becomes a variable that is at least a count before. The state has so many nodes with the variable alone.
    #[tactic(auto, using(crate::proofs::Facts::leaf_nodes))]
    fn put_pages(
        &mut self,
        before: TermId,
        variable: TermId,
        most: TermId,
        nodes: usize,
    ) -> Result<(), OutOfMemory>
        requires before { before < length self.old.terms }
        requires variable { variable < length self.old.terms }
        requires most { most < length self.old.terms }
        requires fresh { tree_at self.old.terms variable ≡ fresh self.old.state }
        requires greatest { tree_at self.old.terms most ≡ number 65536 }
        requires variables { self.old.state.vars + 1 ≤ 1000000 }
        requires facts { length self.old.state.facts + 2 ≤ 4096 }
        requires nodes { nodes ≡ nodes_of (with_pages (fresh self.old.state) self.old.state) }
        requires room { nodes + (2 + node_count (tree_at self.old.terms before)) + 3 ≤ 1000000 }
        ensures { IfOk result (λ _. self.new ≡ record self.old { state = record self.old.state { vars = self.old.state.vars + 1; facts = self.old.state.facts ++ page_facts (tree_at self.old.terms before) (fresh self.old.state); pages = Some (fresh self.old.state) } }) }
    {
        self.replace_pages(variable, nodes);
        self.add_variables(1);
        self.append_bound(before, variable)?;
        self.append_bound(variable, most)?;
        Ok(())
    }

    /// The page count is added, to a count before: a fresh variable, which is answered.
    #[tactic(auto, using(crate::proofs::Settling::renewals, crate::proofs::Grows::grown))]
    pub fn add_pages(&mut self, before: TermId) -> Result<TermId, Refused>
        requires { before < length self.old.terms }
        ensures done { Gives refusal_of (λ _. self.new.state) result (pages_added (tree_at self.old.terms before) self.old.state) }
        ensures tree { IfOk result (λ id. tree_at self.new.terms id ≡ fresh self.old.state) }
        ensures within { IfOk result (λ id. id < length self.new.terms) }
        ensures kept { IfOk result (λ _. Grown self.old self.new) }
    {
        let (variable, most) = self.page_range()?;
        let bound = 2 + self.table.nodes_of(before) as usize;
        let nodes = self.nodes_with_pages(variable);
        self.room(bound <= NODES, 1, 2, 0, nodes + bound + 3)?;
        self.put_pages(before, variable, most, nodes)?;
        Ok(variable)
    }
}
