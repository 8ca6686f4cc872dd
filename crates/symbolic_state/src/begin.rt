ghost use Rattle.std.specs.Prelude.{◌≡◌, ◌+◌, ◌<◌, ◌≤◌, [], ◌∷◌, length, Some, None, IfOk};
ghost use Rattle.wasm_values.specs.Answers.{Gives};
ghost use Rattle.term_trees.specs.Terms.{node_count};
ghost use Rattle.term_logic.specs.Table.{tree_at};
ghost use Rattle.outline_rules.specs.States.{nodes_of, settled, fresh, with_typed};
ghost use Rattle.outline_rules.specs.Entry.{with_new_local, with_new_global, global_unknown};
ghost use Rattle.symbolic_state.specs.Refused.{refusal_of};
ghost use Rattle.symbolic_state.specs.Growth.{Grown};

use crate::refused::Refused;
use crate::tracked::TrackedState;
use term_logic::TermId;
use wasm_values::{OutOfMemory, ValType};

impl TrackedState {
    /// One more local.
    fn append_local(&mut self, ty: ValType, id: TermId) -> Result<(), OutOfMemory>
        requires within { id < length self.old.terms }
        requires room { nodes_of self.old.state + node_count (tree_at self.old.terms id) ≤ 1000000 }
        ensures state { IfOk result (λ _. self.new ≡ record self.old { state = with_new_local ty (tree_at self.old.terms id) self.old.state }) }
        ensures kept { IfOk result (λ _. Grown self.old self.new) }
    {
        let nodes = self.table.nodes_of(id) as usize;
        self.state.locals.push((ty, id))?;
        self.nodes += nodes;
        Ok(())
    }

    /// One more global, that has a term.
    fn append_global(&mut self, id: TermId) -> Result<(), OutOfMemory>
        requires within { id < length self.old.terms }
        requires room { nodes_of self.old.state + node_count (tree_at self.old.terms id) ≤ 1000000 }
        ensures state { IfOk result (λ _. self.new ≡ record self.old { state = with_new_global (Some (tree_at self.old.terms id)) self.old.state }) }
        ensures kept { IfOk result (λ _. Grown self.old self.new) }
    {
        let nodes = self.table.nodes_of(id) as usize;
        self.state.globals.push(Some(id))?;
        self.nodes += nodes;
        Ok(())
    }

    /// One more global, that has no term.
    pub fn add_unstable(&mut self) -> Result<(), OutOfMemory>
        ensures state { IfOk result (λ _. self.new ≡ record self.old { state = with_new_global None self.old.state }) }
        ensures kept { IfOk result (λ _. Grown self.old self.new) }
    {
        self.state.globals.push(None)?;
        Ok(())
    }

    /// One more local.
    #[tactic(auto, using(crate::proofs::Entered::entries))]
    pub fn add_local(&mut self, ty: ValType, id: TermId) -> Result<(), Refused>
        requires { id < length self.old.terms }
        ensures done { Gives refusal_of (λ _. self.new.state) result (settled [] (with_new_local ty (tree_at self.old.terms id) self.old.state)) }
        ensures terms { IfOk result (λ _. self.new.terms ≡ self.old.terms) }
        ensures kept { IfOk result (λ _. Grown self.old self.new) }
    {
        let nodes = self.nodes + self.table.nodes_of(id) as usize;
        self.room(true, 0, 0, 0, nodes)?;
        self.append_local(ty, id)?;
        Ok(())
    }

    /// One more local, that is a typed variable.
    #[tactic(auto, using(crate::proofs::Entered::entries, crate::proofs::Grows::grown))]
    pub fn add_typed_local(&mut self, ty: ValType) -> Result<(), Refused>
        ensures done { Gives refusal_of (λ _. self.new.state) result (settled [] (with_new_local ty (fresh self.old.state) (with_typed ty self.old.state))) }
        ensures kept { IfOk result (λ _. Grown self.old self.new) }
    {
        let nodes = self.nodes + 7;
        self.room(true, 1, 2, 0, nodes)?;
        let id = self.add_typed(ty)?;
        self.append_local(ty, id)?;
        Ok(())
    }

    /// One more global, that has a term.
    #[tactic(auto, using(crate::proofs::Entered::entries))]
    pub fn add_global(&mut self, id: TermId) -> Result<(), Refused>
        requires { id < length self.old.terms }
        ensures done { Gives refusal_of (λ _. self.new.state) result (settled [] (with_new_global (Some (tree_at self.old.terms id)) self.old.state)) }
        ensures terms { IfOk result (λ _. self.new.terms ≡ self.old.terms) }
        ensures kept { IfOk result (λ _. Grown self.old self.new) }
    {
        let nodes = self.nodes + self.table.nodes_of(id) as usize;
        self.room(true, 0, 0, 0, nodes)?;
        self.append_global(id)?;
        Ok(())
    }

    /// One more global, that is a typed variable.
    #[tactic(auto, using(crate::proofs::Entered::entries, crate::proofs::Grows::grown))]
    pub fn add_typed_global(&mut self, ty: ValType) -> Result<(), Refused>
        ensures done { Gives refusal_of (λ _. self.new.state) result (global_unknown ty self.old.state) }
        ensures kept { IfOk result (λ _. Grown self.old self.new) }
    {
        let nodes = self.nodes + 7;
        self.room(true, 1, 2, 0, nodes)?;
        let id = self.add_typed(ty)?;
        self.append_global(id)?;
        Ok(())
    }

    /// So many more variables, of which nothing is known.
    #[tactic(auto, using(crate::proofs::Entered::entries))]
    pub fn add_own(&mut self, count: u32) -> Result<(), Refused>
        ensures done { Gives refusal_of (λ _. self.new.state) result (settled [] (record self.old.state { vars = self.old.state.vars + count })) }
        ensures terms { IfOk result (λ _. self.new.terms ≡ self.old.terms) }
        ensures kept { IfOk result (λ _. Grown self.old self.new) }
    {
        let nodes = self.nodes;
        self.room(true, count, 0, 0, nodes)?;
        self.add_variables(count);
        Ok(())
    }
}
