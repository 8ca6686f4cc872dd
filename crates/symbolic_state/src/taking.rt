ghost use Rattle.std.specs.Prelude.{◌≡◌, ◌<◌, ◌≤◌, length, map, IfOk, IsTrue};
ghost use Rattle.std.specs.List.{All, list_all};
ghost use Rattle.wasm_values.specs.Answers.{Gives};
ghost use Rattle.term_trees.specs.Terms.{well_formed};
ghost use Rattle.term_trees.specs.Formulas.{well_formed_formula, formula_nodes};
ghost use Rattle.term_logic.specs.Table.{tree_at};
ghost use Rattle.term_logic.specs.Formulas.{formula_bound, formula_of};
ghost use Rattle.outline_rules.specs.Leaves.{leaves_with, move_leaves, in_row, taken, taken_formula, all_taken};
ghost use Rattle.term_logic.specs.Leaves.{LeavesWithin};
ghost use Rattle.term_logic.specs.Extends.{Extends};
ghost use Rattle.heap_logic.specs.Faults as move_fault;
ghost use Rattle.heap_logic.specs.Heaps.{AreSlots};
ghost use Rattle.heap_logic.specs.words.Leaves.{slot_leaves};
ghost use Rattle.symbolic_state.specs.States.{state_of, StateWithin};
ghost use Rattle.symbolic_state.specs.Growth.{Grown};
ghost use Rattle.symbolic_state.specs.Refused.{refusal_of};

use crate::limits::NODES;
use crate::refused::Refused;
use crate::slots::slots_of;
use crate::state::SymState;
use crate::tracked::TrackedState;
use heap_logic::MoveFault;
use notes::Reason;
use term_logic::{
    Formula, IdFormula, LeafIds, LeafScope, Term, TermId, TermTable, formula_in_scope,
};
use wasm_values::{LimitWord, List};

/// A formula of a move, its leaves replaced by the terms of the slots. Variables below `vars` stand for themselves.
fn taken_formula_by(
    table: &mut TermTable,
    vars: u32,
    slots: &LeafIds<'_>,
    f: &Formula,
) -> Result<IdFormula, Refused>
    requires leaves { LeavesWithin (length table.old) slots.now }
    requires slots { AreSlots slots.now }
    requires well_formed { IsTrue (well_formed_formula f.now) }
    ensures taken { Gives refusal_of (formula_of table.new) result (taken_formula (slot_leaves table.old vars slots.now) f.now) }
    ensures within { IfOk result (λ g. formula_bound g ≤ length table.new) }
    ensures kept { Extends table.old table.new }
{
    let scope = LeafScope {
        variables: vars,
        leaves: slots,
    };
    if !formula_in_scope(f, &scope) {
        return Err(Refused::Reason(Reason::Scope));
    }
    if table.replaced_formula_nodes(f, slots) > NODES {
        return Err(Refused::Limit(LimitWord::Nodes));
    }
    Ok(table.put_replaced_formula(f, slots)?)
}

/// A term with the leaves of a state and so many variables.
#[tactic(auto, using(crate::proofs::Placed::placed))]
fn term_taken(
    table: &mut TermTable,
    state: &SymState,
    variables: u32,
    t: &Term,
) -> Result<TermId, MoveFault>
    requires state { StateWithin (length table.old) state.now }
    requires well_formed { IsTrue (well_formed t.now) }
    ensures taken { Gives move_fault.refusal_of (tree_at table.new) result (taken (leaves_with variables (state_of table.old state.now)) t.now) }
    ensures within { IfOk result (λ id. id < length table.new) }
    ensures kept { Extends table.old table.new }
{
    let slots = slots_of(state);
    heap_logic::taken(table, variables, &slots, t)
}

/// A formula with the leaves of a state and so many variables.
#[tactic(auto, using(crate::proofs::Placed::placed, crate::proofs::Taken::takings))]
fn formula_taken(
    table: &mut TermTable,
    state: &SymState,
    variables: u32,
    f: &Formula,
) -> Result<IdFormula, Refused>
    requires state { StateWithin (length table.old) state.now }
    requires well_formed { IsTrue (well_formed_formula f.now) }
    ensures taken { Gives refusal_of (formula_of table.new) result (taken_formula (leaves_with variables (state_of table.old state.now)) f.now) }
    ensures within { IfOk result (λ g. formula_bound g ≤ length table.new) }
    ensures small { IfOk result (λ g. formula_nodes (formula_of table.new g) ≤ 4096) }
    ensures kept { Extends table.old table.new }
{
    let slots = slots_of(state);
    taken_formula_by(table, variables, &slots, f)
}

/// The formula of a row with the leaves of a state. `(index)` and `(item)` stay.
#[tactic(auto, using(crate::proofs::Placed::placed, crate::proofs::Taken::takings))]
fn row_taken(table: &mut TermTable, state: &SymState, f: &Formula) -> Result<IdFormula, Refused>
    requires state { StateWithin (length table.old) state.now }
    requires well_formed { IsTrue (well_formed_formula f.now) }
    ensures taken { Gives refusal_of (formula_of table.new) result (taken_formula (in_row (move_leaves (state_of table.old state.now))) f.now) }
    ensures within { IfOk result (λ g. formula_bound g ≤ length table.new) }
    ensures small { IfOk result (λ g. formula_nodes (formula_of table.new g) ≤ 4096) }
    ensures kept { Extends table.old table.new }
{
    let slots = slots_of(state);
    match heap_logic::taken_formula(table, state.heap.vars, &slots, f) {
        Ok(taken) => Ok(taken),
        Err(fault) => Err(Refused::from(fault)),
    }
}

impl TrackedState {
    /// A term with the leaves of the state and so many variables is taken.
    #[tactic(auto, using(crate::proofs::Growing::growing, crate::proofs::Grows::grown_over))]
    pub fn taken_with(&mut self, variables: u32, t: &Term) -> Result<TermId, Refused>
        requires { IsTrue (well_formed t.now) }
        ensures taken { Gives refusal_of (tree_at self.new.terms) result (taken (leaves_with variables self.old.state) t.now) }
        ensures within { IfOk result (λ id. id < length self.new.terms) }
        ensures state { IfOk result (λ _. self.new.state ≡ self.old.state) }
        ensures kept { IfOk result (λ _. Grown self.old self.new) }
    {
        Ok(term_taken(&mut self.table, &self.state, variables, t)?)
    }

    /// A term of a move is taken.
    pub fn taken(&mut self, t: &Term) -> Result<TermId, Refused>
        requires { IsTrue (well_formed t.now) }
        ensures taken { Gives refusal_of (tree_at self.new.terms) result (taken (move_leaves self.old.state) t.now) }
        ensures within { IfOk result (λ id. id < length self.new.terms) }
        ensures state { IfOk result (λ _. self.new.state ≡ self.old.state) }
        ensures kept { IfOk result (λ _. Grown self.old self.new) }
    {
        let variables = self.variables();
        self.taken_with(variables, t)
    }

    /// Terms of a move are taken, one by one.
    #[tactic(auto, using(crate::proofs::Takes::taking_terms))]
    pub fn all_taken(&mut self, terms: &[Term]) -> Result<List<TermId>, Refused>
        requires { IsTrue (list_all well_formed terms.now) }
        ensures taken { Gives refusal_of (map (tree_at self.new.terms)) result (all_taken (move_leaves self.old.state) terms.now) }
        ensures within { IfOk result (λ ids. All (λ id. id < length self.new.terms) ids) }
        ensures state { IfOk result (λ _. self.new.state ≡ self.old.state) }
        ensures kept { IfOk result (λ _. Grown self.old self.new) }
    {
        let mut taken = List::new(self.alloc);
        for term in terms {
            taken.push(self.taken(term)?)?;
        }
        Ok(taken)
    }

    /// A formula with the leaves of the state and so many variables is taken.
    #[tactic(auto, using(crate::proofs::Growing::growing, crate::proofs::Grows::grown_over))]
    pub fn taken_formula_with(&mut self, variables: u32, f: &Formula) -> Result<IdFormula, Refused>
        requires { IsTrue (well_formed_formula f.now) }
        ensures taken { Gives refusal_of (formula_of self.new.terms) result (taken_formula (leaves_with variables self.old.state) f.now) }
        ensures within { IfOk result (λ g. formula_bound g ≤ length self.new.terms) }
        ensures small { IfOk result (λ g. formula_nodes (formula_of self.new.terms g) ≤ 4096) }
        ensures state { IfOk result (λ _. self.new.state ≡ self.old.state) }
        ensures kept { IfOk result (λ _. Grown self.old self.new) }
    {
        formula_taken(&mut self.table, &self.state, variables, f)
    }

    /// A formula of a move is taken.
    pub fn taken_formula(&mut self, f: &Formula) -> Result<IdFormula, Refused>
        requires { IsTrue (well_formed_formula f.now) }
        ensures taken { Gives refusal_of (formula_of self.new.terms) result (taken_formula (move_leaves self.old.state) f.now) }
        ensures within { IfOk result (λ g. formula_bound g ≤ length self.new.terms) }
        ensures small { IfOk result (λ g. formula_nodes (formula_of self.new.terms g) ≤ 4096) }
        ensures state { IfOk result (λ _. self.new.state ≡ self.old.state) }
        ensures kept { IfOk result (λ _. Grown self.old self.new) }
    {
        let variables = self.variables();
        self.taken_formula_with(variables, f)
    }

    /// The formula of a row is taken. `(index)` and `(item)` stay.
    #[tactic(auto, using(crate::proofs::Growing::growing, crate::proofs::Grows::grown_over))]
    pub fn taken_row(&mut self, f: &Formula) -> Result<IdFormula, Refused>
        requires { IsTrue (well_formed_formula f.now) }
        ensures taken { Gives refusal_of (formula_of self.new.terms) result (taken_formula (in_row (move_leaves self.old.state)) f.now) }
        ensures within { IfOk result (λ g. formula_bound g ≤ length self.new.terms) }
        ensures small { IfOk result (λ g. formula_nodes (formula_of self.new.terms g) ≤ 4096) }
        ensures state { IfOk result (λ _. self.new.state ≡ self.old.state) }
        ensures kept { IfOk result (λ _. Grown self.old self.new) }
    {
        row_taken(&mut self.table, &self.state, f)
    }
}
