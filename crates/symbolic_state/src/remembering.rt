ghost use Rattle.std.specs.Prelude.{◌≡◌, ◌<◌, ◌≤◌, length, map, IfOk, Some};
ghost use Rattle.std.specs.List.{All};
ghost use Rattle.term_logic.specs.Table.{tree_at};
ghost use Rattle.term_logic.specs.Formulas.{formula_bound, formula_of};
ghost use Rattle.outline_rules.specs.Refusals.{AtHole};
ghost use Rattle.outline_rules.specs.Entry.{with_args};
ghost use Rattle.symbolic_state.specs.Refused.{refusal_of};

use crate::refused::Refused;
use crate::tracked::TrackedState;
use std::alloc::Global;
use term_logic::{Formula, IdFormula, TermId, TermTable};
use wasm_values::{List, OutOfMemory, ValType};

/// The terms of entries.
fn terms_of(alloc: Global, entries: &[(ValType, TermId)]) -> Result<List<TermId>, OutOfMemory>
    ensures { IfOk result (λ ids. ids ≡ map (λ e. e.1) entries.now) }
{
    let mut ids = List::new(alloc);
    for entry in entries {
        ids.push(entry.1)?;
    }
    Ok(ids)
}

/// The trees of formulas.
fn formula_trees(
    alloc: Global,
    table: &TermTable,
    formulas: &[IdFormula],
) -> Result<List<Formula>, OutOfMemory>
    requires { All (λ f. formula_bound f ≤ length table.now) formulas.now }
    ensures { IfOk result (λ trees. trees ≡ map (formula_of table.now) formulas.now) }
{
    let mut trees = List::new(alloc);
    for formula in formulas {
        trees.push(table.formula_tree(formula)?)?;
    }
    Ok(trees)
}

impl TrackedState {
    /// The terms of the locals become those of the parameters.
    #[tactic(auto, using(crate::proofs::Remembered::terms))]
    pub fn remember_args(&mut self) -> Result<(), OutOfMemory>
        ensures { IfOk result (λ _. self.new ≡ record self.old { state = with_args self.old.state }) }
    {
        self.state.args = terms_of(self.alloc, self.state.locals.as_slice())?;
        Ok(())
    }

    /// These terms become those of the precondition's own variables.
    pub fn remember_given(&mut self, ids: List<TermId>)
        requires { All (λ id. id < length self.old.terms) ids }
        ensures { self.new ≡ record self.old { state = record self.old.state { given = map (tree_at self.old.terms) ids } } }
    {
        self.state.given = ids;
    }

    /// The refusal of a derivation without steps.
    pub fn hole(&self, goal: &IdFormula) -> Result<Refused, OutOfMemory>
        requires { formula_bound goal.now ≤ length self.now.terms }
        ensures { IfOk result (λ r. refusal_of r ≡ Some (AtHole self.now.state.facts (formula_of self.now.terms goal.now))) }
    {
        let facts = formula_trees(self.alloc, &self.table, self.state.heap.facts.as_slice())?;
        let goal = self.table.formula_tree(goal)?;
        Ok(Refused::Hole { facts, goal })
    }
}
