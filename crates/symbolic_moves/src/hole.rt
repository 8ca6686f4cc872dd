// What a derivation without steps lacks.

ghost use Rattle.std.specs.Prelude.{◌≡◌, ◌≤◌, [], length, map, IfOk};
ghost use Rattle.std.specs.List.{All};
ghost use Rattle.wasm_values.specs.Answers.{Fails};
ghost use Rattle.term_logic.specs.Formulas.{formula_bound, formula_of};
ghost use Rattle.outline_rules.specs.Moves.{shown};
ghost use Rattle.symbolic_state.specs.Refused.{refusal_of};

use std::alloc::Global;
use symbolic_state::{Refused, TrackedState};
use term_logic::{Formula, IdFormula, TermTable};
use wasm_values::{List, OutOfMemory};

/// Formulas over a table as trees.
fn trees_of(
    alloc: Global,
    table: &TermTable,
    formulas: &[IdFormula],
) -> Result<List<Formula>, OutOfMemory>
    requires { All (λ f. formula_bound f ≤ length table.now) formulas.now }
    ensures { IfOk result (λ trees. trees ≡ map (formula_of table.now) formulas.now) }
{
    let mut trees = List::new(alloc);
    for formula in formulas {
        trees.push(table.formula_tree(formula)?)?;
    }
    Ok(trees)
}

/// The facts of a state, and a goal, as trees.
fn parts_of_hole(
    state: &TrackedState,
    goal: &IdFormula,
) -> Result<(List<Formula>, Formula), OutOfMemory>
    requires { formula_bound goal.now ≤ length state.now.terms }
    ensures { IfOk result (λ parts. (parts.0 ≡ state.now.state.facts) × (parts.1 ≡ formula_of state.now.terms goal.now)) }
{
    let facts = trees_of(state.allocator(), state.table(), state.facts())?;
    let goal = state.table().formula_tree(goal)?;
    Ok((facts, goal))
}

/// The refusal that a derivation of a goal without steps is.
pub(crate) fn hole(state: &TrackedState, goal: &IdFormula) -> Refused
    requires { formula_bound goal.now ≤ length state.now.terms }
    ensures { Fails refusal_of result (shown (formula_of state.now.terms goal.now) [] state.now.state) }
{
    match parts_of_hole(state, goal) {
        Ok((facts, goal)) => Refused::Hole { facts, goal },
        Err(error) => Refused::from(error),
    }
}
