ghost use Rattle.std.specs.Prelude.{◌≡◌, ℕ, ◌<◌, ◌≤◌, List, length, map, IfOk, IsTrue};
ghost use Rattle.std.specs.List.{All};
ghost use Rattle.wasm_values.specs.Answers.{Gives};
ghost use Rattle.term_trees.specs.declared.term.Term.{Term};
ghost use Rattle.term_trees.specs.Formulas.{well_formed_formula};
ghost use Rattle.term_trees.specs.Leaves.{replaced_formula};
ghost use Rattle.term_logic.specs.Extends.{Extends};
ghost use Rattle.term_logic.specs.Table.{tree_at};
ghost use Rattle.term_logic.specs.Formulas.{formula_bound, formula_of};
ghost use Rattle.term_logic.specs.Leaves.{LeavesWithin, leaves_of};
ghost use Rattle.outline_rules.specs.States.{fact_added};
ghost use Rattle.outline_rules.specs.Moves.{lemma_leaves};
ghost use Rattle.symbolic_state.specs.Refused.{refusal_of};
ghost use Rattle.symbolic_state.specs.Growth.{Grown};
ghost use Rattle.symbolic_state.specs.words.Instances.{small_formula};

use crate::limits::NODES;
use crate::refused::Refused;
use crate::tracked::TrackedState;
use term_logic::{Formula, IdFormula, LeafIds, TermId, TermTable};
use wasm_values::LimitWord;

/// Terms as leaves, in place of variables.
pub fn in_place_of_variables(terms: &[TermId]) -> LeafIds<'_>
    ensures trees { (ts : List Term) → leaves_of ts result ≡ lemma_leaves (map (tree_at ts) terms.now) }
    ensures within { (n : ℕ) → All (λ id. id < n) terms.now → LeavesWithin n result }
{
    LeafIds::none().with_variables(terms)
}

/// A formula with terms in place of its variables, within the limit.
fn put_small(table: &mut TermTable, f: &Formula, terms: &[TermId]) -> Result<IdFormula, Refused>
    requires terms { All (λ id. id < length table.old) terms.now }
    requires well_formed { IsTrue (well_formed_formula f.now) }
    ensures put { Gives refusal_of (formula_of table.new) result (small_formula (replaced_formula (lemma_leaves (map (tree_at table.old) terms.now)) f.now)) }
    ensures within { IfOk result (λ g. formula_bound g ≤ length table.new) }
    ensures kept { Extends table.old table.new }
{
    let leaves = in_place_of_variables(terms);
    if table.replaced_formula_nodes(f, &leaves) > NODES {
        return Err(Refused::Limit(LimitWord::Nodes));
    }
    Ok(table.put_replaced_formula(f, &leaves)?)
}

impl TrackedState {
    /// A formula with terms in place of its variables, within the limit.
    #[tactic(auto, using(crate::proofs::Growing::growing, crate::proofs::Grows::grown_over))]
    pub fn put_instance(&mut self, f: &Formula, terms: &[TermId]) -> Result<IdFormula, Refused>
        requires terms { All (λ id. id < length self.old.terms) terms.now }
        requires well_formed { IsTrue (well_formed_formula f.now) }
        ensures put { Gives refusal_of (formula_of self.new.terms) result (small_formula (replaced_formula (lemma_leaves (map (tree_at self.old.terms) terms.now)) f.now)) }
        ensures within { IfOk result (λ g. formula_bound g ≤ length self.new.terms) }
        ensures state { IfOk result (λ _. self.new.state ≡ self.old.state) }
        ensures kept { IfOk result (λ _. Grown self.old self.new) }
    {
        put_small(&mut self.table, f, terms)
    }

    /// One more fact: a formula with terms in place of its variables.
    #[tactic(auto, using(crate::proofs::Leafing::instances))]
    pub fn add_instance(&mut self, f: &Formula, terms: &[TermId]) -> Result<(), Refused>
        requires terms { All (λ id. id < length self.old.terms) terms.now }
        requires well_formed { IsTrue (well_formed_formula f.now) }
        ensures done { Gives refusal_of (λ _. self.new.state) result (fact_added (replaced_formula (lemma_leaves (map (tree_at self.old.terms) terms.now)) f.now) self.old.state) }
        ensures kept { IfOk result (λ _. Grown self.old self.new) }
    {
        let fact = self.put_instance(f, terms)?;
        self.add_fact(fact)
    }
}
