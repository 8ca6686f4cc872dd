ghost use Rattle.std.specs.Prelude.{◌≡◌, ◌<◌, ◌≤◌, length, IfSome};
ghost use Rattle.std.specs.Option.{option_map};
ghost use Rattle.term_logic.specs.Table.{tree_at};
ghost use Rattle.term_logic.specs.Formulas.{formula_bound, formula_of};
ghost use Rattle.term_trees.specs.Views.{is_true, is_false, eq_of, le_of, lt_of, not_of, and_of, or_of, imp_of};

use crate::formula::IdFormula;
use crate::table::{TermId, TermTable};

/// What the formula is made of, by its outermost form.
#[tactic(auto, using(crate::proofs::Formulas::opened))]
impl IdFormula {
    /// Whether the formula is `true`.
    pub fn is_true(&self, table: &TermTable) -> bool
        ensures { result ≡ is_true (formula_of table.now self.now) }
    {
        let _ = table;
        match self {
            IdFormula::True => true,
            _ => false,
        }
    }

    /// Whether the formula is `false`.
    pub fn is_false(&self, table: &TermTable) -> bool
        ensures { result ≡ is_false (formula_of table.now self.now) }
    {
        let _ = table;
        match self {
            IdFormula::False => true,
            _ => false,
        }
    }

    /// The sides of an equation.
    pub fn eq_of(&self, table: &TermTable) -> Option<(TermId, TermId)>
        requires { formula_bound self.now ≤ length table.now }
        ensures sides { option_map (λ p. (tree_at table.now p.0, tree_at table.now p.1)) result ≡ eq_of (formula_of table.now self.now) }
        ensures within { IfSome result (λ p. (p.0 < length table.now) × (p.1 < length table.now)) }
    {
        let _ = table;
        match self {
            IdFormula::Eq(a, b) => Some((*a, *b)),
            _ => None,
        }
    }

    /// The sides of `a <= b`.
    pub fn le_of(&self, table: &TermTable) -> Option<(TermId, TermId)>
        requires { formula_bound self.now ≤ length table.now }
        ensures sides { option_map (λ p. (tree_at table.now p.0, tree_at table.now p.1)) result ≡ le_of (formula_of table.now self.now) }
        ensures within { IfSome result (λ p. (p.0 < length table.now) × (p.1 < length table.now)) }
    {
        let _ = table;
        match self {
            IdFormula::Le(a, b) => Some((*a, *b)),
            _ => None,
        }
    }

    /// The sides of `a < b`.
    pub fn lt_of(&self, table: &TermTable) -> Option<(TermId, TermId)>
        requires { formula_bound self.now ≤ length table.now }
        ensures sides { option_map (λ p. (tree_at table.now p.0, tree_at table.now p.1)) result ≡ lt_of (formula_of table.now self.now) }
        ensures within { IfSome result (λ p. (p.0 < length table.now) × (p.1 < length table.now)) }
    {
        let _ = table;
        match self {
            IdFormula::Lt(a, b) => Some((*a, *b)),
            _ => None,
        }
    }

    /// What a negation denies.
    pub fn not_of(&self, table: &TermTable) -> Option<&IdFormula>
        requires { formula_bound self.now ≤ length table.now }
        ensures denied { option_map (λ f. formula_of table.now f.now) result ≡ not_of (formula_of table.now self.now) }
        ensures within { IfSome result (λ f. formula_bound f.now ≤ length table.now) }
    {
        let _ = table;
        match self {
            IdFormula::Not(f) => Some(f.get()),
            _ => None,
        }
    }

    /// The parts of a conjunction.
    pub fn and_of(&self, table: &TermTable) -> Option<(&IdFormula, &IdFormula)>
        requires { formula_bound self.now ≤ length table.now }
        ensures parts { option_map (λ p. (formula_of table.now p.0.now, formula_of table.now p.1.now)) result ≡ and_of (formula_of table.now self.now) }
        ensures within { IfSome result (λ p. (formula_bound p.0.now ≤ length table.now) × (formula_bound p.1.now ≤ length table.now)) }
    {
        let _ = table;
        match self {
            IdFormula::And(f, g) => Some((f.get(), g.get())),
            _ => None,
        }
    }

    /// The parts of a disjunction.
    pub fn or_of(&self, table: &TermTable) -> Option<(&IdFormula, &IdFormula)>
        requires { formula_bound self.now ≤ length table.now }
        ensures parts { option_map (λ p. (formula_of table.now p.0.now, formula_of table.now p.1.now)) result ≡ or_of (formula_of table.now self.now) }
        ensures within { IfSome result (λ p. (formula_bound p.0.now ≤ length table.now) × (formula_bound p.1.now ≤ length table.now)) }
    {
        let _ = table;
        match self {
            IdFormula::Or(f, g) => Some((f.get(), g.get())),
            _ => None,
        }
    }

    /// The premise and the conclusion of an implication.
    pub fn imp_of(&self, table: &TermTable) -> Option<(&IdFormula, &IdFormula)>
        requires { formula_bound self.now ≤ length table.now }
        ensures parts { option_map (λ p. (formula_of table.now p.0.now, formula_of table.now p.1.now)) result ≡ imp_of (formula_of table.now self.now) }
        ensures within { IfSome result (λ p. (formula_bound p.0.now ≤ length table.now) × (formula_bound p.1.now ≤ length table.now)) }
    {
        let _ = table;
        match self {
            IdFormula::Imp(f, g) => Some((f.get(), g.get())),
            _ => None,
        }
    }
}
