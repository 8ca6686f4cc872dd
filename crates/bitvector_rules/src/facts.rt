ghost use Rattle.std.specs.Prelude.{◌≡◌, ◌≤◌, length, map, slice_get, IfOk, IfSome};
ghost use Rattle.std.specs.List.{All};
ghost use Rattle.std.specs.Option.{option_map};
ghost use Rattle.term_logic.specs.Formulas.{formula_bound, formula_of};
ghost use Rattle.bitvector_rules.specs.Facts.{AllWithin, fact_at, one_premise, two_premises, premises, hyps_of, earlier_of, FactsWithin};

use crate::items::{one_of, two_of};
use crate::step::Ref;
use std::alloc::Global;
use term_logic::{IdFormula, TermTable};
use wasm_values::OutOfMemory;

/// What a step may refer to: hypotheses, and the conclusions of the earlier steps of its list.
#[derive(Drop)]
pub struct Facts<'a> {
    pub hyps: &'a [IdFormula],
    pub added: &'a [IdFormula],
    /// So many of the added facts are hypotheses too. The others are the earlier conclusions.
    pub base: usize,
}

/// The formula at a position, where there is one.
fn look_up<'a>(table: &TermTable, facts: &'a [IdFormula], k: usize) -> Option<&'a IdFormula>
    requires { AllWithin (length table.now) facts.now }
    ensures fact { option_map (λ f. formula_of table.now f.now) result ≡ slice_get (map (formula_of table.now) facts.now) k }
    ensures within { IfSome result (λ f. formula_bound f.now ≤ length table.now) }
{
    let _ = table;
    facts.get(k)
}

impl Facts<'_> {
    /// The fact that a reference names, where it names one.
    fn at(&self, table: &TermTable, place: Ref) -> Option<&IdFormula>
        requires { FactsWithin (length table.now) self.now }
        ensures fact { option_map (λ f. formula_of table.now f.now) result ≡ fact_at (hyps_of table.now self.now) (earlier_of table.now self.now) place }
        ensures within { IfSome result (λ f. formula_bound f.now ≤ length table.now) }
    {
        match place {
            Ref::Hyp(k) => {
                let k = k as usize;
                if k < self.hyps.len() {
                    look_up(table, self.hyps, k)
                } else {
                    look_up(table, &self.added[..self.base], k - self.hyps.len())
                }
            }
            Ref::Earlier(k) => look_up(table, &self.added[self.base..], k as usize),
        }
    }

    /// The premise of a rule that has one.
    pub(crate) fn one(&self, table: &TermTable, refs: &[Ref]) -> Option<&IdFormula>
        requires { FactsWithin (length table.now) self.now }
        ensures premise { option_map (λ f. formula_of table.now f.now) result ≡ one_premise (hyps_of table.now self.now) (earlier_of table.now self.now) refs.now }
        ensures within { IfSome result (λ f. formula_bound f.now ≤ length table.now) }
    {
        let first = one_of(refs)?;
        self.at(table, *first)
    }

    /// The premises of a rule that has two.
    pub(crate) fn two(&self, table: &TermTable, refs: &[Ref]) -> Option<(&IdFormula, &IdFormula)>
        requires { FactsWithin (length table.now) self.now }
        ensures premises { option_map (λ p. (formula_of table.now p.0.now, formula_of table.now p.1.now)) result ≡ two_premises (hyps_of table.now self.now) (earlier_of table.now self.now) refs.now }
        ensures within { IfSome result (λ p. (formula_bound p.0.now ≤ length table.now) × (formula_bound p.1.now ≤ length table.now)) }
    {
        let (first, second) = two_of(refs)?;
        let f = self.at(table, *first)?;
        let g = self.at(table, *second)?;
        Some((f, g))
    }

    /// The premises of a rule that has any number.
    pub(crate) fn all(
        &self,
        alloc: Global,
        table: &TermTable,
        refs: &[Ref],
    ) -> Result<Option<Vec<&IdFormula>>, OutOfMemory>
        requires { FactsWithin (length table.now) self.now }
        ensures premises { IfOk result (λ o. option_map (λ v. map (λ f. formula_of table.now f.now) v.items) o ≡ premises (hyps_of table.now self.now) (earlier_of table.now self.now) refs.now) }
        ensures within { IfOk result (λ o. IfSome o (λ v. All (λ f. formula_bound f.now ≤ length table.now) v.items)) }
    {
        let mut premises = Vec::new(alloc);
        for place in refs {
            let Some(f) = self.at(table, *place) else {
                return Ok(None);
            };
            let Ok(()) = premises.push(f) else {
                return Err(OutOfMemory);
            };
        }
        Ok(Some(premises))
    }
}
