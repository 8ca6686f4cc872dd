ghost use Rattle.std.specs.Prelude.{◌≡◌, ◌≤◌, length, IfOk};
ghost use Rattle.term_logic.specs.Formulas.{formula_bound, formula_of};
ghost use Rattle.bitvector_rules.specs.Facts.{hyps_of, earlier_of, FactsWithin};
ghost use Rattle.bitvector_rules.specs.Machine.{fits_machine};

use crate::facts::Facts;
use crate::step::Ref;
use integer_rules::{IntegerRule, fits};
use std::alloc::Global;
use term_logic::{IdFormula, TermTable};
use wasm_values::OutOfMemory;

/// Whether the premises and the conclusion fit the rule.
pub(crate) fn fits_machine(
    alloc: Global,
    table: &TermTable,
    facts: &Facts<'_>,
    refs: &[Ref],
    conclusion: &IdFormula,
    rule: IntegerRule,
) -> Result<bool, OutOfMemory>
    requires facts { FactsWithin (length table.now) facts.now }
    requires conclusion { formula_bound conclusion.now ≤ length table.now }
    ensures { IfOk result (λ b. b ≡ fits_machine (hyps_of table.now facts.now) (earlier_of table.now facts.now) refs.now (formula_of table.now conclusion.now) rule) }
{
    match facts.all(alloc, table, refs)? {
        Some(premises) => Ok(fits(table, rule, premises.as_slice(), conclusion)),
        None => Ok(false),
    }
}
