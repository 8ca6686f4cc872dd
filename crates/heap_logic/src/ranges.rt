ghost use Rattle.std.specs.Prelude.{◌≡◌, ◌<◌, ◌≤◌, [], ◌∷◌, length, map, IfOk, IsTrue};
ghost use Rattle.std.specs.List.{All};
ghost use Rattle.term_logic.specs.declared.formula.IdFormula.TheVariants as formula;
ghost use Rattle.term_logic.specs.Table.{tree_at};
ghost use Rattle.term_logic.specs.Extends.{Extends};
ghost use Rattle.term_logic.specs.Formulas.{formula_bound, formula_of};
ghost use Rattle.notes.specs.WellFormed.{is_width};
ghost use Rattle.outline_rules.specs.States.{number};
ghost use Rattle.outline_rules.specs.HeapMoves.{cell_range, greatest_in};

use crate::terms::number;
use crate::widths::greatest_in;
use std::alloc::Global;
use term_logic::{IdFormula, TermId, TermTable};
use wasm_values::{List, OutOfMemory};

/// The least and the greatest value of a cell of a width.
pub(crate) fn range_of(table: &mut TermTable, width: u32) -> Result<(TermId, TermId), OutOfMemory>
    requires { IsTrue (is_width width) }
    ensures least { IfOk result (λ p. tree_at table.new p.0 ≡ number 0) }
    ensures greatest { IfOk result (λ p. tree_at table.new p.1 ≡ number (greatest_in width)) }
    ensures within { IfOk result (λ p. (p.0 < length table.new) × (p.1 < length table.new)) }
    ensures kept { Extends table.old table.new }
{
    let least = number(table, 0)?;
    let greatest = number(table, greatest_in(width))?;
    Ok((least, greatest))
}

/// The range facts of a value, over its bounds.
pub(crate) fn between(
    alloc: Global,
    range: (TermId, TermId),
    value: TermId,
) -> Result<List<IdFormula>, OutOfMemory>
    ensures { IfOk result (λ fs. fs ≡ formula.Le range.0 value ∷ formula.Le value range.1 ∷ []) }
{
    let mut facts = List::new(alloc);
    facts.push(IdFormula::Le(range.0, value))?;
    facts.push(IdFormula::Le(value, range.1))?;
    Ok(facts)
}

/// The two range facts of the value of a cell.
#[tactic(auto, using(crate::proofs::FactForms::facts_over_ids))]
pub(crate) fn cell_range(
    alloc: Global,
    table: &mut TermTable,
    width: u32,
    value: TermId,
) -> Result<List<IdFormula>, OutOfMemory>
    requires width { IsTrue (is_width width) }
    requires value { value < length table.old }
    ensures facts { IfOk result (λ fs. map (formula_of table.new) fs ≡ cell_range width (tree_at table.old value)) }
    ensures within { IfOk result (λ fs. All (λ f. formula_bound f ≤ length table.new) fs) }
    ensures kept { Extends table.old table.new }
{
    let range = range_of(table, width)?;
    between(alloc, range, value)
}
