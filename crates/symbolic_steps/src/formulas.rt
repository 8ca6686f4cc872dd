// Formulas that instructions make, over terms of a table.

ghost use Rattle.std.specs.Prelude.{◌≡◌, ◌<◌, ◌≤◌, length, IfOk};
ghost use Rattle.term_trees.specs.declared.term.Term.{Term};
ghost use Rattle.term_trees.specs.declared.term.Term.TheVariants as term;
ghost use Rattle.term_trees.specs.declared.term.Formula.TheVariants as formula;
ghost use Rattle.term_logic.specs.Table.{tree_at};
ghost use Rattle.term_logic.specs.Formulas.{formula_bound, formula_of};
ghost use Rattle.outline_rules.specs.States.{number};
ghost use Rattle.outline_rules.specs.Instructions.{chosen};
ghost use Rattle.outline_rules.specs.Memory.{growth};

use std::alloc::Global;
use term_logic::{IdFormula, TermId, TermTable};
use term_trees::Boxed;
use wasm_values::OutOfMemory;

/// That two terms are equal.
#[tactic(auto, using(crate::proofs::Making::made))]
pub(crate) fn equal(table: &TermTable, a: TermId, b: TermId) -> IdFormula
    requires first { a < length table.now }
    requires second { b < length table.now }
    ensures formula { formula_of table.now result ≡ formula.Eq (tree_at table.now a) (tree_at table.now b) }
    ensures within { formula_bound result ≤ length table.now }
{
    let _ = table;
    IdFormula::Eq(a, b)
}

/// That a term is at most another.
#[tactic(auto, using(crate::proofs::Making::made))]
pub(crate) fn at_most(table: &TermTable, a: TermId, b: TermId) -> IdFormula
    requires first { a < length table.now }
    requires second { b < length table.now }
    ensures formula { formula_of table.now result ≡ formula.Le (tree_at table.now a) (tree_at table.now b) }
    ensures within { formula_bound result ≤ length table.now }
{
    let _ = table;
    IdFormula::Le(a, b)
}

/// A denial.
#[tactic(auto, using(crate::proofs::Making::made))]
pub(crate) fn denied(
    alloc: Global,
    table: &TermTable,
    f: IdFormula,
) -> Result<IdFormula, OutOfMemory>
    requires { formula_bound f ≤ length table.now }
    ensures formula { IfOk result (λ g. formula_of table.now g ≡ formula.Not (formula_of table.now f)) }
    ensures within { IfOk result (λ g. formula_bound g ≤ length table.now) }
{
    let _ = table;
    Ok(IdFormula::Not(Boxed::new(alloc, f)?))
}

/// Both of two formulas.
#[tactic(auto, using(crate::proofs::Making::made))]
pub(crate) fn both(
    alloc: Global,
    table: &TermTable,
    f: IdFormula,
    g: IdFormula,
) -> Result<IdFormula, OutOfMemory>
    requires first { formula_bound f ≤ length table.now }
    requires second { formula_bound g ≤ length table.now }
    ensures formula { IfOk result (λ h. formula_of table.now h ≡ formula.And (formula_of table.now f) (formula_of table.now g)) }
    ensures within { IfOk result (λ h. formula_bound h ≤ length table.now) }
{
    let _ = table;
    let f = Boxed::new(alloc, f)?;
    let g = Boxed::new(alloc, g)?;
    Ok(IdFormula::And(f, g))
}

/// One of two formulas.
#[tactic(auto, using(crate::proofs::Making::made))]
pub(crate) fn either(
    alloc: Global,
    table: &TermTable,
    f: IdFormula,
    g: IdFormula,
) -> Result<IdFormula, OutOfMemory>
    requires first { formula_bound f ≤ length table.now }
    requires second { formula_bound g ≤ length table.now }
    ensures formula { IfOk result (λ h. formula_of table.now h ≡ formula.Or (formula_of table.now f) (formula_of table.now g)) }
    ensures within { IfOk result (λ h. formula_bound h ≤ length table.now) }
{
    let _ = table;
    let f = Boxed::new(alloc, f)?;
    let g = Boxed::new(alloc, g)?;
    Ok(IdFormula::Or(f, g))
}

/// What is known of the outcome of `select`, where a term is 0.
pub(crate) fn chosen(
    alloc: Global,
    table: &TermTable,
    outcome: TermId,
    choices: (TermId, TermId),
    condition: TermId,
    zero: TermId,
) -> Result<IdFormula, OutOfMemory>
    requires outcome { outcome < length table.now }
    requires first { choices.0 < length table.now }
    requires second { choices.1 < length table.now }
    requires condition { condition < length table.now }
    requires zero { zero < length table.now }
    requires is_zero { tree_at table.now zero ≡ number 0 }
    ensures formula { IfOk result (λ f. formula_of table.now f ≡ chosen (tree_at table.now outcome) (tree_at table.now choices.0) (tree_at table.now choices.1) (tree_at table.now condition)) }
    ensures within { IfOk result (λ f. formula_bound f ≤ length table.now) }
{
    let nonzero = denied(alloc, table, equal(table, condition, zero))?;
    let first = both(alloc, table, nonzero, equal(table, outcome, choices.0))?;
    let second = both(
        alloc,
        table,
        equal(table, condition, zero),
        equal(table, outcome, choices.1),
    )?;
    either(alloc, table, first, second)
}

/// What is known of the outcome of a growth from one page count to another, of which these are the failure and the sum.
pub(crate) fn growth(
    alloc: Global,
    table: &TermTable,
    outcome: TermId,
    pages: (TermId, TermId),
    failure: TermId,
    sum: TermId,
) -> Result<IdFormula, OutOfMemory>
    requires outcome { outcome < length table.now }
    requires before { pages.0 < length table.now }
    requires after { pages.1 < length table.now }
    requires failure { failure < length table.now }
    requires sum { sum < length table.now }
    requires failed { tree_at table.now failure ≡ number 4294967295 }
    ensures formula { IfOk result (λ f. (n : Term) → tree_at table.now sum ≡ term.Add (tree_at table.now pages.0) n → formula_of table.now f ≡ growth (tree_at table.now outcome) (tree_at table.now pages.0) (tree_at table.now pages.1) n) }
    ensures within { IfOk result (λ f. formula_bound f ≤ length table.now) }
{
    let failed = equal(table, outcome, failure);
    let stays = both(alloc, table, failed, equal(table, pages.1, pages.0))?;
    let grown = equal(table, outcome, pages.0);
    let grows = both(alloc, table, grown, equal(table, pages.1, sum))?;
    either(alloc, table, stays, grows)
}
