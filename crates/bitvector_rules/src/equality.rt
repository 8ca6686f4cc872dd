ghost use Rattle.std.specs.Prelude.{◌≡◌, ◌≤◌, ◌&&◌, length, IfOk, IsTrue};
ghost use Rattle.term_trees.specs.Formulas.{well_formed_formula};
ghost use Rattle.term_logic.specs.Formulas.{formula_bound, formula_of};
ghost use Rattle.term_trees.specs.Same.{passes};
ghost use Rattle.equality_rules.specs.Equality.{is_refl, is_eval, is_floor, is_ceil, is_order, is_notle, is_notlt, is_mulpos};
ghost use Rattle.equality_rules.specs.Rewrite.{is_rewrite};
ghost use Rattle.bitvector_rules.specs.Facts.{is_empty, one_premise, two_premises, hyps_of, earlier_of, FactsWithin};
ghost use Rattle.bitvector_rules.specs.Goals.{fits_linear};

use crate::facts::Facts;
use crate::items::is_empty;
use crate::step::Ref;
use equality_rules::{
    is_ceil, is_eval, is_floor, is_linear, is_mulpos, is_notle, is_notlt, is_order, is_refl,
    is_rewrite,
};
use std::alloc::Global;
use term_logic::{Formula, IdFormula, TermTable};
use wasm_values::OutOfMemory;

/// Whether the conclusion equates a term with itself, and there are no premises.
pub(crate) fn by_refl(
    table: &TermTable,
    _facts: &Facts<'_>,
    refs: &[Ref],
    conclusion: &IdFormula,
) -> bool
    requires { formula_bound conclusion.now ≤ length table.now }
    ensures { result ≡ (is_empty refs.now && is_refl (formula_of table.now conclusion.now)) }
{
    is_empty(refs) && is_refl(table, conclusion)
}

/// Whether the conclusion, which stands for the tree, is ground and true, and there are no premises.
pub(crate) fn by_eval(
    table: &TermTable,
    refs: &[Ref],
    conclusion: &IdFormula,
    tree: &Formula,
) -> bool
    requires tree { formula_of table.now conclusion.now ≡ tree.now }
    requires well_formed { IsTrue (well_formed_formula tree.now) }
    ensures { result ≡ (is_empty refs.now && is_eval (formula_of table.now conclusion.now)) }
{
    let _ = table;
    let _ = conclusion;
    is_empty(refs) && is_eval(tree)
}

/// Whether the conclusion says how two terms are ordered, and there are no premises.
pub(crate) fn by_order(
    table: &TermTable,
    _facts: &Facts<'_>,
    refs: &[Ref],
    conclusion: &IdFormula,
) -> bool
    requires { formula_bound conclusion.now ≤ length table.now }
    ensures { result ≡ (is_empty refs.now && is_order (formula_of table.now conclusion.now)) }
{
    is_empty(refs) && is_order(table, conclusion)
}

/// Whether the conclusion is the second premise, some of its terms replaced by the first.
pub(crate) fn by_rewrite(
    table: &TermTable,
    facts: &Facts<'_>,
    refs: &[Ref],
    conclusion: &IdFormula,
) -> bool
    requires facts { FactsWithin (length table.now) facts.now }
    requires conclusion { formula_bound conclusion.now ≤ length table.now }
    ensures { result ≡ passes (two_premises (hyps_of table.now facts.now) (earlier_of table.now facts.now) refs.now) (λ p. is_rewrite p.0 p.1 (formula_of table.now conclusion.now)) }
{
    match facts.two(table, refs) {
        Some((equation, f)) => is_rewrite(table, equation, f, conclusion),
        None => false,
    }
}

/// Whether the conclusion bounds a term from above as the premise bounds a multiple.
pub(crate) fn by_floor(
    table: &TermTable,
    facts: &Facts<'_>,
    refs: &[Ref],
    conclusion: &IdFormula,
) -> bool
    requires facts { FactsWithin (length table.now) facts.now }
    requires conclusion { formula_bound conclusion.now ≤ length table.now }
    ensures { result ≡ passes (one_premise (hyps_of table.now facts.now) (earlier_of table.now facts.now) refs.now) (λ p. is_floor p (formula_of table.now conclusion.now)) }
{
    match facts.one(table, refs) {
        Some(p) => is_floor(table, p, conclusion),
        None => false,
    }
}

/// Whether the conclusion bounds a term from below as the premise bounds a multiple.
pub(crate) fn by_ceil(
    table: &TermTable,
    facts: &Facts<'_>,
    refs: &[Ref],
    conclusion: &IdFormula,
) -> bool
    requires facts { FactsWithin (length table.now) facts.now }
    requires conclusion { formula_bound conclusion.now ≤ length table.now }
    ensures { result ≡ passes (one_premise (hyps_of table.now facts.now) (earlier_of table.now facts.now) refs.now) (λ p. is_ceil p (formula_of table.now conclusion.now)) }
{
    match facts.one(table, refs) {
        Some(p) => is_ceil(table, p, conclusion),
        None => false,
    }
}

/// Whether the premise denies `<=`, and the conclusion is what follows.
pub(crate) fn by_notle(
    table: &TermTable,
    facts: &Facts<'_>,
    refs: &[Ref],
    conclusion: &IdFormula,
) -> bool
    requires facts { FactsWithin (length table.now) facts.now }
    requires conclusion { formula_bound conclusion.now ≤ length table.now }
    ensures { result ≡ passes (one_premise (hyps_of table.now facts.now) (earlier_of table.now facts.now) refs.now) (λ p. is_notle p (formula_of table.now conclusion.now)) }
{
    match facts.one(table, refs) {
        Some(p) => is_notle(table, p, conclusion),
        None => false,
    }
}

/// Whether the premise denies `<`, and the conclusion is what follows.
pub(crate) fn by_notlt(
    table: &TermTable,
    facts: &Facts<'_>,
    refs: &[Ref],
    conclusion: &IdFormula,
) -> bool
    requires facts { FactsWithin (length table.now) facts.now }
    requires conclusion { formula_bound conclusion.now ≤ length table.now }
    ensures { result ≡ passes (one_premise (hyps_of table.now facts.now) (earlier_of table.now facts.now) refs.now) (λ p. is_notlt p (formula_of table.now conclusion.now)) }
{
    match facts.one(table, refs) {
        Some(p) => is_notlt(table, p, conclusion),
        None => false,
    }
}

/// Whether the conclusion says of the product what the premises say of its sides.
pub(crate) fn by_mulpos(
    table: &TermTable,
    facts: &Facts<'_>,
    refs: &[Ref],
    conclusion: &IdFormula,
) -> bool
    requires facts { FactsWithin (length table.now) facts.now }
    requires conclusion { formula_bound conclusion.now ≤ length table.now }
    ensures { result ≡ passes (two_premises (hyps_of table.now facts.now) (earlier_of table.now facts.now) refs.now) (λ p. is_mulpos p.0 p.1 (formula_of table.now conclusion.now)) }
{
    match facts.two(table, refs) {
        Some((first, second)) => is_mulpos(table, first, second, conclusion),
        None => false,
    }
}

/// Whether a step fits `linear`.
pub(crate) fn fits_linear(
    alloc: Global,
    table: &TermTable,
    facts: &Facts<'_>,
    refs: &[Ref],
    numbers: &[i128],
    conclusion: &IdFormula,
) -> Result<bool, OutOfMemory>
    requires facts { FactsWithin (length table.now) facts.now }
    requires conclusion { formula_bound conclusion.now ≤ length table.now }
    ensures { IfOk result (λ b. b ≡ fits_linear (hyps_of table.now facts.now) (earlier_of table.now facts.now) refs.now numbers.now (formula_of table.now conclusion.now)) }
{
    let Some(premises) = facts.all(alloc, table, refs)? else {
        return Ok(false);
    };
    let fits = is_linear(alloc, table, &premises, numbers, conclusion)?;
    Ok(fits)
}
