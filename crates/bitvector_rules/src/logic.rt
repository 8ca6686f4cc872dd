ghost use Rattle.std.specs.Prelude.{◌≡◌, ◌≤◌, ◌&&◌, length};
ghost use Rattle.term_logic.specs.Formulas.{formula_bound, formula_of};
ghost use Rattle.term_trees.specs.Same.{passes, same_formula};
ghost use Rattle.term_trees.specs.Views.{is_true, is_false, not_of, and_of, or_of, imp_of};
ghost use Rattle.bitvector_rules.specs.Facts.{is_empty, one_premise, two_premises, hyps_of, earlier_of, FactsWithin};

use crate::facts::Facts;
use crate::items::is_empty;
use crate::step::Ref;
use term_logic::{IdFormula, TermTable};

/// Whether the conclusion is the premise.
pub(crate) fn is_hyp(
    table: &TermTable,
    facts: &Facts<'_>,
    refs: &[Ref],
    conclusion: &IdFormula,
) -> bool
    requires facts { FactsWithin (length table.now) facts.now }
    requires conclusion { formula_bound conclusion.now ≤ length table.now }
    ensures { result ≡ passes (one_premise (hyps_of table.now facts.now) (earlier_of table.now facts.now) refs.now) (λ f. same_formula f (formula_of table.now conclusion.now)) }
{
    match facts.one(table, refs) {
        Some(f) => table.same_formula(f, conclusion),
        None => false,
    }
}

/// Whether the conclusion is `true`, and there are no premises.
pub(crate) fn is_true(
    table: &TermTable,
    _facts: &Facts<'_>,
    refs: &[Ref],
    conclusion: &IdFormula,
) -> bool
    requires { formula_bound conclusion.now ≤ length table.now }
    ensures { result ≡ (is_empty refs.now && is_true (formula_of table.now conclusion.now)) }
{
    is_empty(refs) && conclusion.is_true(table)
}

/// Whether the conclusion is the conjunction of the two formulas.
fn joins(table: &TermTable, f: &IdFormula, g: &IdFormula, conclusion: &IdFormula) -> bool
    requires first { formula_bound f.now ≤ length table.now }
    requires second { formula_bound g.now ≤ length table.now }
    requires conclusion { formula_bound conclusion.now ≤ length table.now }
    ensures { result ≡ passes (and_of (formula_of table.now conclusion.now)) (λ q. same_formula (formula_of table.now f.now) q.0 && same_formula (formula_of table.now g.now) q.1) }
{
    match conclusion.and_of(table) {
        Some((h, k)) => table.same_formula(f, h) && table.same_formula(g, k),
        None => false,
    }
}

/// Whether the conclusion is the conjunction of the premises.
pub(crate) fn is_and(
    table: &TermTable,
    facts: &Facts<'_>,
    refs: &[Ref],
    conclusion: &IdFormula,
) -> bool
    requires facts { FactsWithin (length table.now) facts.now }
    requires conclusion { formula_bound conclusion.now ≤ length table.now }
    ensures { result ≡ passes (two_premises (hyps_of table.now facts.now) (earlier_of table.now facts.now) refs.now) (λ p. passes (and_of (formula_of table.now conclusion.now)) (λ q. same_formula p.0 q.0 && same_formula p.1 q.1)) }
{
    match facts.two(table, refs) {
        Some((f, g)) => joins(table, f, g, conclusion),
        None => false,
    }
}

/// Whether the premise is a conjunction whose first part is the conclusion.
pub(crate) fn is_left(
    table: &TermTable,
    facts: &Facts<'_>,
    refs: &[Ref],
    conclusion: &IdFormula,
) -> bool
    requires facts { FactsWithin (length table.now) facts.now }
    requires conclusion { formula_bound conclusion.now ≤ length table.now }
    ensures { result ≡ passes (one_premise (hyps_of table.now facts.now) (earlier_of table.now facts.now) refs.now) (λ p. passes (and_of p) (λ q. same_formula q.0 (formula_of table.now conclusion.now))) }
{
    let Some(p) = facts.one(table, refs) else {
        return false;
    };
    match p.and_of(table) {
        Some((f, _)) => table.same_formula(f, conclusion),
        None => false,
    }
}

/// Whether the premise is a conjunction whose second part is the conclusion.
pub(crate) fn is_right(
    table: &TermTable,
    facts: &Facts<'_>,
    refs: &[Ref],
    conclusion: &IdFormula,
) -> bool
    requires facts { FactsWithin (length table.now) facts.now }
    requires conclusion { formula_bound conclusion.now ≤ length table.now }
    ensures { result ≡ passes (one_premise (hyps_of table.now facts.now) (earlier_of table.now facts.now) refs.now) (λ p. passes (and_of p) (λ q. same_formula q.1 (formula_of table.now conclusion.now))) }
{
    let Some(p) = facts.one(table, refs) else {
        return false;
    };
    match p.and_of(table) {
        Some((_, g)) => table.same_formula(g, conclusion),
        None => false,
    }
}

/// Whether the conclusion is a disjunction whose first part is the premise.
pub(crate) fn is_orl(
    table: &TermTable,
    facts: &Facts<'_>,
    refs: &[Ref],
    conclusion: &IdFormula,
) -> bool
    requires facts { FactsWithin (length table.now) facts.now }
    requires conclusion { formula_bound conclusion.now ≤ length table.now }
    ensures { result ≡ passes (one_premise (hyps_of table.now facts.now) (earlier_of table.now facts.now) refs.now) (λ f. passes (or_of (formula_of table.now conclusion.now)) (λ q. same_formula f q.0)) }
{
    let Some(f) = facts.one(table, refs) else {
        return false;
    };
    match conclusion.or_of(table) {
        Some((h, _)) => table.same_formula(f, h),
        None => false,
    }
}

/// Whether the conclusion is a disjunction whose second part is the premise.
pub(crate) fn is_orr(
    table: &TermTable,
    facts: &Facts<'_>,
    refs: &[Ref],
    conclusion: &IdFormula,
) -> bool
    requires facts { FactsWithin (length table.now) facts.now }
    requires conclusion { formula_bound conclusion.now ≤ length table.now }
    ensures { result ≡ passes (one_premise (hyps_of table.now facts.now) (earlier_of table.now facts.now) refs.now) (λ f. passes (or_of (formula_of table.now conclusion.now)) (λ q. same_formula f q.1)) }
{
    let Some(f) = facts.one(table, refs) else {
        return false;
    };
    match conclusion.or_of(table) {
        Some((_, k)) => table.same_formula(f, k),
        None => false,
    }
}

/// Whether the first formula is an implication from the second to the conclusion.
fn leads(table: &TermTable, p: &IdFormula, f: &IdFormula, conclusion: &IdFormula) -> bool
    requires first { formula_bound p.now ≤ length table.now }
    requires second { formula_bound f.now ≤ length table.now }
    requires conclusion { formula_bound conclusion.now ≤ length table.now }
    ensures { result ≡ passes (imp_of (formula_of table.now p.now)) (λ q. same_formula q.0 (formula_of table.now f.now) && same_formula q.1 (formula_of table.now conclusion.now)) }
{
    match p.imp_of(table) {
        Some((h, k)) => table.same_formula(h, f) && table.same_formula(k, conclusion),
        None => false,
    }
}

/// Whether the premises are an implication and what it starts from, and the conclusion is what it leads to.
pub(crate) fn is_apply(
    table: &TermTable,
    facts: &Facts<'_>,
    refs: &[Ref],
    conclusion: &IdFormula,
) -> bool
    requires facts { FactsWithin (length table.now) facts.now }
    requires conclusion { formula_bound conclusion.now ≤ length table.now }
    ensures { result ≡ passes (two_premises (hyps_of table.now facts.now) (earlier_of table.now facts.now) refs.now) (λ p. passes (imp_of p.0) (λ q. same_formula q.0 p.1 && same_formula q.1 (formula_of table.now conclusion.now))) }
{
    match facts.two(table, refs) {
        Some((p, f)) => leads(table, p, f, conclusion),
        None => false,
    }
}

/// Whether the second premise denies the first.
fn clashes(table: &TermTable, facts: &Facts<'_>, refs: &[Ref]) -> bool
    requires { FactsWithin (length table.now) facts.now }
    ensures { result ≡ passes (two_premises (hyps_of table.now facts.now) (earlier_of table.now facts.now) refs.now) (λ p. passes (not_of p.1) (λ f. same_formula p.0 f)) }
{
    let Some((f, g)) = facts.two(table, refs) else {
        return false;
    };
    match g.not_of(table) {
        Some(h) => table.same_formula(f, h),
        None => false,
    }
}

/// Whether the second premise denies the first, and the conclusion is `false`.
pub(crate) fn is_clash(
    table: &TermTable,
    facts: &Facts<'_>,
    refs: &[Ref],
    conclusion: &IdFormula,
) -> bool
    requires facts { FactsWithin (length table.now) facts.now }
    requires conclusion { formula_bound conclusion.now ≤ length table.now }
    ensures { result ≡ (passes (two_premises (hyps_of table.now facts.now) (earlier_of table.now facts.now) refs.now) (λ p. passes (not_of p.1) (λ f. same_formula p.0 f)) && is_false (formula_of table.now conclusion.now)) }
{
    clashes(table, facts, refs) && conclusion.is_false(table)
}

/// Whether the premise is `false`.
pub(crate) fn is_explode(
    table: &TermTable,
    facts: &Facts<'_>,
    refs: &[Ref],
    _conclusion: &IdFormula,
) -> bool
    requires { FactsWithin (length table.now) facts.now }
    ensures { result ≡ passes (one_premise (hyps_of table.now facts.now) (earlier_of table.now facts.now) refs.now) (λ p. is_false p) }
{
    match facts.one(table, refs) {
        Some(p) => p.is_false(table),
        None => false,
    }
}
