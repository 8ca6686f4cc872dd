ghost use Rattle.std.specs.Prelude.{◌≡◌, ◌<◌, ◌≤◌, [], pos, length, map, IfOk, IfSome};
ghost use Rattle.std.specs.List.{All, list_all};
ghost use Rattle.std.specs.Option.{option_map};
ghost use Rattle.term_logic.specs.Table.{tree_at};
ghost use Rattle.term_logic.specs.Formulas.{formula_bound, formula_of};
ghost use Rattle.term_trees.specs.Linear.{shown_form, linear_parts};
ghost use Rattle.term_logic.specs.Linear.{FormWithin};
ghost use Rattle.equality_rules.specs.Linear.{difference, strict_difference, is_equation, is_linear};
ghost use Rattle.equality_rules.specs.words.Sums.{claimed_form, concluded_form, weighed_form, added, total_after};

use crate::sums::{remains, scaled};
use std::alloc::Global;
use term_logic::{IdFormula, Linear, TermId, TermTable, Way};
use wasm_values::OutOfMemory;

/// The form of what the second term is more than the first.
#[tactic(auto, using(term_trees::proofs::LinearForms::linear_forms))]
fn difference(
    alloc: Global,
    table: &TermTable,
    sides: (TermId, TermId),
) -> Result<Option<Linear<TermId>>, OutOfMemory>
    requires { (sides.0 < length table.now) × (sides.1 < length table.now) }
    ensures form { IfOk result (λ o. option_map (shown_form (tree_at table.now)) o ≡ linear_parts (difference (tree_at table.now sides.0, tree_at table.now sides.1))) }
    ensures within { IfOk result (λ o. IfSome o (λ l. FormWithin (length table.now) l)) }
{
    let (a, b) = sides;
    let Some(first) = table.form_of(alloc, b)? else {
        return Ok(None);
    };
    let Some(second) = table.form_of(alloc, a)? else {
        return Ok(None);
    };
    table.joined_forms(alloc, Way::Difference, &first, &second)
}

/// The same, less 1.
#[tactic(auto, using(term_trees::proofs::LinearForms::linear_forms))]
fn strict_difference(
    alloc: Global,
    table: &TermTable,
    sides: (TermId, TermId),
) -> Result<Option<Linear<TermId>>, OutOfMemory>
    requires { (sides.0 < length table.now) × (sides.1 < length table.now) }
    ensures form { IfOk result (λ o. option_map (shown_form (tree_at table.now)) o ≡ linear_parts (strict_difference (tree_at table.now sides.0, tree_at table.now sides.1))) }
    ensures within { IfOk result (λ o. IfSome o (λ l. FormWithin (length table.now) l)) }
{
    let Some(most) = difference(alloc, table, sides)? else {
        return Ok(None);
    };
    let Some(one) = table.number_form(alloc, 1) else {
        return Ok(None);
    };
    table.joined_forms(alloc, Way::Difference, &most, &one)
}

/// The form of the term that a formula says to be 0, or to be at least 0.
fn claimed_form(
    alloc: Global,
    table: &TermTable,
    f: &IdFormula,
) -> Result<Option<Linear<TermId>>, OutOfMemory>
    requires { formula_bound f.now ≤ length table.now }
    ensures form { IfOk result (λ o. option_map (shown_form (tree_at table.now)) o ≡ claimed_form (formula_of table.now f.now)) }
    ensures within { IfOk result (λ o. IfSome o (λ l. FormWithin (length table.now) l)) }
{
    if let Some(sides) = f.eq_of(table) {
        return difference(alloc, table, sides);
    }
    if let Some(sides) = f.le_of(table) {
        return difference(alloc, table, sides);
    }
    match f.lt_of(table) {
        Some(sides) => strict_difference(alloc, table, sides),
        None => Ok(None),
    }
}

/// The same of a conclusion, where `false` says so of -1.
#[tactic(auto, using(term_trees::proofs::LinearForms::linear_forms))]
fn concluded_form(
    alloc: Global,
    table: &TermTable,
    conclusion: &IdFormula,
) -> Result<Option<Linear<TermId>>, OutOfMemory>
    requires { formula_bound conclusion.now ≤ length table.now }
    ensures form { IfOk result (λ o. option_map (shown_form (tree_at table.now)) o ≡ concluded_form (formula_of table.now conclusion.now)) }
    ensures within { IfOk result (λ o. IfSome o (λ l. FormWithin (length table.now) l)) }
{
    if conclusion.is_false(table) {
        Ok(table.number_form(alloc, -1))
    } else {
        claimed_form(alloc, table, conclusion)
    }
}

fn is_equation(table: &TermTable, f: &IdFormula) -> bool
    requires { formula_bound f.now ≤ length table.now }
    ensures { result ≡ is_equation (formula_of table.now f.now) }
{
    match f.eq_of(table) {
        Some(_) => true,
        None => false,
    }
}

fn are_equations(table: &TermTable, premises: &[&IdFormula]) -> bool
    requires { All (λ f. formula_bound f.now ≤ length table.now) premises.now }
    ensures { result ≡ list_all is_equation (map (λ f. formula_of table.now f.now) premises.now) }
{
    for f in premises {
        if !is_equation(table, f) {
            return false;
        }
    }
    true
}

/// The form of the term of a premise that may have the number.
fn weighed_form(
    alloc: Global,
    table: &TermTable,
    f: &IdFormula,
    number: i128,
) -> Result<Option<Linear<TermId>>, OutOfMemory>
    requires { formula_bound f.now ≤ length table.now }
    ensures form { IfOk result (λ o. option_map (shown_form (tree_at table.now)) o ≡ weighed_form (formula_of table.now f.now) number) }
    ensures within { IfOk result (λ o. IfSome o (λ l. FormWithin (length table.now) l)) }
{
    if 0 <= number || is_equation(table, f) {
        claimed_form(alloc, table, f)
    } else {
        Ok(None)
    }
}

/// A sum, and the form of a premise's term times its number, where all is low.
fn added(
    alloc: Global,
    table: &TermTable,
    sum: &Linear<TermId>,
    f: &IdFormula,
    number: i128,
) -> Result<Option<Linear<TermId>>, OutOfMemory>
    requires sum { FormWithin (length table.now) sum.now }
    requires premise { formula_bound f.now ≤ length table.now }
    ensures form { IfOk result (λ o. option_map (shown_form (tree_at table.now)) o ≡ added (shown_form (tree_at table.now) sum.now) (formula_of table.now f.now) number) }
    ensures within { IfOk result (λ o. IfSome o (λ l. FormWithin (length table.now) l)) }
{
    let Some(form) = weighed_form(alloc, table, f, number)? else {
        return Ok(None);
    };
    let Some(product) = scaled(alloc, table, number, &form)? else {
        return Ok(None);
    };
    table.joined_forms(alloc, Way::Sum, sum, &product)
}

/// The sum of the forms of the premises' terms, each times its number, where there is one for each that it may have.
fn total(
    alloc: Global,
    table: &TermTable,
    premises: &[&IdFormula],
    numbers: &[i128],
) -> Result<Option<Linear<TermId>>, OutOfMemory>
    requires { All (λ f. formula_bound f.now ≤ length table.now) premises.now }
    ensures form { IfOk result (λ o. option_map (shown_form (tree_at table.now)) o ≡ total_after (pos 0, []) (map (λ f. formula_of table.now f.now) premises.now) numbers.now) }
    ensures within { IfOk result (λ o. IfSome o (λ l. FormWithin (length table.now) l)) }
{
    let Some(mut sum) = table.number_form(alloc, 0) else {
        return Ok(None);
    };
    let mut rest = numbers;
    for f in premises {
        let Some((number, others)) = rest.split_first() else {
            return Ok(None);
        };
        let Some(next) = added(alloc, table, &sum, f, *number)? else {
            return Ok(None);
        };
        sum = next;
        rest = others;
    }
    if rest.is_empty() {
        Ok(Some(sum))
    } else {
        Ok(None)
    }
}

/// Whether the conclusion is the sum of the premises, each times its number, and a constant that isn't negative.
pub fn is_linear(
    alloc: Global,
    table: &TermTable,
    premises: &[&IdFormula],
    numbers: &[i128],
    conclusion: &IdFormula,
) -> Result<bool, OutOfMemory>
    requires premises { All (λ f. formula_bound f.now ≤ length table.now) premises.now }
    requires conclusion { formula_bound conclusion.now ≤ length table.now }
    ensures { IfOk result (λ b. b ≡ is_linear (map (λ f. formula_of table.now f.now) premises.now) numbers.now (formula_of table.now conclusion.now)) }
{
    let Some(form) = concluded_form(alloc, table, conclusion)? else {
        return Ok(false);
    };
    let Some(sum) = total(alloc, table, premises, numbers)? else {
        return Ok(false);
    };
    let none = is_equation(table, conclusion);
    if none && !are_equations(table, premises) {
        return Ok(false);
    }
    Ok(remains(table, none, &form, &sum))
}
