ghost use Rattle.std.specs.Prelude.{◌≡◌, ◌&&◌, length, int_le, if◌then◌else◌, IfOk, IfSome};
ghost use Rattle.std.specs.Option.{option_map};
ghost use Rattle.std.specs.Ordering.{int_eq};
ghost use Rattle.term_logic.specs.Table.{tree_at};
ghost use Rattle.term_trees.specs.Linear.{shown, shown_form};
ghost use Rattle.term_logic.specs.Linear.{FormWithin};
ghost use Rattle.equality_rules.specs.words.Sums.{scaled, agrees, remains};

use std::alloc::Global;
use term_logic::{Linear, TermId, TermTable, Way};
use wasm_values::OutOfMemory;

/// A number times a form, where all is low.
pub(crate) fn scaled(
    alloc: Global,
    table: &TermTable,
    number: i128,
    form: &Linear<TermId>,
) -> Result<Option<Linear<TermId>>, OutOfMemory>
    requires { FormWithin (length table.now) form.now }
    ensures form { IfOk result (λ o. option_map (shown_form (tree_at table.now)) o ≡ scaled number (shown_form (tree_at table.now) form.now)) }
    ensures within { IfOk result (λ o. IfSome o (λ l. FormWithin (length table.now) l)) }
{
    match table.number_form(alloc, number) {
        Some(factor) => table.joined_forms(alloc, Way::Times(number), &factor, form),
        None => Ok(None),
    }
}

/// Whether each part of the first form has the coefficient that the second has of its term.
fn agrees(table: &TermTable, first: &Linear<TermId>, second: &Linear<TermId>) -> bool
    requires first { FormWithin (length table.now) first.now }
    requires second { FormWithin (length table.now) second.now }
    ensures { result ≡ agrees (shown (tree_at table.now) first.now.parts.items) (shown (tree_at table.now) second.now.parts.items) }
{
    for (atom, coefficient) in &first.parts {
        if *coefficient != table.coefficient_of(second, *atom) {
            return false;
        }
    }
    true
}

/// Whether two forms have the same coefficients.
fn agree(table: &TermTable, first: &Linear<TermId>, second: &Linear<TermId>) -> bool
    requires first { FormWithin (length table.now) first.now }
    requires second { FormWithin (length table.now) second.now }
    ensures { result ≡ (agrees (shown (tree_at table.now) first.now.parts.items) (shown (tree_at table.now) second.now.parts.items) && agrees (shown (tree_at table.now) second.now.parts.items) (shown (tree_at table.now) first.now.parts.items)) }
{
    agrees(table, first, second) && agrees(table, second, first)
}

/// Whether what is left of a constant is 0, or isn't negative.
fn is_left(none: bool, constant: i128, sum: i128) -> bool
    ensures { result ≡ (if none then int_eq constant sum else int_le sum constant) }
{
    if none {
        constant == sum
    } else {
        sum <= constant
    }
}

/// Whether a form is the sum and a constant that isn't negative, or is 0.
pub(crate) fn remains(
    table: &TermTable,
    none: bool,
    form: &Linear<TermId>,
    sum: &Linear<TermId>,
) -> bool
    requires form { FormWithin (length table.now) form.now }
    requires sum { FormWithin (length table.now) sum.now }
    ensures { result ≡ remains none (shown_form (tree_at table.now) form.now) (shown_form (tree_at table.now) sum.now) }
{
    agree(table, form, sum) && is_left(none, form.constant, sum.constant)
}
