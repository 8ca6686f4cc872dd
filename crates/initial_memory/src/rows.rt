//! Whether a row's formula is true of the first bytes.

ghost use Rattle.std.specs.Prelude.{◌≡◌, ◌<◌, ◌≤◌, ◌*◌, ◌+◌, ◌^◌, length, take, drop, IsTrue, IfOk};
ghost use Rattle.term_trees.specs.Formulas.{well_formed_formula};
ghost use Rattle.term_trees.specs.Scopes.{given};
ghost use Rattle.term_trees.specs.Ground.{ground_truth};
ghost use Rattle.term_trees.specs.Rows.{at_position};
ghost use Rattle.wasm_values.specs.Operators.{number_of_bytes};
ghost use Rattle.outline_rules.specs.States.{number};
ghost use Rattle.outline_rules.specs.Initial.{row_alone, is_truth, is_true_below, number_at};
ghost use Rattle.initial_memory.specs.words.Windows.{true_in};
ghost use Rattle.outline_rules.specs.Leaves.{formula_has_leaves};

use crate::bytes::bytes_at;
use outline_setting::Setting;
use std::alloc::Global;
use term_trees::{Formula, Place, Scoped, formula_in_scope, ground_at};
use wasm_values::{OutOfMemory, load_le};

/// No leaf but `(index)` and `(item)`.
#[derive(Clone, Copy)]
struct RowAlone;

impl Scoped for RowAlone {
    ghost scope = { λ _. given row_alone };

    fn has_variable(&self, _k: u32) -> bool {
        false
    }

    fn has_own(&self, _k: u32) -> bool {
        false
    }

    fn has_place(&self, place: Place) -> bool {
        match place {
            Place::Index => true,
            Place::Item => true,
            _ => false,
        }
    }
}

/// Whether a formula has no leaf but `(index)` and `(item)`.
pub(crate) fn is_row_alone(each: &Formula) -> bool
    ensures { result ≡ formula_has_leaves row_alone each.now }
{
    formula_in_scope(each, &RowAlone)
}

/// Whether a formula is true of a cell with this position and this value.
fn is_true_at(each: &Formula, index: usize, item: u64) -> bool
    requires { IsTrue (well_formed_formula each.now) }
    ensures { result ≡ is_truth (ground_truth (at_position each.now (number index) (number item))) }
{
    match ground_at(each, index as i128, item as i128) {
        Some(holds) => holds,
        None => false,
    }
}

/// The number that so many bytes of a window spell.
fn number_in(window: &[u8], start: usize, width: usize) -> u64
    requires few { width ≤ 8 }
    requires within { start + width ≤ length window.now }
    ensures { result ≡ number_of_bytes (take width (drop start window.now)) }
{
    load_le(&window[start..start + width])
}

/// Whether a formula is true of each of the first cells of a window.
fn are_true(each: &Formula, window: &[u8], count: usize, width: usize) -> bool
    requires well_formed { IsTrue (well_formed_formula each.now) }
    requires few { width ≤ 8 }
    requires many { count ≤ 65536 }
    requires within { count * width ≤ length window.now }
    ensures { result ≡ true_in window.now count width each.now }
{
    for index in 0..count {
        if !is_true_at(each, index, number_in(window, index * width, width)) {
            return false;
        }
    }
    true
}

/// Whether a row's formula is true of the first bytes at each of so many positions.
#[tactic(auto, using(crate::proofs::Cells::true_in_memory))]
pub(crate) fn is_true_below(
    alloc: Global,
    setting: &Setting<'_>,
    count: usize,
    width: usize,
    at: u64,
    each: &Formula,
) -> Result<bool, OutOfMemory>
    requires well_formed { IsTrue (well_formed_formula each.now) }
    requires few { width ≤ 8 }
    requires many { count ≤ 65536 }
    requires low { at < 2 ^ 63 }
    ensures { IfOk result (λ holds. holds ≡ is_true_below setting.now count width at each.now) }
{
    let bytes = bytes_at(alloc, setting, at, count * width)?;
    Ok(are_true(each, bytes.as_slice(), count, width))
}

/// The number that so many of the first bytes spell.
pub(crate) fn number_at(
    alloc: Global,
    setting: &Setting<'_>,
    at: u64,
    width: usize,
) -> Result<u64, OutOfMemory>
    requires few { width ≤ 8 }
    requires low { at < 2 ^ 63 }
    ensures { IfOk result (λ n. n ≡ number_at setting.now at width) }
{
    let bytes = bytes_at(alloc, setting, at, width)?;
    Ok(load_le(bytes.as_slice()))
}
