//! The first reason in an assertion.

ghost use Rattle.std.specs.Prelude.{◌≡◌};
ghost use Rattle.outline_rules.specs.Tests.{leaf_test, row_test, parts_reason, chunk_reason, formula_reason, reason_in, assertion_reason};
ghost use Rattle.notes_tests.specs.words.Tests.{leaves_test, row_leaves_test};

use crate::leaves::{Leaf, either_reason, first_reason, formula_reason};
use crate::places::{own_reason, place_reason};
use notes::{Assertion, Chunk, Reason};
use outline_setting::Setting;
use term_trees::{Formula, Place};

/// An assertion's leaves: so many own variables, so many arguments, and a result or none.
#[derive(Clone, Copy)]
pub(crate) struct Leaves<'a, 'b> {
    pub setting: &'a Setting<'b>,
    pub own: u64,
    pub args: usize,
    pub has_result: bool,
}

impl Leaf for Leaves<'_, '_> {
    ghost test = { leaves_test };

    fn own_reason(&self, k: u32) -> Option<Reason> {
        own_reason(self.own, k)
    }

    fn place_reason(&self, place: Place) -> Option<Reason> {
        place_reason(self.setting, self.args, self.has_result, place)
    }
}

/// The leaves of a row's formula in an assertion: these, and `(index)` and `(item)`.
#[derive(Clone, Copy)]
struct RowLeaves<'a, 'b, 'c> {
    around: &'c Leaves<'a, 'b>,
}

impl Leaf for RowLeaves<'_, '_, '_> {
    ghost test = { row_leaves_test };

    fn own_reason(&self, k: u32) -> Option<Reason> {
        self.around.own_reason(k)
    }

    fn place_reason(&self, place: Place) -> Option<Reason> {
        match place {
            Place::Index => None,
            Place::Item => None,
            _ => self.around.place_reason(place),
        }
    }
}

/// The first reason in the parts of a chunk.
fn parts_reason(leaves: &Leaves<'_, '_>, chunk: &Chunk) -> Option<Reason>
    ensures { result ≡ parts_reason (leaves_test leaves.now) chunk.now }
{
    match chunk {
        Chunk::Cell {
            width: _,
            at,
            value,
        } => either_reason(at, value, leaves),
        Chunk::Region { at, len } => either_reason(at, len, leaves),
        Chunk::Row {
            width: _,
            at,
            count,
            each,
        } => {
            if let Some(why) = first_reason(at, leaves) {
                return Some(why);
            }
            if let Some(why) = first_reason(count, leaves) {
                return Some(why);
            }
            formula_reason(each, &RowLeaves { around: leaves })
        }
    }
}

/// The first reason in a chunk; without private memory its beginning is one.
fn chunk_reason(leaves: &Leaves<'_, '_>, chunk: &Chunk) -> Option<Reason>
    ensures { result ≡ chunk_reason leaves.now.setting.now (leaves_test leaves.now) chunk.now }
{
    if leaves.setting.is_memory_private() {
        parts_reason(leaves, chunk)
    } else {
        Some(Reason::Stable)
    }
}

/// The first reason in formulas.
fn formulas_reason(leaves: &Leaves<'_, '_>, formulas: &[Formula]) -> Option<Reason>
    ensures { result ≡ reason_in (formula_reason (leaves_test leaves.now)) formulas.now }
{
    for formula in formulas {
        match formula_reason(formula, leaves) {
            Some(why) => return Some(why),
            None => {}
        }
    }
    None
}

/// The first reason in chunks.
fn chunks_reason(leaves: &Leaves<'_, '_>, chunks: &[Chunk]) -> Option<Reason>
    ensures { result ≡ reason_in (chunk_reason leaves.now.setting.now (leaves_test leaves.now)) chunks.now }
{
    for chunk in chunks {
        match chunk_reason(leaves, chunk) {
            Some(why) => return Some(why),
            None => {}
        }
    }
    None
}

/// The first reason in an assertion, in text order.
pub(crate) fn assertion_reason(leaves: &Leaves<'_, '_>, assertion: &Assertion) -> Option<Reason>
    ensures { result ≡ assertion_reason leaves.now.setting.now (leaves_test leaves.now) assertion.now }
{
    match formulas_reason(leaves, assertion.formulas.as_slice()) {
        Some(why) => Some(why),
        None => chunks_reason(leaves, assertion.chunks.as_slice()),
    }
}
