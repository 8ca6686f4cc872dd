ghost use Rattle.std.specs.Prelude.{◌≡◌, ◌<◌, length};
ghost use Rattle.term_trees.specs.declared.term.Term.TheVariants as term;
ghost use Rattle.term_trees.specs.declared.term.Formula.TheVariants as formula;
ghost use Rattle.term_trees.specs.Same.{same};
ghost use Rattle.term_logic.specs.Table.{tree_at};
ghost use Rattle.outline_rules.specs.States.{number};
ghost use Rattle.outline_rules.specs.HeapMoves.{is_fact};
ghost use Rattle.heap_logic.specs.Heaps.{HeapWithin};
ghost use Rattle.heap_logic.specs.words.Effects.{bare};

use crate::heap::SymHeap;
use crate::wanted::{bound_in, equation_in, order_in};
use term_logic::{TermId, TermTable};

/// Whether a term is a number.
#[tactic(auto, using(crate::proofs::Compared::term_shapes))]
pub(crate) fn is_number(table: &TermTable, id: TermId, n: u32) -> bool
    requires { id < length table.now }
    ensures { result ≡ same (tree_at table.now id) (number n) }
{
    match table.num_of(id) {
        Some(m) => n as i128 == m,
        None => false,
    }
}

/// Whether a term is the sum of two.
#[tactic(auto, using(crate::proofs::Compared::term_shapes))]
fn is_sum(table: &TermTable, id: TermId, a: TermId, b: TermId) -> bool
    requires sum { id < length table.now }
    requires first { a < length table.now }
    requires second { b < length table.now }
    ensures { result ≡ same (tree_at table.now id) (term.Add (tree_at table.now a) (tree_at table.now b)) }
{
    match table.sum_of(id) {
        Some((x, y)) => table.same_tree(x, a) && table.same_tree(y, b),
        None => false,
    }
}

/// Whether a term is the sum of one and a number.
#[tactic(auto, using(crate::proofs::Compared::term_shapes))]
fn is_sum_with(table: &TermTable, id: TermId, a: TermId, n: u32) -> bool
    requires sum { id < length table.now }
    requires first { a < length table.now }
    ensures { result ≡ same (tree_at table.now id) (term.Add (tree_at table.now a) (number n)) }
{
    match table.sum_of(id) {
        Some((x, y)) => table.same_tree(x, a) && is_number(table, y, n),
        None => false,
    }
}

/// Whether the fact with a number says that two terms are equal.
pub(crate) fn says_equal(table: &TermTable, heap: &SymHeap, fact: u32, a: TermId, b: TermId) -> bool
    requires heap { HeapWithin (length table.now) heap.now }
    requires first { a < length table.now }
    requires second { b < length table.now }
    ensures { result ≡ is_fact (bare table.now heap.now) fact (formula.Eq (tree_at table.now a) (tree_at table.now b)) }
{
    match equation_in(table, heap, fact) {
        Some((x, y)) => table.same_tree(x, a) && table.same_tree(y, b),
        None => false,
    }
}

/// Whether the fact with a number says that a term is the sum of two.
pub(crate) fn says_sum(
    table: &TermTable,
    heap: &SymHeap,
    fact: u32,
    sum: TermId,
    a: TermId,
    b: TermId,
) -> bool
    requires heap { HeapWithin (length table.now) heap.now }
    requires sum { sum < length table.now }
    requires first { a < length table.now }
    requires second { b < length table.now }
    ensures { result ≡ is_fact (bare table.now heap.now) fact (formula.Eq (tree_at table.now sum) (term.Add (tree_at table.now a) (tree_at table.now b))) }
{
    match equation_in(table, heap, fact) {
        Some((x, y)) => table.same_tree(x, sum) && is_sum(table, y, a, b),
        None => false,
    }
}

/// Whether the fact with a number says that a term is the sum of one and a number.
pub(crate) fn says_sum_with(
    table: &TermTable,
    heap: &SymHeap,
    fact: u32,
    sum: TermId,
    a: TermId,
    n: u32,
) -> bool
    requires heap { HeapWithin (length table.now) heap.now }
    requires sum { sum < length table.now }
    requires first { a < length table.now }
    ensures { result ≡ is_fact (bare table.now heap.now) fact (formula.Eq (tree_at table.now sum) (term.Add (tree_at table.now a) (number n))) }
{
    match equation_in(table, heap, fact) {
        Some((x, y)) => table.same_tree(x, sum) && is_sum_with(table, y, a, n),
        None => false,
    }
}

/// Whether the fact with a number says that a term is at least 0.
pub(crate) fn says_natural(table: &TermTable, heap: &SymHeap, fact: u32, a: TermId) -> bool
    requires heap { HeapWithin (length table.now) heap.now }
    requires term { a < length table.now }
    ensures { result ≡ is_fact (bare table.now heap.now) fact (formula.Le (number 0) (tree_at table.now a)) }
{
    match bound_in(table, heap, fact) {
        Some((x, y)) => is_number(table, x, 0) && table.same_tree(y, a),
        None => false,
    }
}

/// Whether the fact with a number says that a term is at most another.
pub(crate) fn says_at_most(
    table: &TermTable,
    heap: &SymHeap,
    fact: u32,
    a: TermId,
    b: TermId,
) -> bool
    requires heap { HeapWithin (length table.now) heap.now }
    requires first { a < length table.now }
    requires second { b < length table.now }
    ensures { result ≡ is_fact (bare table.now heap.now) fact (formula.Le (tree_at table.now a) (tree_at table.now b)) }
{
    match bound_in(table, heap, fact) {
        Some((x, y)) => table.same_tree(x, a) && table.same_tree(y, b),
        None => false,
    }
}

/// Whether the fact with a number says that a term is below another.
pub(crate) fn says_below(table: &TermTable, heap: &SymHeap, fact: u32, a: TermId, b: TermId) -> bool
    requires heap { HeapWithin (length table.now) heap.now }
    requires first { a < length table.now }
    requires second { b < length table.now }
    ensures { result ≡ is_fact (bare table.now heap.now) fact (formula.Lt (tree_at table.now a) (tree_at table.now b)) }
{
    match order_in(table, heap, fact) {
        Some((x, y)) => table.same_tree(x, a) && table.same_tree(y, b),
        None => false,
    }
}

/// Whether a term is a number times another.
#[tactic(auto, using(crate::proofs::Compared::term_shapes))]
fn is_scaled(table: &TermTable, id: TermId, n: u32, a: TermId) -> bool
    requires product { id < length table.now }
    requires factor { a < length table.now }
    ensures { result ≡ same (tree_at table.now id) (term.Mul (number n) (tree_at table.now a)) }
{
    match table.product_of(id) {
        Some((x, y)) => is_number(table, x, n) && table.same_tree(y, a),
        None => false,
    }
}

/// Whether a term is the address behind so many cells of a width.
#[tactic(auto, using(crate::proofs::Compared::term_shapes))]
fn is_row_end(table: &TermTable, id: TermId, at: TermId, width: u32, count: TermId) -> bool
    requires sum { id < length table.now }
    requires address { at < length table.now }
    requires count { count < length table.now }
    ensures { result ≡ same (tree_at table.now id) (term.Add (tree_at table.now at) (term.Mul (number width) (tree_at table.now count))) }
{
    match table.sum_of(id) {
        Some((x, y)) => table.same_tree(x, at) && is_scaled(table, y, width, count),
        None => false,
    }
}

/// Whether the fact with a number says that a term is the address behind so many cells of a width.
pub(crate) fn says_row_end(
    table: &TermTable,
    heap: &SymHeap,
    fact: u32,
    end: TermId,
    at: TermId,
    width: u32,
    count: TermId,
) -> bool
    requires heap { HeapWithin (length table.now) heap.now }
    requires end { end < length table.now }
    requires address { at < length table.now }
    requires count { count < length table.now }
    ensures { result ≡ is_fact (bare table.now heap.now) fact (formula.Eq (tree_at table.now end) (term.Add (tree_at table.now at) (term.Mul (number width) (tree_at table.now count)))) }
{
    match equation_in(table, heap, fact) {
        Some((x, y)) => table.same_tree(x, end) && is_row_end(table, y, at, width, count),
        None => false,
    }
}
