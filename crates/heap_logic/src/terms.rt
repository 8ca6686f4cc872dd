ghost use Rattle.std.specs.Prelude.{◌≡◌, ◌==◌, ◌+◌, ◌<◌, ◌≤◌, ◌||◌, length, pos, IfOk, IsTrue};
ghost use Rattle.wasm_values.specs.Answers.{Gives};
ghost use Rattle.term_trees.specs.Terms.{node_count};
ghost use Rattle.term_trees.specs.declared.term.Term.TheVariants as term;
ghost use Rattle.term_logic.specs.Table.{tree_at, tree_here, cell_nodes, well_formed_cell, CellWithin};
ghost use Rattle.term_logic.specs.Extends.{Extends};
ghost use Rattle.outline_rules.specs.States.{number};
ghost use Rattle.heap_logic.specs.Faults.{refusal_of};
ghost use Rattle.heap_logic.specs.words.Making.{made};
ghost use Rattle.heap_logic.specs.words.Plans.{joined_made};
ghost use Rattle.heap_logic.specs.words.RowPlans.{address_made};

use crate::fault::MoveFault;
use crate::taking::NODES;
use crate::widths::power_of;
use term_logic::{Place, TermCell, TermId, TermTable};
use wasm_values::{LimitWord, OutOfMemory};

/// The term of a cell with so many nodes, within the limit.
fn interned(table: &mut TermTable, cell: TermCell, nodes: usize) -> Result<TermId, MoveFault>
    requires within { CellWithin (length table.old) cell }
    requires well_formed { IsTrue (well_formed_cell cell) }
    requires nodes { nodes ≡ cell_nodes table.old cell }
    ensures made { Gives refusal_of (tree_at table.new) result (made (tree_here table.old cell)) }
    ensures within { IfOk result (λ id. id < length table.new) }
    ensures kept { Extends table.old table.new }
{
    if nodes > NODES {
        return Err(MoveFault::Limit(LimitWord::Nodes));
    }
    Ok(table.intern(cell)?)
}

/// The sum of two terms, within the limit.
pub(crate) fn sum(table: &mut TermTable, a: TermId, b: TermId) -> Result<TermId, MoveFault>
    requires first { a < length table.old }
    requires second { b < length table.old }
    ensures made { Gives refusal_of (tree_at table.new) result (made (term.Add (tree_at table.old a) (tree_at table.old b))) }
    ensures within { IfOk result (λ id. id < length table.new) }
    ensures kept { Extends table.old table.new }
{
    let nodes = 1 + table.nodes_of(a) as usize + table.nodes_of(b) as usize;
    interned(table, TermCell::Add(a, b), nodes)
}

/// The difference of two terms, within the limit.
pub(crate) fn difference(table: &mut TermTable, a: TermId, b: TermId) -> Result<TermId, MoveFault>
    requires first { a < length table.old }
    requires second { b < length table.old }
    ensures made { Gives refusal_of (tree_at table.new) result (made (term.Sub (tree_at table.old a) (tree_at table.old b))) }
    ensures within { IfOk result (λ id. id < length table.new) }
    ensures kept { Extends table.old table.new }
{
    let nodes = 1 + table.nodes_of(a) as usize + table.nodes_of(b) as usize;
    interned(table, TermCell::Sub(a, b), nodes)
}

/// The product of two terms, within the limit.
fn product(table: &mut TermTable, a: TermId, b: TermId) -> Result<TermId, MoveFault>
    requires first { a < length table.old }
    requires second { b < length table.old }
    ensures made { Gives refusal_of (tree_at table.new) result (made (term.Mul (tree_at table.old a) (tree_at table.old b))) }
    ensures within { IfOk result (λ id. id < length table.new) }
    ensures kept { Extends table.old table.new }
{
    let nodes = 1 + table.nodes_of(a) as usize + table.nodes_of(b) as usize;
    interned(table, TermCell::Mul(a, b), nodes)
}

/// The term of a number.
#[tactic(auto, using(term_logic::proofs::Trees::cell_trees))]
pub(crate) fn number(table: &mut TermTable, n: u64) -> Result<TermId, OutOfMemory>
    ensures tree { IfOk result (λ id. tree_at table.new id ≡ number n) }
    ensures within { IfOk result (λ id. id < length table.new) }
    ensures kept { Extends table.old table.new }
{
    table.intern(TermCell::Num(n as i128))
}

/// The term of a variable.
#[tactic(auto, using(term_logic::proofs::Trees::cell_trees))]
pub(crate) fn variable(table: &mut TermTable, k: u32) -> Result<TermId, OutOfMemory>
    ensures tree { IfOk result (λ id. tree_at table.new id ≡ term.Var k) }
    ensures within { IfOk result (λ id. id < length table.new) }
    ensures kept { Extends table.old table.new }
{
    table.intern(TermCell::Var(k))
}

/// A number times a term, within the limit.
pub(crate) fn scaled(table: &mut TermTable, n: u64, a: TermId) -> Result<TermId, MoveFault>
    requires { a < length table.old }
    ensures made { Gives refusal_of (tree_at table.new) result (made (term.Mul (number n) (tree_at table.old a))) }
    ensures within { IfOk result (λ id. id < length table.new) }
    ensures kept { Extends table.old table.new }
{
    let factor = number(table, n)?;
    product(table, factor, a)
}

/// The value of two cells one after another, of so many bytes the first, within the limit.
pub(crate) fn joined(
    table: &mut TermTable,
    width: u32,
    first: TermId,
    second: TermId,
) -> Result<TermId, MoveFault>
    requires width { IsTrue (width == 1 || (width == 2 || width == 4)) }
    requires first { first < length table.old }
    requires second { second < length table.old }
    ensures made { Gives refusal_of (tree_at table.new) result (joined_made width (tree_at table.old first) (tree_at table.old second)) }
    ensures within { IfOk result (λ id. id < length table.new) }
    ensures kept { Extends table.old table.new }
{
    let high = scaled(table, power_of(width), second)?;
    sum(table, first, high)
}

/// The address that lies so many cells behind another, within the limit.
pub(crate) fn address(
    table: &mut TermTable,
    width: u32,
    at: TermId,
    index: TermId,
) -> Result<TermId, MoveFault>
    requires address { at < length table.old }
    requires index { index < length table.old }
    ensures made { Gives refusal_of (tree_at table.new) result (address_made width (tree_at table.old at) (tree_at table.old index)) }
    ensures small { IfOk result (λ _. node_count (tree_at table.old index) + 2 ≤ 4096) }
    ensures within { IfOk result (λ id. id < length table.new) }
    ensures kept { Extends table.old table.new }
{
    let distance = scaled(table, width as u64, index)?;
    sum(table, at, distance)
}

/// The sum of a term and a number, within the limit.
pub(crate) fn behind(table: &mut TermTable, at: TermId, n: u32) -> Result<TermId, MoveFault>
    requires { at < length table.old }
    ensures made { Gives refusal_of (tree_at table.new) result (made (term.Add (tree_at table.old at) (number n))) }
    ensures within { IfOk result (λ id. id < length table.new) }
    ensures kept { Extends table.old table.new }
{
    let count = number(table, n as u64)?;
    sum(table, at, count)
}

/// The term of a place.
#[tactic(auto, using(term_logic::proofs::Trees::cell_trees))]
pub(crate) fn place(table: &mut TermTable, p: Place) -> Result<TermId, OutOfMemory>
    ensures tree { IfOk result (λ id. tree_at table.new id ≡ term.At p) }
    ensures within { IfOk result (λ id. id < length table.new) }
    ensures kept { Extends table.old table.new }
{
    table.intern(TermCell::At(p))
}

/// The sum of two terms of few nodes.
#[tactic(auto, using(term_logic::proofs::Trees::cell_trees))]
pub(crate) fn small_sum(table: &mut TermTable, a: TermId, b: TermId) -> Result<TermId, OutOfMemory>
    requires first { a < length table.old }
    requires second { b < length table.old }
    requires small { 1 + node_count (tree_at table.old a) + node_count (tree_at table.old b) ≤ 4096 }
    ensures tree { IfOk result (λ id. tree_at table.new id ≡ term.Add (tree_at table.old a) (tree_at table.old b)) }
    ensures within { IfOk result (λ id. id < length table.new) }
    ensures kept { Extends table.old table.new }
{
    table.intern(TermCell::Add(a, b))
}
