// The cell that an access of private memory uses.

ghost use Rattle.std.specs.Prelude.{◌≡◌, ◌+ℤ◌, pos, ◌<◌, length, IfOk};
ghost use Rattle.wasm_values.specs.Answers.{Gives};
ghost use Rattle.term_trees.specs.declared.term.Term.TheVariants as term;
ghost use Rattle.term_trees.specs.Same.{same};
ghost use Rattle.term_logic.specs.Table.{tree_at};
ghost use Rattle.outline_rules.specs.States.{number};
ghost use Rattle.outline_rules.specs.Memory.{address, accessed};
ghost use Rattle.symbolic_state.specs.Refused.{refusal_of};

use heap_logic::IdChunk;
use notes::Reason;
use symbolic_state::{Refused, TrackedState};
use term_logic::{TermId, TermTable};

/// Whether a term is a number that is so much more than another.
#[tactic(auto, using(heap_logic::proofs::Compared::term_shapes))]
fn is_number_above(table: &TermTable, id: TermId, n: i128, offset: u32) -> bool
    requires { id < length table.now }
    ensures { result ≡ same (tree_at table.now id) (term.Num (n +ℤ pos offset)) }
{
    match table.num_of(id) {
        Some(m) => match n.checked_add(offset as i128) {
            Some(sum) => sum == m,
            None => false,
        },
        None => false,
    }
}

/// Whether a term is the sum of another and a number.
#[tactic(auto, using(heap_logic::proofs::Compared::term_shapes))]
fn is_sum_with(table: &TermTable, id: TermId, a: TermId, n: u32) -> bool
    requires sum { id < length table.now }
    requires first { a < length table.now }
    ensures { result ≡ same (tree_at table.now id) (term.Add (tree_at table.now a) (number n)) }
{
    match table.sum_of(id) {
        Some((x, y)) => table.same_tree(x, a) && table.is_num(y, n as i128),
        None => false,
    }
}

/// Whether a term is the address of an access.
fn is_address(table: &TermTable, id: TermId, a: TermId, offset: u32) -> bool
    requires address { id < length table.now }
    requires operand { a < length table.now }
    ensures { result ≡ same (tree_at table.now id) (address (tree_at table.now a) offset) }
{
    match table.num_of(a) {
        Some(n) => is_number_above(table, id, n, offset),
        None => {
            if offset == 0 {
                table.same_tree(id, a)
            } else {
                is_sum_with(table, id, a, offset)
            }
        }
    }
}

/// The cell of an access: its address and its value.
#[tactic(auto, using(crate::proofs::Alike::alike))]
pub(crate) fn accessed(
    state: &TrackedState,
    chunk: u32,
    width: u32,
    operand: TermId,
    offset: u32,
) -> Result<(TermId, TermId), Refused>
    requires { operand < length state.now.terms }
    ensures value { Gives refusal_of (λ r. tree_at state.now.terms r.1) result (accessed chunk width (address (tree_at state.now.terms operand) offset) state.now.state) }
    ensures address { IfOk result (λ r. tree_at state.now.terms r.0 ≡ address (tree_at state.now.terms operand) offset) }
    ensures within { IfOk result (λ r. (r.0 < length state.now.terms) × (r.1 < length state.now.terms)) }
{
    match state.chunk(chunk) {
        Some(
            IdChunk::Cell {
                width: found,
                at,
                value,
            },
        ) if *found == width && is_address(state.table(), *at, operand, offset) => {
            Ok((*at, *value))
        }
        _ => Err(Refused::Reason(Reason::Chunk)),
    }
}
