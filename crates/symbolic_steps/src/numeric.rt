// Numeric operators.

ghost use Rattle.std.specs.Prelude.{◌≡◌, ◌==◌, ◌<◌, length, IfOk, IsTrue};
ghost use Rattle.wasm_values.specs.Answers.{Gives};
ghost use Rattle.wasm_values.specs.Operators.{num_operands, result_type};
ghost use Rattle.term_trees.specs.declared.term.Term.TheVariants as term;
ghost use Rattle.term_logic.specs.Table.{tree_at};
ghost use Rattle.outline_rules.specs.Memory.{made_pushed};
ghost use Rattle.outline_rules.specs.Instructions.{numeric_one};
ghost use Rattle.symbolic_state.specs.Refused.{refusal_of};
ghost use Rattle.symbolic_state.specs.Growth.{Grown};

use crate::forms::unused;
use notes::Use;
use symbolic_state::{Refused, TrackedState};
use term_logic::TermId;
use wasm_values::{NumOp, ValType};

/// The type of what an operator gives.
fn result_type(op: NumOp) -> ValType
    ensures { result ≡ result_type op }
{
    match op {
        NumOp::W32(_) | NumOp::Wrap => ValType::I32,
        NumOp::W64(op) => {
            if op.is_test() {
                ValType::I32
            } else {
                ValType::I64
            }
        }
        NumOp::ExtendS | NumOp::ExtendU => ValType::I64,
    }
}

/// The term of an operator of one operand is pushed.
#[tactic(auto, using(crate::proofs::Pushing::pushing))]
fn push_one(state: &mut TrackedState, op: NumOp, a: TermId) -> Result<(), Refused>
    requires term { a < length state.old.terms }
    requires well_formed { IsTrue (num_operands op == 1) }
    ensures done { Gives refusal_of (λ _. state.new.state) result (made_pushed (result_type op) (term.One op (tree_at state.old.terms a)) state.old.state) }
    ensures kept { IfOk result (λ _. Grown state.old state.new) }
{
    let made = state.operation_of_one(op, a)?;
    state.push(result_type(op), made)
}

/// The term of an operator of two operands is pushed.
#[tactic(auto, using(crate::proofs::Pushing::pushing))]
pub fn push_two(state: &mut TrackedState, op: NumOp, a: TermId, b: TermId) -> Result<(), Refused>
    requires first { a < length state.old.terms }
    requires second { b < length state.old.terms }
    requires well_formed { IsTrue (num_operands op == 2) }
    ensures done { Gives refusal_of (λ _. state.new.state) result (made_pushed (result_type op) (term.Two op (tree_at state.old.terms a) (tree_at state.old.terms b)) state.old.state) }
    ensures kept { IfOk result (λ _. Grown state.old state.new) }
{
    let made = state.operation_of_two(op, a, b)?;
    state.push(result_type(op), made)
}

/// An operator of one operand.
pub fn numeric_one(state: &mut TrackedState, used: &Use, op: NumOp) -> Result<(), Refused>
    requires { IsTrue (num_operands op == 1) }
    ensures done { Gives refusal_of (λ _. state.new.state) result (numeric_one op used.now state.old.state) }
    ensures kept { IfOk result (λ _. Grown state.old state.new) }
{
    unused(used)?;
    let (_, a) = state.entry(0)?;
    state.pop(1);
    push_one(state, op, a)
}
