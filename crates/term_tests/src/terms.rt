// Terms that tests begin with.

ghost use Rattle.std.specs.Prelude.{◌≡◌, ◌≤◌, IfOk, IsTrue};
ghost use Rattle.wasm_values.specs.Operators.{num_operands};
ghost use Rattle.term_trees.specs.Terms.{node_count, well_formed};

use std::alloc::Global;
use term_trees::{Boxed, Term};
use wasm_values::{NumOp, OutOfMemory};

/// Two operands under an operator.
pub(crate) fn two(alloc: Global, op: NumOp, a: i128, b: i128) -> Result<Term, OutOfMemory>
    requires { num_operands op ≡ 2 }
    ensures well_formed { IfOk result (λ t. IsTrue (well_formed t)) }
    ensures small { IfOk result (λ t. node_count t ≤ 3) }
{
    let a = Boxed::new(alloc, Term::Num(a))?;
    let b = Boxed::new(alloc, Term::Num(b))?;
    Ok(Term::Two(op, a, b))
}
