// What keeps a numeric operator defined.

ghost use Rattle.std.specs.Prelude.{◌≡◌, ◌-◌, ◌^◌};
ghost use Rattle.wasm_values.specs.Operators.{width_of};
ghost use Rattle.term_trees.specs.declared.term.Term.{Term};
ghost use Rattle.outline_rules.specs.Instructions.{int_facts, defined_facts};
ghost use Rattle.symbolic_calls.specs.words.Guards.{guard_facts};

use wasm_values::{IntOp, NumOp, ValType};

/// What is wanted of the operands of an operator.
#[derive(Clone, Copy)]
pub(crate) enum Guard {
    Nothing,
    /// The divisor isn't 0.
    Divisor,
    /// The divisor isn't 0, and the signed quotient of two values of the type is one.
    Quotient(ValType),
}

/// What keeps an operator on values of a type defined.
fn guard_of_int(op: IntOp, ty: ValType) -> Guard
    ensures { (a b : Term) → int_facts (width_of ty) op a b ≡ guard_facts result a b }
{
    match op {
        IntOp::DivU | IntOp::RemU | IntOp::RemS => Guard::Divisor,
        IntOp::DivS => Guard::Quotient(ty),
        _ => Guard::Nothing,
    }
}

/// What keeps a numeric operator defined.
pub(crate) fn guard_of(op: NumOp) -> Guard
    ensures { (a b : Term) → defined_facts op a b ≡ guard_facts result a b }
{
    match op {
        NumOp::W32(op) => guard_of_int(op, ValType::I32),
        NumOp::W64(op) => guard_of_int(op, ValType::I64),
        _ => Guard::Nothing,
    }
}

/// The unsigned number of the least signed value of a type.
pub(crate) fn least_signed(ty: ValType) -> u64
    ensures { result ≡ 2 ^ (width_of ty - 1) }
{
    match ty {
        ValType::I32 => 2_147_483_648,
        ValType::I64 => 9_223_372_036_854_775_808,
    }
}

/// The greatest unsigned number of a type.
pub(crate) fn greatest(ty: ValType) -> u64
    ensures { result ≡ 2 ^ width_of ty - 1 }
{
    match ty {
        ValType::I32 => 4_294_967_295,
        ValType::I64 => 18_446_744_073_709_551_615,
    }
}
