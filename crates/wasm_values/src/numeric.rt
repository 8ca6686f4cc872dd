ghost use Rattle.std.specs.Prelude.{◌≡◌, ◌^◌, ◌<◌};
ghost use Rattle.std.specs.Option.{option_map};
ghost use Rattle.wasm_values.specs.Operators.{num_operands, num_unary, num_binary, type_of, number_of, value_of, width_of, operand_type, result_type, is_test};

use crate::extension::sext;
use crate::number::{IntOp, NumOp, Val};
use crate::width::Width;

/// What a numeric instruction of one operand gives.
pub fn num1(op: NumOp, a: Val) -> Val
    requires arity { num_operands op ≡ 1 }
    requires typed { type_of a ≡ operand_type op }
    ensures { result ≡ value_of (result_type op) (num_unary op (number_of a)) }
{
    match (op, a) {
        (NumOp::W32(op), Val::I32(a)) => narrow(Width::<32>::one(op, u64::from(a))),
        (NumOp::W64(op), Val::I64(a)) => wide(op, Width::<64>::one(op, a)),
        (NumOp::Wrap, Val::I64(a)) => narrow(a % 0x1_0000_0000),
        (NumOp::ExtendS, Val::I32(a)) => Val::I64(sext(32, 64, u64::from(a))),
        (NumOp::ExtendU, Val::I32(a)) => Val::I64(u64::from(a)),
        _ => unreachable!(),
    }
}

/// What a numeric instruction of two operands gives, or `None` where it is undefined.
pub fn num2(op: NumOp, a: Val, b: Val) -> Option<Val>
    requires arity { num_operands op ≡ 2 }
    requires left { type_of a ≡ operand_type op }
    requires right { type_of b ≡ operand_type op }
    ensures { result ≡ option_map (value_of (result_type op)) (num_binary op (number_of a) (number_of b)) }
{
    match (op, a, b) {
        (NumOp::W32(op), Val::I32(a), Val::I32(b)) => {
            let given = Width::<32>::two(op, u64::from(a), u64::from(b))?;
            Some(narrow(given))
        }
        (NumOp::W64(op), Val::I64(a), Val::I64(b)) => {
            let given = Width::<64>::two(op, a, b)?;
            Some(wide(op, given))
        }
        _ => unreachable!(),
    }
}

/// The value of 32 bits that holds a number.
fn narrow(number: u64) -> Val
    requires { number < 2 ^ 32 }
    ensures { result ≡ Val.I32 number }
{
    Val::I32(number as u32)
}

/// The value that an operator of 64 bits gives: a test's has 32 bits.
fn wide(op: IntOp, number: u64) -> Val
    requires { number < 2 ^ width_of (result_type (NumOp.W64 op)) }
    ensures { result ≡ value_of (result_type (NumOp.W64 op)) number }
{
    if is_test(op) {
        Val::I32(number as u32)
    } else {
        Val::I64(number)
    }
}

/// Whether an operator's result is 0 or 1, in 32 bits at either width.
fn is_test(op: IntOp) -> bool
    ensures { result ≡ is_test op }
{
    match op {
        IntOp::Eqz | IntOp::Eq | IntOp::Ne => true,
        IntOp::LtS | IntOp::LtU | IntOp::GtS | IntOp::GtU => true,
        IntOp::LeS | IntOp::LeU | IntOp::GeS | IntOp::GeU => true,
        _ => false,
    }
}
