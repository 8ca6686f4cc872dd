ghost use Rattle.std.specs.Prelude.{◌≡◌, ◌^◌, ◌≤◌, pos, unwrap_or, IsTrue};
ghost use Rattle.wasm_values.specs.Operators.{num_operands, num_width, num_unary, num_binary, signed, sign_extended, type_of, number_of, operand_type};
ghost use Rattle.term_trees.specs.Terms.{is_low_width, is_sext_pair, is_sgn_width};
ghost use Rattle.term_trees.specs.Meaning.{modulo};

use wasm_values::{NumOp, Val, num1, num2, sext};

/// The whole number modulo 2 to the number of bits.
fn reduced(a: i128, bits: u32) -> u64
    requires { bits ≤ 64 }
    ensures { result ≡ modulo a (2 ^ bits) }
{
    a.rem_euclid(1 << bits) as u64
}

/// The operand that an operator takes a whole number as.
fn operand(op: NumOp, a: i128) -> Val
    ensures typed { type_of result ≡ operand_type op }
    ensures number { number_of result ≡ modulo a (2 ^ num_width op) }
{
    match op {
        NumOp::W32(_) | NumOp::ExtendS | NumOp::ExtendU => Val::I32(reduced(a, 32) as u32),
        NumOp::W64(_) | NumOp::Wrap => Val::I64(reduced(a, 64)),
    }
}

/// What an operator of one operand gives at a whole number.
pub(crate) fn one_value(op: NumOp, a: i128) -> i128
    requires { num_operands op ≡ 1 }
    ensures { result ≡ pos (num_unary op (modulo a (2 ^ num_width op))) }
{
    i128::from(num1(op, operand(op, a)).number())
}

/// What an operator of two operands gives at whole numbers, and 0 where it is undefined.
pub(crate) fn two_value(op: NumOp, a: i128, b: i128) -> i128
    requires { num_operands op ≡ 2 }
    ensures { result ≡ pos (unwrap_or (num_binary op (modulo a (2 ^ num_width op)) (modulo b (2 ^ num_width op))) 0) }
{
    match num2(op, operand(op, a), operand(op, b)) {
        Some(value) => i128::from(value.number()),
        None => 0,
    }
}

/// The lowest bits of a whole number.
pub(crate) fn low_value(k: u32, a: i128) -> i128
    requires { IsTrue (is_low_width k) }
    ensures { result ≡ pos (modulo a (2 ^ k)) }
{
    i128::from(reduced(a, k))
}

/// The sign extension of the lowest bits of a whole number.
pub(crate) fn sext_value(k: u32, n: u32, a: i128) -> i128
    requires { IsTrue (is_sext_pair k n) }
    ensures { result ≡ pos (sign_extended k n (modulo a (2 ^ k))) }
{
    i128::from(sext(k, n, reduced(a, k)))
}

/// The signed reading of the lowest bits of a whole number.
pub(crate) fn sgn_value(n: u32, a: i128) -> i128
    requires { IsTrue (is_sgn_width n) }
    ensures { result ≡ signed n (modulo a (2 ^ n)) }
{
    let low = reduced(a, n);
    if low >> (n - 1) == 0 {
        i128::from(low)
    } else {
        i128::from(low) - (1 << n)
    }
}
