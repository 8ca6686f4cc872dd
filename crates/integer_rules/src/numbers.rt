ghost use Rattle.std.specs.Prelude.{◌≡◌, ◌-◌, ◌^◌, ◌<◌, ◌≤◌, pos, ◌≤ℤ◌};
ghost use Rattle.wasm_values.specs.Operators.{width_of};
ghost use Rattle.term_trees.specs.Meaning.{modulo};
ghost use Rattle.integer_rules.specs.Rows.{operator, greatest, modulus, half, greatest_signed, limit, limited, shift_as};
ghost use Rattle.integer_rules.specs.Fits.{width_with};

use wasm_values::{IntOp, NumOp, ValType};

/// The operator at a width.
pub(crate) fn operator(width: ValType, op: IntOp) -> NumOp
    ensures { result ≡ operator width op }
{
    match width {
        ValType::I32 => NumOp::W32(op),
        ValType::I64 => NumOp::W64(op),
    }
}

/// The width of so many bits.
pub(crate) fn width_with(bits: u32) -> Option<ValType>
    ensures { result ≡ width_with bits }
{
    if bits == 32 {
        Some(ValType::I32)
    } else if bits == 64 {
        Some(ValType::I64)
    } else {
        None
    }
}

/// The greatest number of a width.
pub(crate) fn greatest(width: ValType) -> i128
    ensures { result ≡ greatest width }
{
    match width {
        ValType::I32 => 0xFFFF_FFFF,
        ValType::I64 => 0xFFFF_FFFF_FFFF_FFFF,
    }
}

/// One more than the greatest number of a width.
pub(crate) fn modulus(width: ValType) -> i128
    ensures { result ≡ modulus width }
{
    match width {
        ValType::I32 => 0x1_0000_0000,
        ValType::I64 => 0x1_0000_0000_0000_0000,
    }
}

/// The least number of a width whose signed reading is negative.
pub(crate) fn half(width: ValType) -> i128
    ensures { result ≡ half width }
{
    match width {
        ValType::I32 => 0x8000_0000,
        ValType::I64 => 0x8000_0000_0000_0000,
    }
}

/// The greatest signed reading of a width.
pub(crate) fn greatest_signed(width: ValType) -> i128
    ensures { result ≡ greatest_signed width }
{
    match width {
        ValType::I32 => 0x7FFF_FFFF,
        ValType::I64 => 0x7FFF_FFFF_FFFF_FFFF,
    }
}

/// 2 to the k.
pub(crate) fn power(k: u32) -> i128
    requires { k ≤ 64 }
    ensures { result ≡ pos (2 ^ k) }
{
    (1u128 << k) as i128
}

/// By how many digits a shift by k shifts.
pub(crate) fn digits(width: ValType, k: i128) -> u32
    requires low { pos 0 ≤ℤ k }
    requires high { k ≤ℤ greatest width }
    ensures value { result ≡ modulo k (width_of width) }
    ensures small { result < 64 }
{
    match width {
        ValType::I32 => (k as u64 % 32) as u32,
        ValType::I64 => (k as u64 % 64) as u32,
    }
}

/// What a shift by a number of digits does to a number: it multiplies, or it divides.
pub(crate) fn shift_as(op: IntOp) -> Option<IntOp>
    ensures { result ≡ shift_as op }
{
    match op {
        IntOp::Shl => Some(IntOp::Mul),
        IntOp::ShrU => Some(IntOp::DivU),
        _ => None,
    }
}

/// 1 for a comparison, the number of bits for a count of digits, and else the greatest number of the width.
fn sized_limit(width: ValType, op: IntOp) -> i128
    ensures { result ≡ pos (limited op (width_of width) (2 ^ width_of width - 1)) }
{
    match op {
        IntOp::Eqz
        | IntOp::Eq
        | IntOp::Ne
        | IntOp::LtS
        | IntOp::LtU
        | IntOp::GtS
        | IntOp::GtU
        | IntOp::LeS
        | IntOp::LeU
        | IntOp::GeS
        | IntOp::GeU => 1,
        IntOp::Clz | IntOp::Ctz | IntOp::Popcnt => i128::from(width.bits()),
        _ => greatest(width),
    }
}

/// The greatest number that an operator may give.
pub(crate) fn limit(op: NumOp) -> i128
    ensures { result ≡ pos (limit op) }
{
    match op {
        NumOp::W32(op) => sized_limit(ValType::I32, op),
        NumOp::W64(op) => sized_limit(ValType::I64, op),
        NumOp::Wrap => greatest(ValType::I32),
        NumOp::ExtendS | NumOp::ExtendU => greatest(ValType::I64),
    }
}
