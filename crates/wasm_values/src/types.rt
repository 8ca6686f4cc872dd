ghost use Rattle.std.specs.Prelude.{◌≡◌, ◌++◌, ◌==◌, ◌↔◌, IsTrue, OnOk};
ghost use Rattle.wasm_values.specs.Operators.{operands, num_operands, is_test, type_of, width_of, value_of, number_of};
ghost use Rattle.wasm_values.specs.Types.{is_same_type, are_same_types, is_at_most, zeros_of};

use crate::error::OutOfMemory;
use crate::list::List;
use crate::number::{IntOp, NumOp, Val, ValType};

impl ValType {
    /// How many bits its values have.
    pub fn bits(self) -> u32
        ensures { result ≡ width_of self }
    {
        match self {
            ValType::I32 => 32,
            ValType::I64 => 64,
        }
    }

    /// Its zero.
    pub fn zero(self) -> Val
        ensures { result ≡ value_of self 0 }
    {
        match self {
            ValType::I32 => Val::I32(0),
            ValType::I64 => Val::I64(0),
        }
    }
}

impl Val {
    /// Its type.
    pub fn ty(self) -> ValType
        ensures { result ≡ type_of self }
    {
        match self {
            Val::I32(_) => ValType::I32,
            Val::I64(_) => ValType::I64,
        }
    }

    /// Its unsigned number.
    pub fn number(self) -> u64
        ensures { result ≡ number_of self }
    {
        match self {
            Val::I32(number) => u64::from(number),
            Val::I64(number) => number,
        }
    }
}

impl IntOp {
    /// Whether it takes one operand. Others take two.
    pub fn is_unary(self) -> bool
        ensures { result ≡ (operands self == 1) }
    {
        matches!(self, IntOp::Eqz | IntOp::Clz | IntOp::Ctz | IntOp::Popcnt)
    }

    /// Whether it is a test or a comparison.
    pub fn is_test(self) -> bool
        ensures { result ≡ is_test self }
    {
        match self {
            IntOp::Eqz | IntOp::Eq | IntOp::Ne | IntOp::LtS | IntOp::LtU | IntOp::GtS => true,
            IntOp::GtU | IntOp::LeS | IntOp::LeU | IntOp::GeS | IntOp::GeU => true,
            _ => false,
        }
    }
}

impl NumOp {
    /// Whether it takes one operand. Others take two.
    pub fn is_unary(self) -> bool
        ensures { result ≡ (num_operands self == 1) }
    {
        match self {
            NumOp::W32(op) | NumOp::W64(op) => op.is_unary(),
            NumOp::Wrap | NumOp::ExtendS | NumOp::ExtendU => true,
        }
    }
}

/// Whether two value types are the same.
pub fn is_same_type(a: ValType, b: ValType) -> bool
    ensures value { result ≡ is_same_type a b }
    ensures same { IsTrue result ↔ (a ≡ b) }
{
    match (a, b) {
        (ValType::I32, ValType::I32) | (ValType::I64, ValType::I64) => true,
        (ValType::I32, ValType::I64) | (ValType::I64, ValType::I32) => false,
    }
}

/// Whether two lists of value types are the same.
pub fn are_same_types(a: &[ValType], b: &[ValType]) -> bool
    ensures value { result ≡ are_same_types a.now b.now }
    ensures same { IsTrue result ↔ (a.now ≡ b.now) }
{
    match (a, b) {
        ([], []) => true,
        ([first, rest @ ..], [other, others @ ..]) => {
            is_same_type(*first, *other) && are_same_types(rest, others)
        }
        _ => false,
    }
}

/// Whether a number is at most a bound, where there is one.
pub fn is_at_most(n: usize, bound: Option<u32>) -> bool
    ensures { result ≡ is_at_most n bound }
{
    match bound {
        Some(bound) => n <= bound as usize,
        None => true,
    }
}

/// Adds zeros of these types. After want of memory some of them may have been added.
pub fn add_zeros(locals: &mut List<Val>, types: &[ValType]) -> Result<(), OutOfMemory>
    ensures { OnOk result (locals.new ≡ locals.old ++ zeros_of types.now) }
{
    for ty in types {
        locals.push(ty.zero())?;
    }
    Ok(())
}
