ghost use Rattle.std.specs.Prelude.{◌≡◌, ◌==◌, ◌&&◌, ◌+◌, ◌-◌, ◌*◌, ◌/◌, ◌%◌, ◌^◌, ◌<◌, neg_ℤ, pos, ◌<ℤ◌, ◌≤ℤ◌};
ghost use Rattle.wasm_values.specs.Operators.{IsWidth, operands, unary, binary, signed, unsigned, leading_zeros_of, trailing_zeros_of, ones_of, quotient, remainder};

use crate::number::IntOp;

/// Integers of `BITS` bits, held as numbers below 2 to the power of `BITS`.
pub struct Width<const BITS: u32>;

impl<const BITS: u32> Width<BITS> {
    /// What an operator of one operand gives.
    pub fn one(op: IntOp, a: u64) -> u64
        requires width { IsWidth BITS }
        requires operand { a < 2 ^ BITS }
        requires arity { operands op ≡ 1 }
        ensures { result ≡ unary BITS op a }
    {
        match op {
            IntOp::Eqz => u64::from(a == 0),
            IntOp::Clz => Self::leading_zeros(a),
            IntOp::Ctz => Self::trailing_zeros(a),
            IntOp::Popcnt => Self::ones(a),
            _ => unreachable!(),
        }
    }

    /// What an operator of two operands gives, or `None` where it is undefined.
    pub fn two(op: IntOp, a: u64, b: u64) -> Option<u64>
        requires width { IsWidth BITS }
        requires left { a < 2 ^ BITS }
        requires right { b < 2 ^ BITS }
        requires arity { operands op ≡ 2 }
        ensures { result ≡ binary BITS op a b }
    {
        let count = (b % u64::from(BITS)) as u32;
        match op {
            IntOp::Eq => Some(u64::from(a == b)),
            IntOp::Ne => Some(u64::from(a != b)),
            IntOp::LtS => Some(u64::from(Self::signed(a) < Self::signed(b))),
            IntOp::LtU => Some(u64::from(a < b)),
            IntOp::GtS => Some(u64::from(Self::signed(a) > Self::signed(b))),
            IntOp::GtU => Some(u64::from(a > b)),
            IntOp::LeS => Some(u64::from(Self::signed(a) <= Self::signed(b))),
            IntOp::LeU => Some(u64::from(a <= b)),
            IntOp::GeS => Some(u64::from(Self::signed(a) >= Self::signed(b))),
            IntOp::GeU => Some(u64::from(a >= b)),
            IntOp::Add => Some(Self::add(a, b)),
            IntOp::Sub => Some(Self::sub(a, b)),
            IntOp::Mul => Some(Self::mul(a, b)),
            IntOp::DivS => Self::quotient(a, b),
            IntOp::DivU => a.checked_div(b),
            IntOp::RemS => Self::remainder(a, b),
            IntOp::RemU => a.checked_rem(b),
            IntOp::And => Some(a & b),
            IntOp::Or => Some(a | b),
            IntOp::Xor => Some(a ^ b),
            IntOp::Shl => Some(Self::shifted_left(a, count)),
            IntOp::ShrS => Some(Self::unsigned(Self::signed(a) >> count)),
            IntOp::ShrU => Some(a >> count),
            IntOp::Rotl => Some(Self::rotated_left(a, count)),
            IntOp::Rotr => Some(Self::rotated_right(a, count)),
            IntOp::Eqz | IntOp::Clz | IntOp::Ctz | IntOp::Popcnt => unreachable!(),
        }
    }

    /// The digits from `BITS` to 63 are zeros that std counts too.
    fn leading_zeros(a: u64) -> u64
        requires width { IsWidth BITS }
        requires operand { a < 2 ^ BITS }
        ensures { result ≡ leading_zeros_of BITS a }
    {
        u64::from(a.leading_zeros() - (64 - BITS))
    }

    fn trailing_zeros(a: u64) -> u64
        requires width { IsWidth BITS }
        requires operand { a < 2 ^ BITS }
        ensures { result ≡ trailing_zeros_of BITS a }
    {
        u64::from(a.trailing_zeros().min(BITS))
    }

    fn ones(a: u64) -> u64
        requires { a < 2 ^ BITS }
        ensures { result ≡ ones_of BITS a }
    {
        u64::from(a.count_ones())
    }

    /// The greatest number, all of whose digits are set. Its signed reading is -1.
    fn greatest() -> u64
        requires { IsWidth BITS }
        ensures { result ≡ 2 ^ BITS - 1 }
    {
        u64::MAX >> (64 - BITS)
    }

    /// The number whose signed reading is the least.
    fn least() -> u64
        requires { IsWidth BITS }
        ensures { result ≡ 2 ^ (BITS - 1) }
    {
        1 << (BITS - 1)
    }

    /// The low `BITS` digits of a number.
    fn wrapped(a: u64) -> u64
        requires { IsWidth BITS }
        ensures { result ≡ a % 2 ^ BITS }
    {
        a & Self::greatest()
    }

    fn add(a: u64, b: u64) -> u64
        requires { IsWidth BITS }
        ensures { result ≡ (a + b) % 2 ^ BITS }
    {
        Self::wrapped(a.wrapping_add(b))
    }

    fn sub(a: u64, b: u64) -> u64
        requires width { IsWidth BITS }
        requires right { b < 2 ^ BITS }
        ensures { result ≡ (a + 2 ^ BITS - b) % 2 ^ BITS }
    {
        Self::wrapped(a.wrapping_sub(b))
    }

    fn mul(a: u64, b: u64) -> u64
        requires { IsWidth BITS }
        ensures { result ≡ (a * b) % 2 ^ BITS }
    {
        Self::wrapped(a.wrapping_mul(b))
    }

    fn shifted_left(a: u64, count: u32) -> u64
        requires width { IsWidth BITS }
        requires count { count < BITS }
        ensures { result ≡ (a * 2 ^ count) % 2 ^ BITS }
    {
        Self::wrapped(a << count)
    }

    fn rotated_left(a: u64, count: u32) -> u64
        requires width { IsWidth BITS }
        requires operand { a < 2 ^ BITS }
        requires count { count < BITS }
        ensures { result ≡ (a * 2 ^ count) % 2 ^ BITS + a / 2 ^ (BITS - count) }
    {
        if count == 0 {
            return a;
        }
        Self::shifted_left(a, count) | (a >> (BITS - count))
    }

    fn rotated_right(a: u64, count: u32) -> u64
        requires width { IsWidth BITS }
        requires operand { a < 2 ^ BITS }
        requires count { count < BITS }
        ensures { result ≡ a / 2 ^ count + (a * 2 ^ (BITS - count)) % 2 ^ BITS }
    {
        if count == 0 {
            return a;
        }
        (a >> count) | Self::shifted_left(a, BITS - count)
    }

    /// The signed reading.
    fn signed(a: u64) -> i64
        requires width { IsWidth BITS }
        requires operand { a < 2 ^ BITS }
        ensures value { result ≡ signed BITS a }
        ensures low { neg_ℤ (pos (2 ^ (BITS - 1))) ≤ℤ result }
        ensures high { result <ℤ pos (2 ^ (BITS - 1)) }
    {
        if BITS == 32 {
            i64::from((a as u32).cast_signed())
        } else {
            a.cast_signed()
        }
    }

    /// The number whose signed reading is given.
    fn unsigned(value: i64) -> u64
        requires width { IsWidth BITS }
        requires low { neg_ℤ (pos (2 ^ (BITS - 1))) ≤ℤ value }
        requires high { value <ℤ pos (2 ^ (BITS - 1)) }
        ensures { result ≡ unsigned BITS value }
    {
        Self::wrapped(value.cast_unsigned())
    }

    /// Whether the least number is divided by -1.
    fn overflows(a: u64, b: u64) -> bool
        requires { IsWidth BITS }
        ensures { result ≡ (a == 2 ^ (BITS - 1)) && (b == 2 ^ BITS - 1) }
    {
        a == Self::least() && b == Self::greatest()
    }

    fn quotient(a: u64, b: u64) -> Option<u64>
        requires width { IsWidth BITS }
        requires left { a < 2 ^ BITS }
        requires right { b < 2 ^ BITS }
        ensures { result ≡ quotient BITS a b }
    {
        if b == 0 || Self::overflows(a, b) {
            return None;
        }
        Some(Self::unsigned(Self::signed(a) / Self::signed(b)))
    }

    fn remainder(a: u64, b: u64) -> Option<u64>
        requires width { IsWidth BITS }
        requires left { a < 2 ^ BITS }
        requires right { b < 2 ^ BITS }
        ensures { result ≡ remainder BITS a b }
    {
        if b == 0 {
            return None;
        }
        let rest = Self::signed(a).wrapping_rem(Self::signed(b));
        Some(Self::unsigned(rest))
    }
}
