//! Numbers in little-endian groups of seven bits: how they are read.
ghost use Rattle.std.specs.Prelude.{◌≡◌, ℕ, ◌+◌, ◌-◌, ◌*◌, ◌^◌, ◌<◌, ◌≤◌, List, ◌++◌, length, IfOk, Ok, Err, ℤ, slice_range};
ghost use Rattle.binary_grammar.specs.Numbers.{twos_complement, SpellsU32, SpellsS32, SpellsS64, EndsInside, ReadsNumber};
ghost use Rattle.binary_grammar.specs.words.NumberReading.{GivesNumber, placed, digits_at, u32_at, s32_at, s64_at};

use binary_grammar::LebFault;

// The most bytes of a number of 32 bits, and of 64 bits.
const MOST_32: usize = 5;

const MOST_64: usize = 10;

/// The value of a number's digits, and how many they are.
#[derive(Clone, Copy)]
struct Digits {
    value: u128,
    len: usize,
}

#[tactic(auto, unfolding(binary_grammar::specs::words::NumberReading::digits_at))]
fn take_digits(bytes: &[u8], most: usize) -> Result<(Digits, &[u8]), LebFault>
    requires { most ≤ 10 }
    ensures exact { GivesNumber (λ x. (x.0.value, x.0.len, x.1.now)) result (digits_at most bytes.now) }
    ensures small { IfOk result (λ x. x.0.value < 128 ^ x.0.len) }
    ensures few { IfOk result (λ x. x.0.len ≤ most) }
    ensures some { IfOk result (λ x. 1 ≤ x.0.len) }
    ensures shorter { IfOk result (λ x. length x.1.now ≤ length bytes.now) }
{
    if most == 0 {
        return Err(LebFault::Number);
    }
    match bytes {
        [] => Err(LebFault::End),
        [byte, rest @ ..] => {
            if *byte < 128 {
                let value = u128::from(*byte);
                return Ok((Digits { value, len: 1 }, rest));
            }
            let (high, rest) = take_digits(rest, most - 1)?;
            let value = u128::from(*byte % 128) + 128 * high.value;
            let len = high.len + 1;
            Ok((Digits { value, len }, rest))
        }
    }
}

// Half of the numbers of so many digits.
fn half(len: usize) -> u128
    requires some { 1 ≤ len }
    requires few { len ≤ 10 }
    ensures value { result ≡ 2 ^ (7 * len - 1) }
    ensures bits { 2 ^ (7 * len) ≡ result + result }
    ensures digits { 128 ^ len ≡ result + result }
    ensures bound { result ≤ 2 ^ 69 }
{
    match len {
        1 => 1 << 6,
        2 => 1 << 13,
        3 => 1 << 20,
        4 => 1 << 27,
        5 => 1 << 34,
        6 => 1 << 41,
        7 => 1 << 48,
        8 => 1 << 55,
        9 => 1 << 62,
        _ => 1 << 69,
    }
}

// The digits read as a two's complement number of 7 bits each.
fn signed(digits: Digits) -> i128
    requires some { 1 ≤ digits.len }
    requires few { digits.len ≤ 10 }
    requires small { digits.value < 128 ^ digits.len }
    ensures { result ≡ twos_complement (7 * digits.len) digits.value }
{
    let half = half(digits.len);
    if digits.value < half {
        digits.value as i128
    } else {
        digits.value as i128 - (half + half) as i128
    }
}

#[tactic(auto, unfolding(binary_grammar::specs::words::NumberReading::u32_at))]
#[inline(never)]
fn take_long_u32(bytes: &[u8]) -> Result<(u32, &[u8]), LebFault>
    ensures gives { GivesNumber (λ x. (x.0, x.1.now)) result (u32_at bytes.now) }
    ensures shorter { IfOk result (λ x. length x.1.now ≤ length bytes.now) }
{
    let (digits, rest) = take_digits(bytes, MOST_32)?;
    if digits.value < 1 << 32 {
        Ok((digits.value as u32, rest))
    } else {
        Err(LebFault::Number)
    }
}

/// Takes an unsigned number of 32 bits from the front of the bytes, and answers it with those that are left. A number of one byte takes the short way.
#[tactic(auto, unfolding(binary_grammar::specs::words::NumberReading::u32_at, binary_grammar::specs::words::NumberReading::digits_at))]
#[inline(always)]
pub fn take_u32(bytes: &[u8]) -> Result<(u32, &[u8]), LebFault>
    ensures gives { GivesNumber (λ x. (x.0, x.1.now)) result (u32_at bytes.now) }
    ensures shorter { IfOk result (λ x. length x.1.now ≤ length bytes.now) }
{
    match bytes {
        [byte, rest @ ..] if *byte < 128 => Ok((u32::from(*byte), rest)),
        _ => take_long_u32(bytes),
    }
}

#[tactic(auto, unfolding(binary_grammar::specs::words::NumberReading::s32_at))]
#[inline(never)]
fn take_long_s32(bytes: &[u8]) -> Result<(i32, &[u8]), LebFault>
    ensures gives { GivesNumber (λ x. (x.0, x.1.now)) result (s32_at bytes.now) }
    ensures shorter { IfOk result (λ x. length x.1.now ≤ length bytes.now) }
{
    let (digits, rest) = take_digits(bytes, MOST_32)?;
    let value = signed(digits);
    if -(1 << 31) <= value && value < 1 << 31 {
        Ok((value as i32, rest))
    } else {
        Err(LebFault::Number)
    }
}

/// Takes a signed number of 32 bits from the front of the bytes, and answers it with those that are left. A number of one byte takes the short way.
#[tactic(auto, unfolding(binary_grammar::specs::words::NumberReading::s32_at, binary_grammar::specs::words::NumberReading::digits_at))]
#[inline(always)]
pub fn take_s32(bytes: &[u8]) -> Result<(i32, &[u8]), LebFault>
    ensures gives { GivesNumber (λ x. (x.0, x.1.now)) result (s32_at bytes.now) }
    ensures shorter { IfOk result (λ x. length x.1.now ≤ length bytes.now) }
{
    match bytes {
        [byte, rest @ ..] if *byte < 64 => Ok((i32::from(*byte), rest)),
        _ => take_long_s32(bytes),
    }
}

#[tactic(auto, unfolding(binary_grammar::specs::words::NumberReading::s64_at))]
#[inline(never)]
fn take_long_s64(bytes: &[u8]) -> Result<(i64, &[u8]), LebFault>
    ensures gives { GivesNumber (λ x. (x.0, x.1.now)) result (s64_at bytes.now) }
    ensures shorter { IfOk result (λ x. length x.1.now ≤ length bytes.now) }
{
    let (digits, rest) = take_digits(bytes, MOST_64)?;
    let value = signed(digits);
    if -(1 << 63) <= value && value < 1 << 63 {
        Ok((value as i64, rest))
    } else {
        Err(LebFault::Number)
    }
}

/// Takes a signed number of 64 bits from the front of the bytes, and answers it with those that are left. A number of one byte takes the short way.
#[tactic(auto, unfolding(binary_grammar::specs::words::NumberReading::s64_at, binary_grammar::specs::words::NumberReading::digits_at))]
#[inline(always)]
pub fn take_s64(bytes: &[u8]) -> Result<(i64, &[u8]), LebFault>
    ensures gives { GivesNumber (λ x. (x.0, x.1.now)) result (s64_at bytes.now) }
    ensures shorter { IfOk result (λ x. length x.1.now ≤ length bytes.now) }
{
    match bytes {
        [byte, rest @ ..] if *byte < 64 => Ok((i64::from(*byte), rest)),
        _ => take_long_s64(bytes),
    }
}

fn u32_between(bytes: &[u8], from: usize, to: usize) -> Result<(u32, usize), LebFault>
    requires ordered { from ≤ to }
    requires within { to ≤ length bytes.now }
    ensures { result ≡ placed to (u32_at (slice_range bytes.now from to)) }
{
    match take_u32(&bytes[from..to]) {
        Ok((value, rest)) => Ok((value, to - rest.len())),
        Err(fault) => Err(fault),
    }
}

/// Reads an unsigned number of 32 bits that begins at `from`, of the bytes before `to`, and the place behind it.
pub fn read_u32(bytes: &[u8], from: usize, to: usize) -> Result<(u32, usize), LebFault>
    requires ordered { from ≤ to }
    requires within { to ≤ length bytes.now }
    // What is read is spelled so; else the bytes end inside a number, or no front of them spells one.
    ensures reads { ReadsNumber SpellsU32 5 (slice_range bytes.now from to) from result }
    // What a front spells is read.
    ensures spelled { (front rest : List ℕ) (x : ℕ) → slice_range bytes.now from to ≡ front ++ rest → SpellsU32 front x → result ≡ Ok (x, from + length front) }
    ensures ends { EndsInside 5 (slice_range bytes.now from to) → result ≡ Err LebFault.End }
{
    u32_between(bytes, from, to)
}

fn s32_between(bytes: &[u8], from: usize, to: usize) -> Result<(i32, usize), LebFault>
    requires ordered { from ≤ to }
    requires within { to ≤ length bytes.now }
    ensures { result ≡ placed to (s32_at (slice_range bytes.now from to)) }
{
    match take_s32(&bytes[from..to]) {
        Ok((value, rest)) => Ok((value, to - rest.len())),
        Err(fault) => Err(fault),
    }
}

/// Reads a signed number of 32 bits that begins at `from`, of the bytes before `to`, and the place behind it.
pub fn read_s32(bytes: &[u8], from: usize, to: usize) -> Result<(i32, usize), LebFault>
    requires ordered { from ≤ to }
    requires within { to ≤ length bytes.now }
    // What is read is spelled so; else the bytes end inside a number, or no front of them spells one.
    ensures reads { ReadsNumber SpellsS32 5 (slice_range bytes.now from to) from result }
    // What a front spells is read.
    ensures spelled { (front rest : List ℕ) (x : ℤ) → slice_range bytes.now from to ≡ front ++ rest → SpellsS32 front x → result ≡ Ok (x, from + length front) }
    ensures ends { EndsInside 5 (slice_range bytes.now from to) → result ≡ Err LebFault.End }
{
    s32_between(bytes, from, to)
}

fn s64_between(bytes: &[u8], from: usize, to: usize) -> Result<(i64, usize), LebFault>
    requires ordered { from ≤ to }
    requires within { to ≤ length bytes.now }
    ensures { result ≡ placed to (s64_at (slice_range bytes.now from to)) }
{
    match take_s64(&bytes[from..to]) {
        Ok((value, rest)) => Ok((value, to - rest.len())),
        Err(fault) => Err(fault),
    }
}

/// Reads a signed number of 64 bits that begins at `from`, of the bytes before `to`, and the place behind it.
pub fn read_s64(bytes: &[u8], from: usize, to: usize) -> Result<(i64, usize), LebFault>
    requires ordered { from ≤ to }
    requires within { to ≤ length bytes.now }
    // What is read is spelled so; else the bytes end inside a number, or no front of them spells one.
    ensures reads { ReadsNumber SpellsS64 10 (slice_range bytes.now from to) from result }
    // What a front spells is read.
    ensures spelled { (front rest : List ℕ) (x : ℤ) → slice_range bytes.now from to ≡ front ++ rest → SpellsS64 front x → result ≡ Ok (x, from + length front) }
    ensures ends { EndsInside 10 (slice_range bytes.now from to) → result ≡ Err LebFault.End }
{
    s64_between(bytes, from, to)
}
