ghost use Rattle.std.specs.Prelude.{◌≡◌, IfOk, IsTrue};
ghost use Rattle.wasm_values.specs.Operators.{num_operands, operands};
ghost use Rattle.term_trees.specs.Terms.{well_formed, is_low_width, is_sext_pair, is_sgn_width};

use crate::terms::two;
use std::alloc::Global;
use std::test::Fail;
use term_trees::forms::Normal;
use term_trees::{Boxed, Formula, Term, ground, normal};
use wasm_values::{IntOp, NumOp, OutOfMemory};

/// `(+ v0 (* 2 (- v0 1)))`.
fn three_times(alloc: Global) -> Result<Term, OutOfMemory>
    ensures { IfOk result (λ t. IsTrue (well_formed t)) }
{
    let first = Boxed::new(alloc, Term::Var(0))?;
    let one = Boxed::new(alloc, Term::Num(1))?;
    let difference = Boxed::new(alloc, Term::Sub(first, one))?;
    let number = Boxed::new(alloc, Term::Num(2))?;
    let product = Boxed::new(alloc, Term::Mul(number, difference))?;
    let second = Boxed::new(alloc, Term::Var(0))?;
    Ok(Term::Add(second, product))
}

/// Whether a form is three times the variable 0, less 2.
fn is_thrice_less_two(form: &Normal) -> bool {
    match form.parts.as_slice() {
        [part] => form.constant == -2 && part.0.var_of() == Some(0) && part.1 == 3,
        _ => false,
    }
}

/// Whether a term that is three times the variable 0, less 2, has that form.
fn is_gathered(alloc: Global, term: &Term) -> Result<bool, OutOfMemory>
    requires { IsTrue (well_formed term.now) }
{
    match normal(alloc, term)? {
        Some(form) => Ok(is_thrice_less_two(&form)),
        None => Ok(false),
    }
}

#[test]
fn numbers_and_variables_are_gathered(rt: HostRuntime) -> Result<(), Fail> {
    let alloc = rt.alloc();
    let term = three_times(alloc)?;
    assert!(rt; is_gathered(alloc, &term)?);
    Ok(())
}

/// Whether a term has a value.
fn is(term: Term, value: i128) -> bool
    requires { IsTrue (well_formed term) }
{
    ground(&Formula::Eq(term, Term::Num(value))) == Some(true)
}

fn two_is(alloc: Global, op: NumOp, a: i128, b: i128, value: i128) -> bool
    requires { num_operands op ≡ 2 }
{
    match two(alloc, op, a, b) {
        Ok(term) => is(term, value),
        Err(_) => false,
    }
}

fn one_is(alloc: Global, op: NumOp, a: i128, value: i128) -> bool
    requires { num_operands op ≡ 1 }
{
    match Boxed::new(alloc, Term::Num(a)) {
        Ok(a) => is(Term::One(op, a), value),
        Err(_) => false,
    }
}

fn low_is(alloc: Global, k: u32, a: i128, value: i128) -> bool
    requires { IsTrue (is_low_width k) }
{
    match Boxed::new(alloc, Term::Num(a)) {
        Ok(a) => is(Term::Low(k, a), value),
        Err(_) => false,
    }
}

fn sext_is(alloc: Global, k: u32, n: u32, a: i128, value: i128) -> bool
    requires { IsTrue (is_sext_pair k n) }
{
    match Boxed::new(alloc, Term::Num(a)) {
        Ok(a) => is(Term::Sext(k, n, a), value),
        Err(_) => false,
    }
}

fn sgn_is(alloc: Global, n: u32, a: i128, value: i128) -> bool
    requires { IsTrue (is_sgn_width n) }
{
    match Boxed::new(alloc, Term::Num(a)) {
        Ok(a) => is(Term::Sgn(n, a), value),
        Err(_) => false,
    }
}

/// Whether an operator gives these values at 5 - 2 ^ (n - 1) and -3, which stand for numbers of n bits, at both widths.
fn two_are(alloc: Global, op: IntOp, narrow: i128, wide: i128) -> bool
    requires { operands op ≡ 2 }
{
    two_is(alloc, NumOp::W32(op), -2_147_483_643, -3, narrow)
        && two_is(alloc, NumOp::W64(op), -9_223_372_036_854_775_803, -3, wide)
}

/// Whether an operator gives these values at 2 ^ (n - 1) and 2 ^ n - 1, the least signed number and -1, at both widths.
fn edges_are(alloc: Global, op: IntOp, narrow: i128, wide: i128) -> bool
    requires { operands op ≡ 2 }
{
    two_is(alloc, NumOp::W32(op), LEAST_32, LAST_32, narrow)
        && two_is(alloc, NumOp::W64(op), LEAST_64, LAST_64, wide)
}

/// Whether a comparison gives these values at -3 and -2 ^ (n - 1), at the least and the greatest signed number, and at
/// 2 ^ n and 0, which stand for one number, at both widths.
fn compared(alloc: Global, op: IntOp, near: i128, least: i128, equal: i128) -> bool
    requires { operands op ≡ 2 }
{
    two_is(alloc, NumOp::W32(op), -3, -LEAST_32, near)
        && two_is(alloc, NumOp::W64(op), -3, -LEAST_64, near)
        && two_is(alloc, NumOp::W32(op), LEAST_32, LEAST_32 - 1, least)
        && two_is(alloc, NumOp::W64(op), LEAST_64, LEAST_64 - 1, least)
        && two_is(alloc, NumOp::W32(op), LAST_32 + 1, 0, equal)
        && two_is(alloc, NumOp::W64(op), LAST_64 + 1, 0, equal)
}

/// Whether an operator gives these values at 2 ^ (n + 1) + 96, which stands for 96, at both widths.
fn one_are(alloc: Global, op: IntOp, narrow: i128, wide: i128) -> bool
    requires { operands op ≡ 1 }
{
    one_is(alloc, NumOp::W32(op), 8_589_934_688, narrow)
        && one_is(alloc, NumOp::W64(op), 36_893_488_147_419_103_328, wide)
}

/// Whether an operator gives these values at 2 ^ n, which stands for 0, and at -1, which stands for 2 ^ n - 1: first those
/// of 32 bits, then those of 64.
fn one_edges(alloc: Global, op: IntOp, narrow: (i128, i128), wide: (i128, i128)) -> bool
    requires { operands op ≡ 1 }
{
    one_is(alloc, NumOp::W32(op), LAST_32 + 1, narrow.0)
        && one_is(alloc, NumOp::W32(op), -1, narrow.1)
        && one_is(alloc, NumOp::W64(op), LAST_64 + 1, wide.0)
        && one_is(alloc, NumOp::W64(op), -1, wide.1)
}

/// Whether an operator is undefined at 7 and 0, so that its term is 0, at both widths.
fn undefined(alloc: Global, op: IntOp) -> bool
    requires { operands op ≡ 2 }
{
    two_is(alloc, NumOp::W32(op), 7, LAST_32 + 1, 0)
        && two_is(alloc, NumOp::W64(op), 7, LAST_64 + 1, 0)
}

/// 2 ^ 31 and 2 ^ 32 - 1.
const LEAST_32: i128 = 2_147_483_648;

const LAST_32: i128 = 4_294_967_295;

/// 2 ^ 63 and 2 ^ 64 - 1.
const LEAST_64: i128 = 9_223_372_036_854_775_808;

const LAST_64: i128 = 18_446_744_073_709_551_615;

/// Each comparison.
fn comparisons(alloc: Global) -> bool {
    compared(alloc, IntOp::Eq, 0, 0, 1)
        && compared(alloc, IntOp::Ne, 1, 1, 0)
        && compared(alloc, IntOp::LtS, 0, 1, 0)
        && compared(alloc, IntOp::LtU, 0, 0, 0)
        && compared(alloc, IntOp::GtS, 1, 0, 0)
        && compared(alloc, IntOp::GtU, 1, 1, 0)
        && compared(alloc, IntOp::LeS, 0, 1, 1)
        && compared(alloc, IntOp::LeU, 0, 0, 1)
        && compared(alloc, IntOp::GeS, 1, 0, 1)
        && compared(alloc, IntOp::GeU, 1, 1, 1)
}

/// Each operator of arithmetic.
fn arithmetic(alloc: Global) -> bool {
    two_are(alloc, IntOp::Add, 2_147_483_650, 9_223_372_036_854_775_810)
        && two_are(alloc, IntOp::Sub, 2_147_483_656, 9_223_372_036_854_775_816)
        && two_are(alloc, IntOp::Mul, 2_147_483_633, 9_223_372_036_854_775_793)
        && two_are(alloc, IntOp::DivS, 715_827_881, 3_074_457_345_618_258_601)
        && two_are(alloc, IntOp::DivU, 0, 0)
        && two_are(alloc, IntOp::RemS, 0, 0)
        && two_are(alloc, IntOp::RemU, 2_147_483_653, 9_223_372_036_854_775_813)
}

/// Each operator of arithmetic at the least signed number and -1. The signed quotient is undefined there.
fn arithmetic_at_edges(alloc: Global) -> bool {
    edges_are(alloc, IntOp::Add, LEAST_32 - 1, LEAST_64 - 1)
        && edges_are(alloc, IntOp::Sub, LEAST_32 + 1, LEAST_64 + 1)
        && edges_are(alloc, IntOp::Mul, LEAST_32, LEAST_64)
        && edges_are(alloc, IntOp::DivS, 0, 0)
        && edges_are(alloc, IntOp::DivU, 0, 0)
        && edges_are(alloc, IntOp::RemS, 0, 0)
        && edges_are(alloc, IntOp::RemU, LEAST_32, LEAST_64)
}

/// Each operator on binary digits.
fn on_digits(alloc: Global) -> bool {
    two_are(alloc, IntOp::And, 2_147_483_653, 9_223_372_036_854_775_813)
        && two_are(alloc, IntOp::Or, 4_294_967_293, 18_446_744_073_709_551_613)
        && two_are(alloc, IntOp::Xor, 2_147_483_640, 9_223_372_036_854_775_800)
        && two_are(alloc, IntOp::Shl, 2_684_354_560, 11_529_215_046_068_469_760)
        && two_are(
            alloc,
            IntOp::ShrS,
            4_294_967_292,
            18_446_744_073_709_551_612,
        )
        && two_are(alloc, IntOp::ShrU, 4, 4)
        && two_are(
            alloc,
            IntOp::Rotl,
            2_952_790_016,
            12_682_136_550_675_316_736,
        )
        && two_are(alloc, IntOp::Rotr, 44, 44)
}

/// Each operator on binary digits at the least signed number and -1, which counts as n - 1.
fn on_digits_at_edges(alloc: Global) -> bool {
    edges_are(alloc, IntOp::And, LEAST_32, LEAST_64)
        && edges_are(alloc, IntOp::Or, LAST_32, LAST_64)
        && edges_are(alloc, IntOp::Xor, LEAST_32 - 1, LEAST_64 - 1)
        && edges_are(alloc, IntOp::Shl, 0, 0)
        && edges_are(alloc, IntOp::ShrS, LAST_32, LAST_64)
        && edges_are(alloc, IntOp::ShrU, 1, 1)
        && edges_are(alloc, IntOp::Rotl, 1_073_741_824, 4_611_686_018_427_387_904)
        && edges_are(alloc, IntOp::Rotr, 1, 1)
}

/// Each operator of one operand.
fn of_one_operand(alloc: Global) -> bool {
    one_are(alloc, IntOp::Eqz, 0, 0)
        && one_are(alloc, IntOp::Clz, 25, 57)
        && one_are(alloc, IntOp::Ctz, 5, 5)
        && one_are(alloc, IntOp::Popcnt, 2, 2)
        && one_edges(alloc, IntOp::Eqz, (1, 0), (1, 0))
        && one_edges(alloc, IntOp::Clz, (32, 0), (64, 0))
        && one_edges(alloc, IntOp::Ctz, (32, 0), (64, 0))
        && one_edges(alloc, IntOp::Popcnt, (0, 32), (0, 64))
}

#[test]
fn operators_of_two_operands(rt: HostRuntime) -> Result<(), Fail> {
    let alloc = rt.alloc();
    assert!(rt; comparisons(alloc));
    assert!(rt; arithmetic(alloc));
    assert!(rt; arithmetic_at_edges(alloc));
    assert!(rt; on_digits(alloc));
    assert!(rt; on_digits_at_edges(alloc));
    assert!(rt; undefined(alloc, IntOp::DivS));
    assert!(rt; undefined(alloc, IntOp::DivU));
    assert!(rt; undefined(alloc, IntOp::RemS));
    assert!(rt; undefined(alloc, IntOp::RemU));
    Ok(())
}

/// The operators between the widths.
fn between_widths(alloc: Global) -> bool {
    one_is(alloc, NumOp::Wrap, LAST_32 + 1, 0)
        && one_is(alloc, NumOp::Wrap, -1, LAST_32)
        && one_is(alloc, NumOp::ExtendU, -1, LAST_32)
        && one_is(alloc, NumOp::ExtendU, LAST_32 + 1, 0)
        && one_is(alloc, NumOp::ExtendS, LEAST_32 - 1, LEAST_32 - 1)
        && one_is(alloc, NumOp::ExtendS, LEAST_32, 18_446_744_071_562_067_968)
        && one_is(
            alloc,
            NumOp::ExtendS,
            LAST_64 + LAST_32,
            18_446_744_073_709_551_614,
        )
}

/// The lowest bits at each width.
fn lowest_bits(alloc: Global) -> bool {
    low_is(alloc, 8, -1, 255)
        && low_is(alloc, 8, 256, 0)
        && low_is(alloc, 16, -1, 65_535)
        && low_is(alloc, 16, 65_536, 0)
        && low_is(alloc, 32, -1, LAST_32)
        && low_is(alloc, 32, LAST_32 + 1, 0)
}

/// Sign extensions at each pair of widths.
fn extensions(alloc: Global) -> bool {
    sext_is(alloc, 8, 32, 127, 127)
        && sext_is(alloc, 8, 32, 128, 4_294_967_168)
        && sext_is(alloc, 16, 32, 32_767, 32_767)
        && sext_is(alloc, 16, 32, 32_768, 4_294_934_528)
        && sext_is(alloc, 8, 64, 128, 18_446_744_073_709_551_488)
        && sext_is(alloc, 16, 64, 32_768, 18_446_744_073_709_518_848)
        && sext_is(alloc, 32, 64, LEAST_32 - 1, LEAST_32 - 1)
        && sext_is(alloc, 32, 64, LEAST_32, 18_446_744_071_562_067_968)
}

/// Signed readings at both widths.
fn readings(alloc: Global) -> bool {
    sgn_is(alloc, 32, LEAST_32 - 1, LEAST_32 - 1)
        && sgn_is(alloc, 32, LEAST_32, -LEAST_32)
        && sgn_is(alloc, 32, LAST_32, -1)
        && sgn_is(alloc, 64, LEAST_64 - 1, LEAST_64 - 1)
        && sgn_is(alloc, 64, LEAST_64, -LEAST_64)
        && sgn_is(alloc, 64, LAST_64 + 1, 0)
}

#[test]
fn operators_of_one_operand(rt: HostRuntime) -> Result<(), Fail> {
    let alloc = rt.alloc();
    assert!(rt; of_one_operand(alloc));
    assert!(rt; between_widths(alloc));
    assert!(rt; lowest_bits(alloc));
    assert!(rt; extensions(alloc));
    assert!(rt; readings(alloc));
    Ok(())
}
