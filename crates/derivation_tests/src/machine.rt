use crate::check::wrong_row;
use std::test::Fail;

/// Ranges and arithmetic. Each line has hypotheses, a step that is accepted, and one that is refused.
const ARITHMETIC: &str =
    " | 0 a b i32.lt_s <= a b i32.lt_s 1 <= and !range | 0 a b i32.lt_s <= a b i32.lt_s 0 <= and !range
 | 0 a b i64.lt_s <= a b i64.lt_s 1 <= and !range | 0 a b i64.lt_s <= a b i64.lt_s 0 <= and !range
 | 0 a i32.eqz <= a i32.eqz 1 <= and !range | 0 a i32.eqz <= a i32.eqz 4294967295 <= and !range
 | 0 a i64.eqz <= a i64.eqz 1 <= and !range | 0 a i64.eqz <= a i64.eqz 18446744073709551615 <= and !range
 | 0 a i32.clz <= a i32.clz 32 <= and !range | 0 a i32.clz <= a i32.clz 31 <= and !range
 | 0 a i64.clz <= a i64.clz 64 <= and !range | 0 a i64.clz <= a i64.clz 32 <= and !range
 | 0 a i32.ctz <= a i32.ctz 32 <= and !range | 0 a i32.ctz <= a i32.ctz 31 <= and !range
 | 0 a i64.ctz <= a i64.ctz 64 <= and !range | 0 a i64.ctz <= a i64.ctz 32 <= and !range
 | 0 a i32.popcnt <= a i32.popcnt 32 <= and !range | 0 a i32.popcnt <= a i32.popcnt 31 <= and !range
 | 0 a i64.popcnt <= a i64.popcnt 64 <= and !range | 0 a i64.popcnt <= a i64.popcnt 63 <= and !range
 | 0 a low8 <= a low8 255 <= and !range | 0 a low8 <= a low8 256 <= and !range
 | 0 a low16 <= a low16 65535 <= and !range | 0 a low16 <= a low16 65536 <= and !range
 | 0 a low32 <= a low32 4294967295 <= and !range | 0 a low32 <= a low32 18446744073709551615 <= and !range
 | 0 a sext8_32 <= a sext8_32 4294967295 <= and !range | 0 a sext8_32 <= a sext8_32 255 <= and !range
 | 0 a sext16_32 <= a sext16_32 4294967295 <= and !range | 0 a sext16_32 <= a sext16_32 65535 <= and !range
 | 0 a sext8_64 <= a sext8_64 18446744073709551615 <= and !range | 0 a sext8_64 <= a sext8_64 4294967295 <= and !range
 | 0 a sext16_64 <= a sext16_64 18446744073709551615 <= and !range | 0 a sext16_64 <= a sext16_64 65535 <= and !range
 | 0 a sext32_64 <= a sext32_64 18446744073709551615 <= and !range | 0 a sext32_64 <= a sext32_64 4294967295 <= and !range
 | 0 a b i32.add <= a b i32.add 4294967295 <= and !range | 0 a b i32.add <= a b i32.add 4294967294 <= and !range
 | 0 a b i64.xor <= a b i64.xor 18446744073709551615 <= and !range | 0 a b i64.xor <= a b i64.xor 4294967295 <= and !range
 | 0 a i32.wrap_i64 <= a i32.wrap_i64 4294967295 <= and !range | 0 a i32.wrap_i64 <= a i32.wrap_i64 18446744073709551615 <= and !range
 | 0 a i64.extend_i32_u <= a i64.extend_i32_u 18446744073709551615 <= and !range | 0 a i64.extend_i32_u <= a i64.extend_i32_u 4294967295 <= and !range
 | 0 a i64.extend_i32_s <= a i64.extend_i32_s 18446744073709551615 <= and !range | 0 a sgn32 <= a sgn32 4294967295 <= and !range
 | 0 a b i32.shr_s <= a b i32.shr_s 4294967295 <= and !range | 0 a b + <= a b + 4294967295 <= and !range
0 a <= 0 b <= a b + 4294967295 <= a b + 4294967296 <= | a b i32.add a b + = h0 h1 h2 !add | a b i32.add a b + = h0 h1 h3 !add
0 a <= 0 b <= a b + 18446744073709551615 <= a b + 18446744073709551616 <= | a b i64.add a b + = h0 h1 h2 !add | a b i64.add a b + = h0 h1 h3 !add
0 a <= 0 b <= a b + 4294967295 <= | a b i32.add a b + = h0 h1 h2 !add | a b i32.add a b + = h0 h1 !add
a 4294967295 <= b 4294967295 <= 4294967296 a b + <= | a b i32.add a b + 4294967296 - = h0 h1 h2 !addwrap | a b i32.add a b + 4294967295 - = h0 h1 h2 !addwrap
a 18446744073709551615 <= b 18446744073709551615 <= 18446744073709551616 a b + <= | a b i64.add a b + 18446744073709551616 - = h0 h1 h2 !addwrap | a b i64.add a b + 18446744073709551615 - = h0 h1 h2 !addwrap
0 b <= b a <= a 4294967295 <= | a b i32.sub a b - = h0 h1 h2 !sub | b a i32.sub b a - = h0 h1 h2 !sub
0 b <= b a <= a 18446744073709551615 <= | a b i64.sub a b - = h0 h1 h2 !sub | b a i64.sub b a - = h0 h1 h2 !sub
0 a <= a b < b 4294967295 <= a b <= | a b i32.sub a b - 4294967296 + = h0 h1 h2 !subwrap | a b i32.sub a b - 4294967296 + = h0 h3 h2 !subwrap
0 a <= a b < b 18446744073709551615 <= a b <= | a b i64.sub a b - 18446744073709551616 + = h0 h1 h2 !subwrap | a b i64.sub a b - 18446744073709551616 + = h0 h3 h2 !subwrap
0 a <= 0 b <= a b * 4294967295 <= a b * 4294967296 <= | a b i32.mul a b * = h0 h1 h2 !mul | a b i32.mul a b * = h0 h1 h3 !mul
0 a <= 0 b <= a b * 18446744073709551615 <= a b * 18446744073709551616 <= | a b i64.mul a b * = h0 h1 h2 !mul | a b i64.mul a b * = h0 h1 h3 !mul
0 a <= a 4294967295 <= 1 b <= b 4294967295 <= 0 b <= | a b a b i32.div_u * a b i32.rem_u + = 0 a b i32.rem_u <= a b i32.rem_u b < and and h0 h1 h2 h3 !divu | a b a b i32.div_u * a b i32.rem_u + = 0 a b i32.rem_u <= a b i32.rem_u b < and and h0 h1 h4 h3 !divu
0 a <= a 18446744073709551615 <= 1 b <= b 18446744073709551615 <= 0 b <= | a b a b i64.div_u * a b i64.rem_u + = 0 a b i64.rem_u <= a b i64.rem_u b < and and h0 h1 h2 h3 !divu | a b a b i64.div_u * a b i64.rem_u + = 0 a b i64.rem_u <= a b i64.rem_u b < and and h0 h1 h4 h3 !divu
0 a <= a 2147483647 <= 1 b <= b 2147483647 <= b 2147483648 <= | a b i32.div_s a b i32.div_u = a b i32.rem_s a b i32.rem_u = and h0 h1 h2 h3 !divs | a b i32.div_s a b i32.div_u = a b i32.rem_s a b i32.rem_u = and h0 h1 h2 h4 !divs
0 a <= a 9223372036854775807 <= 1 b <= b 9223372036854775807 <= b 9223372036854775808 <= | a b i64.div_s a b i64.div_u = a b i64.rem_s a b i64.rem_u = and h0 h1 h2 h3 !divs | a b i64.div_s a b i64.div_u = a b i64.rem_s a b i64.rem_u = and h0 h1 h2 h4 !divs";

/// Comparisons, digits and changes of width. Each line has hypotheses, a step that is accepted, and one that is refused.
const DIGITS: &str =
    "0 a <= a 4294967295 <= 0 b <= b 4294967295 <= | a b i32.eq 1 = a b = and a b i32.eq 0 = a b = not and or h0 h1 h2 h3 !test | a b i32.eq 1 = b a = and a b i32.eq 0 = b a = not and or h0 h1 h2 h3 !test
0 a <= a 18446744073709551615 <= 0 b <= b 18446744073709551615 <= | a b i64.eq 1 = a b = and a b i64.eq 0 = a b = not and or h0 h1 h2 h3 !test | a b i64.eq 1 = b a = and a b i64.eq 0 = b a = not and or h0 h1 h2 h3 !test
0 a <= a 4294967295 <= 0 b <= b 4294967295 <= | a b i32.ne 1 = a b = not and a b i32.ne 0 = a b = not not and or h0 h1 h2 h3 !test | a b i32.ne 1 = a b = and a b i32.ne 0 = a b = not and or h0 h1 h2 h3 !test
0 a <= a 18446744073709551615 <= 0 b <= b 18446744073709551615 <= | a b i64.ne 1 = a b = not and a b i64.ne 0 = a b = not not and or h0 h1 h2 h3 !test | a b i64.ne 1 = a b = and a b i64.ne 0 = a b = not and or h0 h1 h2 h3 !test
0 a <= a 4294967295 <= 0 b <= b 4294967295 <= | a b i32.lt_u 1 = a b < and a b i32.lt_u 0 = a b < not and or h0 h1 h2 h3 !test | a b i32.lt_u 1 = a b <= and a b i32.lt_u 0 = a b <= not and or h0 h1 h2 h3 !test
0 a <= a 18446744073709551615 <= 0 b <= b 18446744073709551615 <= | a b i64.lt_u 1 = a b < and a b i64.lt_u 0 = a b < not and or h0 h1 h2 h3 !test | a b i64.lt_u 1 = a b <= and a b i64.lt_u 0 = a b <= not and or h0 h1 h2 h3 !test
0 a <= a 4294967295 <= 0 b <= b 4294967295 <= | a b i32.gt_u 1 = b a < and a b i32.gt_u 0 = b a < not and or h0 h1 h2 h3 !test | a b i32.gt_u 1 = a b < and a b i32.gt_u 0 = a b < not and or h0 h1 h2 h3 !test
0 a <= a 18446744073709551615 <= 0 b <= b 18446744073709551615 <= | a b i64.gt_u 1 = b a < and a b i64.gt_u 0 = b a < not and or h0 h1 h2 h3 !test | a b i64.gt_u 1 = a b < and a b i64.gt_u 0 = a b < not and or h0 h1 h2 h3 !test
0 a <= a 4294967295 <= 0 b <= b 4294967295 <= | a b i32.le_u 1 = a b <= and a b i32.le_u 0 = a b <= not and or h0 h1 h2 h3 !test | a b i32.le_u 1 = a b < and a b i32.le_u 0 = a b < not and or h0 h1 h2 h3 !test
0 a <= a 18446744073709551615 <= 0 b <= b 18446744073709551615 <= | a b i64.le_u 1 = a b <= and a b i64.le_u 0 = a b <= not and or h0 h1 h2 h3 !test | a b i64.le_u 1 = a b < and a b i64.le_u 0 = a b < not and or h0 h1 h2 h3 !test
0 a <= a 4294967295 <= 0 b <= b 4294967295 <= | a b i32.ge_u 1 = b a <= and a b i32.ge_u 0 = b a <= not and or h0 h1 h2 h3 !test | a b i32.ge_u 1 = a b <= and a b i32.ge_u 0 = a b <= not and or h0 h1 h2 h3 !test
0 a <= a 18446744073709551615 <= 0 b <= b 18446744073709551615 <= | a b i64.ge_u 1 = b a <= and a b i64.ge_u 0 = b a <= not and or h0 h1 h2 h3 !test | a b i64.ge_u 1 = a b <= and a b i64.ge_u 0 = a b <= not and or h0 h1 h2 h3 !test
0 a <= a 4294967295 <= | a i32.eqz 1 = a 0 = and a i32.eqz 0 = a 0 = not and or h0 h1 !test | a i32.eqz 1 = a 0 = and a i32.eqz 0 = a 0 = not and or h0 h1 h0 h1 !test
0 a <= a 18446744073709551615 <= | a i64.eqz 1 = a 0 = and a i64.eqz 0 = a 0 = not and or h0 h1 !test | a i64.eqz 1 = a 0 = and a i64.eqz 0 = a 0 = not and or h0 h1 h0 h1 !test
0 a <= a 4294967295 <= 0 b <= b 4294967295 <= | a b i32.lt_u 1 = a b < and a b i32.lt_u 0 = a b < not and or h0 h1 h2 h3 !test | a b i32.lt_s 1 = a b < and a b i32.lt_s 0 = a b < not and or h0 h1 h2 h3 !test
 | a b i32.lt_s 1 = a sgn32 b sgn32 < and a b i32.lt_s 0 = a sgn32 b sgn32 < not and or !tests | a b i32.lt_s 1 = a b < and a b i32.lt_s 0 = a b < not and or !tests
 | a b i64.gt_s 1 = b sgn64 a sgn64 < and a b i64.gt_s 0 = b sgn64 a sgn64 < not and or !tests | a b i64.gt_s 1 = a sgn64 b sgn64 < and a b i64.gt_s 0 = a sgn64 b sgn64 < not and or !tests
 | a b i32.gt_s 1 = b sgn32 a sgn32 < and a b i32.gt_s 0 = b sgn32 a sgn32 < not and or !tests | a b i32.gt_s 1 = a sgn32 b sgn32 < and a b i32.gt_s 0 = a sgn32 b sgn32 < not and or !tests
 | a b i32.le_s 1 = a sgn32 b sgn32 <= and a b i32.le_s 0 = a sgn32 b sgn32 <= not and or !tests | a b i32.le_s 1 = a sgn32 b sgn32 < and a b i32.le_s 0 = a sgn32 b sgn32 < not and or !tests
 | a b i64.le_s 1 = a sgn64 b sgn64 <= and a b i64.le_s 0 = a sgn64 b sgn64 <= not and or !tests | a b i64.le_s 1 = a sgn64 b sgn64 < and a b i64.le_s 0 = a sgn64 b sgn64 < not and or !tests
 | a b i64.ge_s 1 = b sgn64 a sgn64 <= and a b i64.ge_s 0 = b sgn64 a sgn64 <= not and or !tests | a b i64.ge_s 1 = a sgn64 b sgn64 <= and a b i64.ge_s 0 = a sgn64 b sgn64 <= not and or !tests
 | a b i32.ge_s 1 = b sgn32 a sgn32 <= and a b i32.ge_s 0 = b sgn32 a sgn32 <= not and or !tests | a b i32.ge_s 1 = a sgn32 b sgn32 <= and a b i32.ge_s 0 = a sgn32 b sgn32 <= not and or !tests
 | a b i64.lt_s 1 = a sgn64 b sgn64 < and a b i64.lt_s 0 = a sgn64 b sgn64 < not and or !tests | a b i64.lt_s 1 = a sgn32 b sgn32 < and a b i64.lt_s 0 = a sgn32 b sgn32 < not and or !tests
0 a <= a 4294967295 <= | a 2147483647 <= a sgn32 a = and 2147483648 a <= a sgn32 a 4294967296 - = and or h0 h1 !sgn | a 2147483647 <= a sgn32 a = and h0 h1 !sgn
0 a <= a 18446744073709551615 <= | a 9223372036854775807 <= a sgn64 a = and 9223372036854775808 a <= a sgn64 a 18446744073709551616 - = and or h0 h1 !sgn | a 9223372036854775807 <= a sgn64 a = and 9223372036854775808 a <= a sgn64 a = and or h0 h1 !sgn
 | a 33 i32.shl a 2 i32.mul = !shift | a 33 i32.shl a 8589934592 i32.mul = !shift
 | a 33 i64.shl a 8589934592 i64.mul = !shift | a 33 i64.shl a 2 i64.mul = !shift
 | a 4 i32.shr_u a 16 i32.div_u = !shift | a 4 i32.shr_s a 16 i32.div_u = !shift
 | a 18446744073709551615 i64.shr_u a 9223372036854775808 i64.div_u = !shift | a 18446744073709551616 i64.shr_u a 1 i64.div_u = !shift
 | a 4294967295 i32.shl a 2147483648 i32.mul = !shift | a 4294967296 i32.shl a 1 i32.mul = !shift
 | a 0 i32.shl a 1 i32.mul = !shift | a -31 i32.shl a 2 i32.mul = !shift
 | a 1 i32.and a 2 i32.rem_u = !mask | a 0 i32.and a 1 i32.rem_u = !mask
 | a 2147483647 i32.and a 2147483648 i32.rem_u = !mask | a 4294967295 i32.and a 4294967296 i32.rem_u = !mask
 | a 9223372036854775807 i64.and a 9223372036854775808 i64.rem_u = !mask | a 18446744073709551615 i64.and a 18446744073709551616 i64.rem_u = !mask
 | a 15 i64.and a 16 i64.rem_u = !mask | a 14 i64.and a 15 i64.rem_u = !mask
 | a i32.wrap_i64 a low32 = !widen | a i32.wrap_i64 a low16 = !widen
 | a i64.extend_i32_u a low32 = !widen | a i64.extend_i32_u a sext32_64 = !widen
 | a i64.extend_i32_s a sext32_64 = !widen | a i64.extend_i32_s a low32 = !widen
0 a <= a 255 <= a 256 <= | a low8 a = h0 h1 !widen | a low8 a = h0 h2 !widen
0 a <= a 65535 <= a 65536 <= | a low16 a = h0 h1 !widen | a low16 a = h0 h2 !widen
0 a <= a 4294967295 <= a 4294967296 <= | a low32 a = h0 h1 !widen | a low32 a = h0 h2 !widen
0 a <= a 255 <= | a 127 <= a sext8_32 a = and 128 a <= a sext8_32 a 4294967040 + = and or h0 h1 !widen | a 127 <= a sext8_32 a = and 128 a <= a sext8_32 a 4294967168 + = and or h0 h1 !widen
0 a <= a 65535 <= | a 32767 <= a sext16_32 a = and 32768 a <= a sext16_32 a 4294901760 + = and or h0 h1 !widen | a 32767 <= a sext16_32 a = and 32768 a <= a sext16_32 a 4294934528 + = and or h0 h1 !widen
0 a <= a 255 <= | a 127 <= a sext8_64 a = and 128 a <= a sext8_64 a 18446744073709551360 + = and or h0 h1 !widen | a 127 <= a sext8_64 a = and 128 a <= a sext8_64 a 18446744073709551488 + = and or h0 h1 !widen
0 a <= a 65535 <= | a 32767 <= a sext16_64 a = and 32768 a <= a sext16_64 a 18446744073709486080 + = and or h0 h1 !widen | a 32767 <= a sext16_64 a = and 32768 a <= a sext16_64 a 18446744073709518848 + = and or h0 h1 !widen
0 a <= a 4294967295 <= | a 2147483647 <= a sext32_64 a = and 2147483648 a <= a sext32_64 a 18446744069414584320 + = and or h0 h1 !widen | a 2147483647 <= a sext32_64 a = and 2147483648 a <= a sext32_64 a 18446744071562067968 + = and or h0 h1 !widen";

#[test]
fn ranges_and_arithmetic(rt: HostRuntime) -> Result<(), Fail> {
    assert_eq!(rt; wrong_row(rt.alloc(), ARITHMETIC)?, None);
    Ok(())
}

#[test]
fn comparisons_digits_and_widths(rt: HostRuntime) -> Result<(), Fail> {
    assert_eq!(rt; wrong_row(rt.alloc(), DIGITS)?, None);
    Ok(())
}
