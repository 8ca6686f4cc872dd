use crate::check::wrong_row;
use std::test::Fail;

/// The logical rules. Each line has hypotheses, a step that is accepted, and one that is refused.
const LOGICAL: &str = "a 1 <= b 1 <= | b 1 <= h1 !hyp | b 1 <= h0 !hyp
a 1 <= | true !true | a a = !true
a 1 <= b 1 <= | a 1 <= b 1 <= and h0 h1 !and | a 1 <= b 1 <= and h1 h0 !and
a 1 <= b 1 <= and | a 1 <= h0 !left | b 1 <= h0 !left
a 1 <= b 1 <= and | b 1 <= h0 !right | a 1 <= h0 !right
a 1 <= | a 1 <= b 1 <= or h0 !orl | b 1 <= a 1 <= or h0 !orl
a 1 <= | b 1 <= a 1 <= or h0 !orr | a 1 <= b 1 <= or h0 !orr
a 1 <= b 1 <= or | b 1 <= a 1 <= or h0 [ b 1 <= a 1 <= or h1 !orr ] [ b 1 <= a 1 <= or h1 !orl ] !cases | b 1 <= a 1 <= or h0 [ b 1 <= a 1 <= or h1 !orr ] !cases
 | a 1 <= a 1 <= imp [ a 1 <= h0 !hyp ] !assume | a 1 <= b 1 <= imp [ a 1 <= h0 !hyp ] !assume
a 1 <= b 1 <= imp a 1 <= | b 1 <= h0 h1 !apply | b 1 <= h1 h0 !apply
a 1 <= | a 1 <= [ false h0 h1 !clash ] !contra | a 1 <= [ a 1 <= h0 !hyp ] !contra
a 1 <= not | a 1 <= not [ false h1 h0 !clash ] !refute | a 1 <= not [ a 1 <= not h0 !hyp ] !refute
a 1 <= a 1 <= not | false h0 h1 !clash | false h1 h0 !clash
false a 1 <= | b 1 <= h0 !explode | b 1 <= h1 !explode";

/// The rules of equality and order. Each line has hypotheses, a step that is accepted, and one that is refused.
const ORDER: &str = " | a b + a b + = !refl | a b + b a + = !refl
a b = a a + 1 <= | b a + 1 <= h0 h1 !rewrite | b a + 1 <= h1 h0 !rewrite
a b = a i32.clz a < | b i32.clz b < h0 h1 !rewrite | b i32.clz c < h0 h1 !rewrite
a b = b 1 <= not | b 1 <= not h0 h1 !rewrite | a 1 <= not h0 h1 !rewrite
 | 2 3 + 5 = !eval | 2 3 + 6 = !eval
 | 0 1329227995784915872903807060280344575 < !eval | 0 1329227995784915872903807060280344576 < !eval
 | -1329227995784915872903807060280344575 0 < !eval | -1329227995784915872903807060280344576 0 < !eval
 | 1329227995784915872903807060280344574 1 + 1 - 1329227995784915872903807060280344574 = !eval | 1329227995784915872903807060280344575 1 + 1 - 1329227995784915872903807060280344575 = !eval
 | -1 i32.popcnt 32 = !eval | pages pages = !eval
 | 7 0 i32.div_u 0 = !eval | own own = !eval
a b <= b c < | a c < h0 h1 #1 #1 !linear | a 1 + c < h0 h1 #1 #1 !linear
a b <= b c < | a c <= h0 h1 #1 #1 !linear | a c < h0 h1 #1 !linear
a b <= b c < | a 2 * b 2 * <= h0 #2 !linear | b a <= h0 #-1 !linear
a b = b c = | c a = h0 h1 #-1 #-1 !linear | c a = h0 h1 #1 #1 !linear
a b = a b <= | a b = h0 #1 !linear | a b = h1 #1 !linear
a b = | a b 1 + <= h0 #1 !linear | a b 1 + = h0 #1 !linear
a 0 < 0 a <= -1 a <= | false h0 h1 #1 #1 !linear | false h0 h2 #1 #1 !linear
 | a b + b a + = !linear | a a < !linear
 | a 79228162514264337593543950335 * b * a 79228162514264337593543950335 * b * = !linear | a 79228162514264337593543950336 * b * a 79228162514264337593543950336 * b * = !linear
 | a 79228162514264337593543950336 i32.add a 79228162514264337593543950336 i32.add = !linear | a 79228162514264337593543950336 + a 79228162514264337593543950336 + = !linear
0 79228162514264337593543950335 = 0 -79228162514264337593543950335 = | 0 79228162514264337593543950335 = h0 h1 h0 #1 #1 #1 !linear | 0 79228162514264337593543950335 = h0 h0 h1 #1 #1 #1 !linear
0 a 39614081257132168796771975168 * = | 0 a 39614081257132168796771975168 * = h0 #1 !linear | 0 a 39614081257132168796771975168 * = h0 h0 #2 #-1 !linear
3 a * 8 <= | a 2 <= h0 !floor | a 3 <= h0 !floor
3 a * -8 <= | a -3 <= h0 !floor | a -2 <= h0 !floor
1 a * 8 <= 0 a * 8 <= | a 8 <= h0 !floor | a 8 <= h1 !floor
8 3 a * <= | 3 a <= h0 !ceil | 2 a <= h0 !ceil
-8 3 a * <= | -2 a <= h0 !ceil | -3 a <= h0 !ceil
8 1 a * <= 8 -1 a * <= | 8 a <= h0 !ceil | -8 a <= h1 !ceil
 | a b < a b = b a < or or !order | a b < a b = a b < or or !order
a b <= not | b a < h0 !notle | a b < h0 !notle
a b < not | b a <= h0 !notlt | b a < h0 !notlt
0 a <= 0 b <= | 0 a b * <= h0 h1 !mulpos | 0 a b * <= h1 h0 !mulpos";

#[test]
fn logical_rules(rt: HostRuntime) -> Result<(), Fail> {
    assert_eq!(rt; wrong_row(rt.alloc(), LOGICAL)?, None);
    Ok(())
}

#[test]
fn rules_of_equality_and_order(rt: HostRuntime) -> Result<(), Fail> {
    assert_eq!(rt; wrong_row(rt.alloc(), ORDER)?, None);
    Ok(())
}
