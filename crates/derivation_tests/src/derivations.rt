use crate::check::{checked, checked_copies, fits_after, wrong_answer, wrong_step};
use derivation_check::Checked;
use std::test::Fail;

/// The numbers of `linear` are below 2 to the 96th.
#[test]
fn coefficient_bound(rt: HostRuntime) -> Result<(), Fail> {
    let alloc = rt.alloc();
    let past = "0 0 = h0 #79228162514264337593543950336 !linear";
    assert_eq!(rt;
        checked(alloc, "0 0 =", "0 0 =", past)?,
        Checked::BadStep(0)
    );
    let last = "0 0 = h0 #79228162514264337593543950335 !linear";
    assert_eq!(rt; checked(alloc, "0 0 =", "0 0 =", last)?, Checked::Yes);
    Ok(())
}

/// Steps from `a <= 1` and `b <= 1` that have too much or too little.
const MISSHAPEN: &str = "b 1 <= !hyp
b 1 <= h1 h1 !hyp
b 1 <= h2 !hyp
b 1 <= s0 !hyp
b 1 <= h1 #1 !hyp
b 1 <= h1 [ ] !hyp
b 1 <= h1 [ b 1 <= h1 !hyp ] !hyp
true h0 !true
a a = #0 !refl
a a = [ true !true ] !refl
0 1 <= h0 !eval
b 1 <= h1 !linear
b 1 <= h1 #1 #0 !linear
b 1 <= h1 h2 #1 #0 !linear
b 1 <= h1 #1 [ true !true ] !linear
a 1 <= a 1 <= imp h0 [ a 1 <= h0 !hyp ] !assume
a 1 <= a 1 <= imp [ a 1 <= h0 !hyp ] [ a 1 <= h0 !hyp ] !assume
a 1 <= a 1 <= imp [ ] !assume
a 1 <= a 1 <= imp !assume";

#[test]
fn a_step_has_what_its_rule_wants_and_no_more(rt: HostRuntime) -> Result<(), Fail> {
    let refused = (false, Checked::BadStep(0));
    assert_eq!(rt;
        wrong_step(rt.alloc(), "a 1 <= b 1 <=", MISSHAPEN, refused)?,
        None
    );
    Ok(())
}

/// Steps that have to derive `a <= 1` from `a <= 1` and `b <= 1`, each behind the answer.
const BAD_STEPS: &str = "yes|b 1 <= h1 !hyp a 1 <= h0 !hyp
yes|a 1 <= h0 !hyp a 1 <= s0 !hyp
2|a 1 <= h0 !hyp b 1 <= h1 !hyp
0|
1|a 1 <= h0 !hyp a 1 <= h1 !hyp a 1 <= h2 !hyp
0|a 1 <= s0 !hyp
0|a 1 <= s1 !hyp a 1 <= h0 !hyp";

#[test]
fn the_first_bad_step_is_told(rt: HostRuntime) -> Result<(), Fail> {
    assert_eq!(rt;
        wrong_answer(rt.alloc(), "a 1 <= b 1 <=", "a 1 <=", BAD_STEPS)?,
        None
    );
    Ok(())
}

/// The hypotheses of a sub-derivation are those around it, the conclusions before it, and its assumption: in the first
/// lines `a <= 1`, the disjunction and `b <= 1`. The answer stands before the steps.
const SEEN: &str =
    "yes|a 1 <= b 1 <= or h0 !orl b 1 <= a 1 <= b 1 <= and imp [ a 1 <= h0 !hyp a 1 <= b 1 <= and s0 h2 !and ] !assume
yes|a 1 <= b 1 <= or h0 !orl b 1 <= a 1 <= b 1 <= and imp [ a 1 <= b 1 <= or h1 !hyp a 1 <= b 1 <= and h0 h2 !and ] !assume
1|a 1 <= b 1 <= or h0 !orl b 1 <= a 1 <= b 1 <= and imp [ a 1 <= b 1 <= and h0 h1 !and ] !assume
1|a 1 <= b 1 <= or h0 !orl b 1 <= a 1 <= b 1 <= and imp [ a 1 <= b 1 <= or s0 !hyp a 1 <= b 1 <= and h0 h2 !and ] !assume
1|a 1 <= b 1 <= or h0 !orl b 1 <= a 1 <= b 1 <= and imp [ a 1 <= b 1 <= and h3 !hyp a 1 <= b 1 <= and h0 h2 !and ] !assume
1|b 1 <= a 1 <= b 1 <= and imp [ a 1 <= b 1 <= and h0 h1 !and ] !assume b 1 <= h1 !hyp
1|b 1 <= a 1 <= b 1 <= and imp [ a 1 <= b 1 <= and h0 h1 !and ] !assume a 1 <= b 1 <= and s1 !hyp";

#[test]
fn what_a_sub_derivation_sees(rt: HostRuntime) -> Result<(), Fail> {
    let goal = "b 1 <= a 1 <= b 1 <= and imp";
    assert_eq!(rt; wrong_answer(rt.alloc(), "a 1 <=", goal, SEEN)?, None);
    Ok(())
}

/// Steps from `(or (<= a 1) (<= b 1))` whose sub-derivations end as they have to, and are bad.
const BAD_WITHIN: &str =
    "b 1 <= a 1 <= or h0 [ b 1 <= a 1 <= or h1 !orr ] [ b 1 <= a 1 <= or h1 !orr ] !cases
b 1 <= a 1 <= or h0 [ b 1 <= a 1 <= or h1 !orl ] [ b 1 <= a 1 <= or h1 !orl ] !cases
a 1 <= b 1 <= imp [ b 1 <= h1 !hyp ] !assume
a 1 <= [ false h1 h0 !clash ] !contra
a 1 <= not [ false h0 !explode ] !refute";

#[test]
fn sub_derivations_are_checked(rt: HostRuntime) -> Result<(), Fail> {
    let bad = (true, Checked::BadStep(0));
    assert_eq!(rt;
        wrong_step(rt.alloc(), "a 1 <= b 1 <= or", BAD_WITHIN, bad)?,
        None
    );
    Ok(())
}

#[test]
fn earlier_conclusions_are_no_hypotheses(rt: HostRuntime) -> Result<(), Fail> {
    let alloc = rt.alloc();
    assert!(rt; fits_after(alloc, "a 1 <= b 1 <=", "b 1 <= s1 !hyp")?);
    assert!(rt; !fits_after(alloc, "a 1 <= b 1 <=", "b 1 <= h1 !hyp")?);
    Ok(())
}

/// The step has references, numbers and a sub-derivation.
#[test]
fn a_copy_is_what_was_copied(rt: HostRuntime) -> Result<(), Fail> {
    let alloc = rt.alloc();
    let hyps = "a b <= b c <";
    let goal = "true a c < imp";
    let steps = "true a c < imp [ a c < h0 h1 #1 #1 !linear ] !assume";
    assert_eq!(rt; checked_copies(alloc, hyps, goal, steps)?, Checked::Yes);
    Ok(())
}
