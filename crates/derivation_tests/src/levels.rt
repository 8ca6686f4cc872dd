use crate::check::checked;
use derivation_check::Checked;
use std::alloc::Global;
use std::test::Fail;

/// What the check answers of 50 sub-derivations, each inside the one before, of `false` from `false`. The innermost has one
/// step by `hyp`.
fn nested(alloc: Global, innermost: &str) -> Result<Checked, Fail> {
    let mut text = "false [ ".repeat(alloc, 50)?;
    text.push_str(innermost)?;
    let ends = " ] !contra".repeat(alloc, 50)?;
    text.push_str(ends.as_str())?;
    checked(alloc, "false", "false", text.as_str())
}

/// Of the hypotheses that the innermost step may name the first is `false`, and each assumption denies it.
#[test]
fn a_sub_derivation_at_level_50(rt: HostRuntime) -> Result<(), Fail> {
    let alloc = rt.alloc();
    assert_eq!(rt; nested(alloc, "false h0 !hyp")?, Checked::Yes);
    assert_eq!(rt;
        nested(alloc, "false not h50 !hyp false h0 !hyp")?,
        Checked::Yes
    );
    assert_eq!(rt; nested(alloc, "false h50 !hyp")?, Checked::BadStep(0));
    assert_eq!(rt;
        nested(alloc, "false not h51 !hyp false h0 !hyp")?,
        Checked::BadStep(0)
    );
    Ok(())
}

/// What the check answers of 1,000 steps from 4,096 facts.
fn many(alloc: Global, goal: &str) -> Result<Checked, Fail> {
    let facts = "a b + c 7 * <= a b i32.add c i64.mul 9 < ".repeat(alloc, 2048)?;
    let steps = "a b + a + b + c 14 * 3 + <= h2046 h4094 #1 #1 !linear ".repeat(alloc, 1000)?;
    checked(alloc, facts.as_str(), goal, steps.as_str())
}

/// A step takes no longer where there are many facts.
#[test]
fn a_thousand_steps_over_4096_facts(rt: HostRuntime) -> Result<(), Fail> {
    let alloc = rt.alloc();
    assert_eq!(rt; many(alloc, "a b + a + b + c 14 * 3 + <=")?, Checked::Yes);
    assert_eq!(rt; many(alloc, "a b + c 7 * <=")?, Checked::BadStep(1000));
    Ok(())
}
