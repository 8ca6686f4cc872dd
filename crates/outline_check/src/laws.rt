ghost use Rattle.outline_check.specs.Derivations.{DerivationsAreExact, DerivationsAreSound};
ghost use Rattle.outline_check.specs.Runs.{OutlinesKeepTheInvariant};

/// A law: steps derive their goal exactly where no step is bad, and else the first bad step is named.
pub fn derivations_are_exact()
    ensures { DerivationsAreExact }
{}

/// A law: what is derived from facts that are true under some numbers is true under the same numbers.
pub fn derivations_are_sound()
    ensures { DerivationsAreSound }
{}

/// A law: where the outline is verified, the invariant's formulas are true at first and each function keeps them true.
pub fn outlines_keep_the_invariant()
    ensures { OutlinesKeepTheInvariant }
{}
