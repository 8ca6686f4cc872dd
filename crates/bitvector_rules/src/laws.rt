//! Laws over the definitions alone.

ghost use Rattle.bitvector_rules.specs.declared.step.Step.{Step};
ghost use Rattle.bitvector_rules.specs.Truth.{StepIsSound};

/// A step whose premises are true and whose sub-derivations keep truth draws a true conclusion, under all numbers that
/// make it so. Facts that it doesn't refer to may be false.
pub fn rules_are_sound()
    ensures { (s : Step) → StepIsSound s }
{}
