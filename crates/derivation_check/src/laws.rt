//! Laws over the definitions alone.

ghost use Rattle.std.specs.Prelude.{◌≡◌, List, [], IsTrue};
ghost use Rattle.term_trees.specs.declared.term.Formula.{Formula};
ghost use Rattle.bitvector_rules.specs.declared.step.Step.{Step, out-Step};
ghost use Rattle.bitvector_rules.specs.Goals.{has_shape};
ghost use Rattle.derivation_check.specs.Derivations.{Instance, Derives, Follows};

/// What is derived is true under all numbers under which the hypotheses are.
pub fn derivations_are_sound()
    ensures { (hyps : List Formula) (goal : Formula) (steps : List Step) → Derives hyps goal steps → Follows hyps goal }
{}

/// An instance has the shape that is tested without a look at the steps of its sub-derivations, and a step without
/// sub-derivations that has it is an instance.
pub fn instances_have_their_shape()
    ensures shape { (hyps earlier : List Formula) (s : Step) → Instance hyps earlier s → IsTrue (has_shape hyps earlier s) }
    ensures alone { (hyps earlier : List Formula) (s : Step) → (out-Step s).subs ≡ [] → IsTrue (has_shape hyps earlier s) → Instance hyps earlier s }
{}
