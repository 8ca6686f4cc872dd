// A state entails an assertion, with terms for its arguments, its result and its own variables.

ghost use Rattle.std.specs.Prelude.{◌≡◌, ◌<◌, length, map, IfOk, IfSome, IsTrue};
ghost use Rattle.std.specs.List.{All};
ghost use Rattle.std.specs.Option.{option_map};
ghost use Rattle.wasm_values.specs.Answers.{Gives};
ghost use Rattle.term_logic.specs.Table.{tree_at};
ghost use Rattle.notes.specs.WellFormed.{well_formed_with};
ghost use Rattle.symbolic_state.specs.Refused.{refusal_of};
ghost use Rattle.symbolic_state.specs.Growth.{Grown};
ghost use Rattle.symbolic_branches.specs.words.Parts.{entails_with};

use notes::{Assertion, With};
use std::alloc::Global;
use symbolic_assertions::{Wanted, entails};
use symbolic_state::{Refused, TrackedState};
use term_logic::TermId;

/// The state entails an assertion, with these terms for its arguments, its result and its first own variables.
pub(crate) fn entails_with(
    alloc: Global,
    state: &mut TrackedState,
    assertion: &Assertion,
    args: &[TermId],
    passed_on: Option<TermId>,
    fixed: &[TermId],
    with: &With,
) -> Result<(), Refused>
    requires args { All (λ id. id < length state.old.terms) args.now }
    requires passed_on { IfSome passed_on (λ id. id < length state.old.terms) }
    requires fixed { All (λ id. id < length state.old.terms) fixed.now }
    requires with { IsTrue (well_formed_with with.now) }
    ensures done { Gives refusal_of (λ _. tt) result (entails_with assertion.now (map (tree_at state.old.terms) args.now) (option_map (tree_at state.old.terms) passed_on) (map (tree_at state.old.terms) fixed.now) with.now state.old.state) }
    ensures state { IfOk result (λ _. state.new.state ≡ state.old.state) }
    ensures kept { IfOk result (λ _. Grown state.old state.new) }
{
    let wanted = Wanted {
        assertion,
        args,
        result: passed_on,
        fixed,
    };
    entails(alloc, state, &wanted, with)
}
