ghost use Rattle.std.specs.Prelude.{◌≡◌, ◌<◌, length, map, option_map, IfSome};
ghost use Rattle.std.specs.List.{All};
ghost use Rattle.term_trees.specs.declared.term.Place.{Place};
ghost use Rattle.term_logic.specs.Table.{tree_at};
ghost use Rattle.term_logic.specs.Leaves.{place_id, leaves_of, LeavesWithin};
ghost use Rattle.heap_logic.specs.Heaps.{AreSlots};
ghost use Rattle.outline_rules.specs.Leaves.{state_place};
ghost use Rattle.outline_rules.specs.Entailment.{assertion_leaves};
ghost use Rattle.symbolic_state.specs.declared.state.SymState.{SymState};
ghost use Rattle.symbolic_state.specs.words.Entries.{AreSlotsOf, AreLeavesOf};

use crate::state::SymState;
use crate::tracked::TrackedState;
use term_logic::{LeafIds, Place, TermId};
use wasm_values::{List, ValType};

/// These slots as leaves.
pub(crate) fn slots_from<'a>(
    locals: &'a List<(ValType, TermId)>,
    stack: &'a List<(ValType, TermId)>,
    globals: &'a List<Option<TermId>>,
    pages: Option<TermId>,
    args: &'a List<TermId>,
) -> LeafIds<'a>
    ensures { (s : SymState) → s.locals ≡ locals.entry.now → s.stack ≡ stack.entry.now → s.globals ≡ globals.entry.now → s.pages ≡ pages → s.args ≡ args.entry.now → AreSlotsOf s result }
{
    LeafIds::none()
        .with_locals(locals.as_slice())
        .with_stack(stack.as_slice())
        .with_globals(globals.as_slice())
        .with_pages(pages)
        .with_args(args.as_slice())
}

/// The slots of a state as leaves.
pub(crate) fn slots_of(state: &SymState) -> LeafIds<'_>
    ensures { AreSlotsOf state.now result }
{
    LeafIds::none()
        .with_locals(state.locals.as_slice())
        .with_stack(state.stack.as_slice())
        .with_globals(state.globals.as_slice())
        .with_pages(state.pages)
        .with_args(state.args.as_slice())
}

/// The leaves of an assertion over a state: its slots, and terms for own variables, for `(arg i)` and for `(result)`.
pub(crate) fn leaves_over<'a>(
    state: &'a SymState,
    own: &'a [TermId],
    args: &'a [TermId],
    answer: Option<TermId>,
) -> LeafIds<'a>
    ensures { AreLeavesOf state.now own.now args.now answer result }
{
    LeafIds::none()
        .with_own(own)
        .with_locals(state.locals.as_slice())
        .with_stack(state.stack.as_slice())
        .with_globals(state.globals.as_slice())
        .with_pages(state.pages)
        .with_args(args)
        .with_result(answer)
}

impl TrackedState {
    /// The places that have a term, with their terms.
    #[tactic(auto, using(crate::proofs::Placed::placed))]
    pub fn slots(&self) -> LeafIds<'_>
        ensures places { (p : Place) → option_map (tree_at self.now.terms) (place_id result p) ≡ state_place self.now.state p }
        ensures slots { AreSlots result }
        ensures within { LeavesWithin (length self.now.terms) result }
    {
        slots_of(&self.state)
    }

    /// The term that a place stands for, if there is one.
    pub fn term_at(&self, place: Place) -> Option<TermId>
        ensures term { option_map (tree_at self.now.terms) result ≡ state_place self.now.state place }
        ensures within { IfSome result (λ id. id < length self.now.terms) }
    {
        self.slots().place(place)
    }

    /// The leaves of an assertion over the state, whose own variables, `(arg i)` and `(result)` have these terms.
    #[tactic(auto, using(crate::proofs::AssertionLeaves::over))]
    pub fn assertion_slots<'a>(
        &'a self,
        own: &'a [TermId],
        args: &'a [TermId],
        answer: Option<TermId>,
    ) -> LeafIds<'a>
        requires own { All (λ id. id < length self.now.terms) own.now }
        requires args { All (λ id. id < length self.now.terms) args.now }
        requires answer { IfSome answer (λ id. id < length self.now.terms) }
        ensures trees { leaves_of self.now.terms result ≡ assertion_leaves self.now.state (map (tree_at self.now.terms) own.now) (map (tree_at self.now.terms) args.now) (option_map (tree_at self.now.terms) answer) }
        ensures within { LeavesWithin (length self.now.terms) result }
    {
        leaves_over(&self.state, own, args, answer)
    }
}
