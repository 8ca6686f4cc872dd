// All moves.

ghost use Rattle.std.specs.Prelude.{◌≡◌, IfOk, IsTrue};
ghost use Rattle.std.specs.List.{list_all};
ghost use Rattle.wasm_values.specs.Answers.{Gives};
ghost use Rattle.notes.specs.WellFormed.{well_formed_notes, well_formed_move};
ghost use Rattle.outline_rules.specs.Moves.{move_made, moved};
ghost use Rattle.symbolic_state.specs.Refused.{refusal_of};
ghost use Rattle.symbolic_state.specs.Growth.{Grown};

use crate::derivations::have;
use crate::lemmas::lemma;
use crate::rows::each;
use crate::slots::{let_term, name, put};
use notes::Move;
use outline_setting::Setting;
use std::alloc::Global;
use symbolic_state::{Refused, TrackedState};

/// A move is made.
pub fn make_move(
    alloc: Global,
    state: &mut TrackedState,
    setting: &Setting<'_>,
    m: &Move,
) -> Result<(), Refused>
    requires notes { IsTrue (well_formed_notes setting.now.notes) }
    requires well_formed { IsTrue (well_formed_move m.now) }
    ensures done { Gives refusal_of (λ _. state.new.state) result (move_made setting.now m.now state.old.state) }
    ensures kept { IfOk result (λ _. Grown state.old state.new) }
{
    match m {
        Move::Have(f, steps) => have(alloc, state, f, steps),
        Move::Name(place) => name(setting, state, *place),
        Move::Let(t) => let_term(state, t),
        Move::Put(place, t, fact) => put(setting, state, *place, t, *fact),
        Move::Heap(m) => state.apply_heap_move(m),
        Move::Each(c, f, steps) => each(alloc, state, *c, f, steps),
        Move::Lemma(named, terms, facts) => lemma(
            setting,
            state,
            named.as_str(),
            terms.as_slice(),
            facts.as_slice(),
        ),
    }
}

/// Moves are made in their order.
#[tactic(auto, using(crate::proofs::Moving::moving))]
pub fn make_moves(
    alloc: Global,
    state: &mut TrackedState,
    setting: &Setting<'_>,
    moves: &[Move],
) -> Result<(), Refused>
    requires notes { IsTrue (well_formed_notes setting.now.notes) }
    requires moves { IsTrue (list_all well_formed_move moves.now) }
    ensures done { Gives refusal_of (λ _. state.new.state) result (moved setting.now moves.now state.old.state) }
    ensures kept { IfOk result (λ _. Grown state.old state.new) }
{
    for m in moves {
        make_move(alloc, state, setting, m)?;
    }
    Ok(())
}
