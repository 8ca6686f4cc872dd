ghost use Rattle.std.specs.Prelude.{◌≡◌};
ghost use Rattle.heap_logic.specs.Faults as move_fault;
ghost use Rattle.symbolic_state.specs.Refused.{refusal_of};
ghost use Rattle.symbolic_state.specs.declared.refused.Refused.TheVariants as refused;

use heap_logic::MoveFault;
use notes::Reason;
use term_trees::Formula;
use wasm_values::{LimitWord, List, OutOfMemory};

/// Why a state isn't gone on from.
#[derive(Drop)]
pub enum Refused {
    Reason(Reason),
    Limit(LimitWord),
    /// A derivation without steps: the facts that there are, and what is to be derived.
    Hole { facts: List<Formula>, goal: Formula },
    OutOfMemory,
}

impl From<OutOfMemory> for Refused {
    ghost from_gives = { λ _ e. e ≡ refused.OutOfMemory };

    fn from(_error: OutOfMemory) -> Refused {
        Refused::OutOfMemory
    }
}

impl From<MoveFault> for Refused {
    ghost from_gives = { λ m e. refusal_of e ≡ move_fault.refusal_of m };

    fn from(fault: MoveFault) -> Refused {
        match fault {
            MoveFault::NoMove(reason) => Refused::Reason(reason),
            MoveFault::Limit(word) => Refused::Limit(word),
            MoveFault::OutOfMemory => Refused::OutOfMemory,
        }
    }
}
