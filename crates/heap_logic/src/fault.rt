ghost use Rattle.std.specs.Prelude.{◌≡◌};
ghost use Rattle.heap_logic.specs.declared.fault.MoveFault.TheVariants as fault;

use notes::Reason;
use wasm_values::{LimitWord, OutOfMemory};

/// Why a move isn't made.
#[derive(Clone, Copy)]
pub enum MoveFault {
    NoMove(Reason),
    Limit(LimitWord),
    OutOfMemory,
}

impl From<OutOfMemory> for MoveFault {
    ghost from_gives = { λ _ e. e ≡ fault.OutOfMemory };

    fn from(_error: OutOfMemory) -> MoveFault {
        MoveFault::OutOfMemory
    }
}
