use thiserror::Error;
use wasm_values::OutOfMemory;

/// What is wrong with an entry or instruction of a module.
#[derive(Clone, Copy, Debug, PartialEq, Eq)]
pub enum ValidWord {
    WrongType,
    Count,
    Index,
    Limits,
    Const,
    Export,
    Start,
    Label,
    Align,
    Stack,
}

/// Why a module is no valid one: the place of the first entry or instruction at fault, and what is wrong there.
#[derive(Clone, Copy, Debug, PartialEq, Eq, Error)]
pub enum ValidFault {
    #[error("invalid at {at:#010x}: {word:?}")]
    Invalid { at: usize, word: ValidWord },
    #[error("out of memory")]
    OutOfMemory,
}

impl From<OutOfMemory> for ValidFault {
    ghost use Rattle.std.specs.Prelude.{◌≡◌};
    ghost use Rattle.wasm_typing.specs.declared.fault.ValidFault.TheVariants as fault;

    ghost from_gives = { λ _ e. e ≡ fault.OutOfMemory };

    fn from(_error: OutOfMemory) -> ValidFault {
        ValidFault::OutOfMemory
    }
}
