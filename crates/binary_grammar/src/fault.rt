ghost use Rattle.std.specs.Prelude.{◌≡◌};
ghost use Rattle.binary_grammar.specs.declared.fault.DecodeFault.{DecodeFault};
ghost use Rattle.binary_grammar.specs.declared.fault.DecodeFault.TheVariants as DecodeFault;

use thiserror::Error;
use wasm_values::{LimitWord, OutOfMemory};

/// Why bytes spell no number.
#[derive(Clone, Copy, Debug, PartialEq, Eq, Error)]
pub enum LebFault {
    /// The bytes end inside a spelling that is not too long.
    #[error("the bytes end inside a number")]
    End,
    /// The spelling is too long, or its value is out of range.
    #[error("the bytes spell no number of this type")]
    Number,
}

/// What is wrong with a module's bytes.
#[derive(Clone, Copy, Debug, PartialEq, Eq)]
pub enum DecodeWord {
    End,
    Magic,
    Byte,
    Order,
    Size,
    Number,
    Utf8,
    Float,
    Count,
}

/// Why bytes were not decoded.
#[derive(Clone, Copy, Debug, PartialEq, Eq, Error)]
pub enum DecodeFault {
    /// The bytes are no module: the place and the word of the first fault.
    #[error("malformed at {at:#010x}: {word:?}")]
    Malformed { at: usize, word: DecodeWord },
    /// A limit is passed at this place.
    #[error("limit passed at {at:#010x}: {word:?}")]
    Limit { at: usize, word: LimitWord },
    #[error("out of memory")]
    OutOfMemory,
}

impl From<OutOfMemory> for DecodeFault {
    ghost from_gives = { λ _ e. e ≡ DecodeFault.OutOfMemory };

    fn from(_error: OutOfMemory) -> DecodeFault {
        DecodeFault::OutOfMemory
    }
}
