ghost use Rattle.std.specs.Prelude.{◌≡◌};

use thiserror::Error;
use wasm_values::{LimitWord, OutOfMemory};

/// Why a text is refused.
#[derive(Clone, Copy, Debug, PartialEq, Eq)]
pub enum TextWord {
    /// The text ends before its list does.
    End,
    /// A byte that begins no part, or goes on no word.
    Byte,
    /// A `)` with no open list.
    Close,
    /// A run that begins as a number and is none.
    Number,
    /// A string with a byte or an escape that no string has.
    String,
    /// A string whose bytes are not UTF-8.
    Utf8,
    /// A part after the list.
    Rest,
    /// A part that does not fit the grammar of its text.
    Form,
    /// A name that is made twice, or that nothing makes.
    Name,
}

/// Why a text is not read. `at` is the place of the first fault.
#[derive(Debug, PartialEq, Drop, Error)]
pub enum TextFault {
    #[error("{word:?} at {at}")]
    Refused { at: usize, word: TextWord },
    #[error("the limit {word:?} at {at}")]
    Limit { at: usize, word: LimitWord },
    #[error("out of memory")]
    OutOfMemory,
}

impl From<OutOfMemory> for TextFault {
    ghost use Rattle.sexp_text.specs.declared.fault.TextFault.TheVariants.{OutOfMemory as Memory};

    ghost from_gives = { λ _ fault. fault ≡ Memory };

    fn from(_: OutOfMemory) -> TextFault {
        TextFault::OutOfMemory
    }
}
