use thiserror::Error;
use wasm_values::LimitWord;

/// Why an outline isn't accepted.
#[derive(Clone, Copy, Debug, PartialEq, Eq)]
pub enum Reason {
    Notes,
    Stable,
    Scope,
    Exposed,
    Use,
    Fact,
    Chunk,
    /// The position of the first step that is no instance, or the number of steps where the last one isn't the goal.
    Derivation(usize),
    Target,
    Initial,
}

/// What the check answers. `at` is a byte offset in the module file.
#[derive(Clone, Copy, Debug, PartialEq, Eq)]
pub enum Answer {
    Verified,
    Failed {
        at: usize,
        function: Option<u32>,
        reason: Reason,
    },
}

/// Why the check has no answer.
#[derive(Clone, Copy, Debug, PartialEq, Eq, Error)]
pub enum CheckFault {
    #[error("a limit is passed at {at:#010x}: {word:?}")]
    Limit { at: usize, word: LimitWord },
    #[error("out of memory")]
    OutOfMemory,
}
