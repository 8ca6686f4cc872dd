//! Refusals of the outside.
ghost use Rattle.std.specs.Prelude.{◌≡◌};
ghost use Rattle.rw_edge.specs.declared.error.ReadFault.TheVariants.{Failed as ReadFailed, OutOfMemory};

use std::alloc::AllocError;
use thiserror::Error;

/// A refusal of the outside: a file that is not there, a read or a write that failed.
#[derive(Clone, Copy, Debug, PartialEq, Eq, Error)]
#[error("the outside failed")]
pub struct Failed;

/// Why a file was not read whole.
#[derive(Clone, Copy, Debug, PartialEq, Eq, Error)]
pub enum ReadFault {
    /// The shelf failed, or has no such file.
    #[error("the file could not be read")]
    Failed,
    /// The file has more bytes than the limit allows.
    #[error("the file is too long")]
    TooLong,
    /// There was no memory for the bytes.
    #[error("out of memory")]
    OutOfMemory,
}

impl From<Failed> for ReadFault {
    ghost from_gives = { λ _ fault. fault ≡ ReadFailed };

    fn from(_: Failed) -> ReadFault {
        ReadFault::Failed
    }
}

impl From<AllocError> for ReadFault {
    ghost from_gives = { λ _ fault. fault ≡ OutOfMemory };

    fn from(_: AllocError) -> ReadFault {
        ReadFault::OutOfMemory
    }
}
