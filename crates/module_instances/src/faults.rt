use thiserror::Error;
use wasm_values::OutOfMemory;

/// Why an instantiation is refused.
#[derive(Clone, Copy, Debug, PartialEq, Eq, Error)]
pub enum InstFault {
    /// The number of externs isn't that of imports.
    #[error("another number of externs than of imports")]
    Count,
    /// The first extern that doesn't match its import.
    #[error("extern {0} doesn't match its import")]
    Mismatch(usize),
    #[error("a segment passes the end of its table or memory")]
    Bounds,
    /// Pages, table entries or numbers of a store would pass their limits.
    #[error("a limit is passed")]
    Limit,
    #[error("out of memory")]
    OutOfMemory,
}

impl From<OutOfMemory> for InstFault {
    ghost use Rattle.std.specs.Prelude.{◌≡◌};
    ghost use Rattle.module_instances.specs.declared.faults.InstFault.TheVariants as fault;

    ghost from_gives = { λ _ e. e ≡ fault.OutOfMemory };

    fn from(_error: OutOfMemory) -> InstFault {
        InstFault::OutOfMemory
    }
}
