use std::alloc::AllocError;
use thiserror::Error;
use wasm_values::OutOfMemory;

/// Why an invocation is refused.
#[derive(Clone, Copy, Debug, PartialEq, Eq, Error)]
pub enum InvFault {
    #[error("no function")]
    NotFunction,
    /// Number or types of the arguments aren't those of the parameters.
    #[error("other arguments than the function has parameters")]
    Arguments,
    #[error("out of memory")]
    OutOfMemory,
}

/// Why an act of a host or of the embedder is refused, in this order.
#[derive(Clone, Copy, Debug, PartialEq, Eq, Error)]
pub enum HostFault {
    /// What is written isn't in the pool, or the function isn't within reach.
    #[error("not exported")]
    NotExported,
    #[error("the global is immutable")]
    Immutable,
    /// The value isn't of the global's type, or number or types of arguments or results differ.
    #[error("values of other types")]
    WrongType,
    #[error("past the end")]
    Bounds,
    /// Pages, table entries or frames would pass their limit.
    #[error("a limit is passed")]
    Limit,
    #[error("out of memory")]
    OutOfMemory,
}

impl From<OutOfMemory> for HostFault {
    ghost use Rattle.std.specs.Prelude.{◌≡◌};
    ghost use Rattle.wasm_instantiate.specs.declared.faults.HostFault.TheVariants as host_fault;

    ghost from_gives = { λ _ e. e ≡ host_fault.OutOfMemory };

    fn from(_error: OutOfMemory) -> HostFault {
        HostFault::OutOfMemory
    }
}

impl From<OutOfMemory> for InvFault {
    ghost use Rattle.std.specs.Prelude.{◌≡◌};
    ghost use Rattle.wasm_instantiate.specs.declared.faults.InvFault.TheVariants as fault;

    ghost from_gives = { λ _ e. e ≡ fault.OutOfMemory };

    fn from(_error: OutOfMemory) -> InvFault {
        InvFault::OutOfMemory
    }
}

impl From<AllocError> for InvFault {
    ghost use Rattle.std.specs.Prelude.{◌≡◌};
    ghost use Rattle.wasm_instantiate.specs.declared.faults.InvFault.TheVariants as fault;

    ghost from_gives = { λ _ e. e ≡ fault.OutOfMemory };

    fn from(_error: AllocError) -> InvFault {
        InvFault::OutOfMemory
    }
}
