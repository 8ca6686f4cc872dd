ghost use Rattle.std.specs.Prelude.{◌≡◌};
ghost use Rattle.wasm_write.specs.declared.fault.EncodeFault.TheVariants as EncodeFault;

use thiserror::Error;
use wasm_values::OutOfMemory;

/// Why a module was not encoded.
#[derive(Clone, Copy, Debug, PartialEq, Eq, Error)]
pub enum EncodeFault {
    #[error("out of memory")]
    OutOfMemory,
}

impl From<OutOfMemory> for EncodeFault {
    ghost from_gives = { λ _ e. e ≡ EncodeFault.OutOfMemory };

    fn from(_error: OutOfMemory) -> EncodeFault {
        EncodeFault::OutOfMemory
    }
}
