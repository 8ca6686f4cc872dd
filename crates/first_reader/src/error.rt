ghost use Rattle.std.specs.Prelude.{◌≡◌};
ghost use Rattle.first_reader.specs.declared.error.ReadError.TheVariants.{Memory};

use wasm_values::OutOfMemory;

/// Why nothing was read.
#[derive(Clone, Copy, Debug, PartialEq, Eq)]
pub enum ReadError {
    Memory,
    /// The bytes are not of the form that is read.
    OtherForm,
}

impl From<OutOfMemory> for ReadError {
    ghost from_gives = { λ _ e. e ≡ Memory };

    fn from(_e: OutOfMemory) -> ReadError {
        ReadError::Memory
    }
}
