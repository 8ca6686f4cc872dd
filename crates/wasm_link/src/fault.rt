use binary_grammar::DecodeFault;
use wasm_validate::ValidFault;
use wasm_values::{OutOfMemory, Text};

/// Why a script isn't run to its end. The faults within are never want of memory.
#[derive(Drop)]
pub enum LinkFault {
    /// The shelf failed, or has no such file.
    Shelf,
    /// The file of the module of this name is too long.
    TooLong(Text),
    /// The bytes of the module of this name have a fault.
    Decode(Text, DecodeFault),
    /// The module of this name isn't valid.
    Invalid(Text, ValidFault),
    /// A live instance lacks the export whose name stands at this place of the script.
    UnknownName(usize),
    OutOfMemory,
}

impl From<OutOfMemory> for LinkFault {
    ghost use Rattle.std.specs.Prelude.{◌≡◌};
    ghost use Rattle.wasm_link.specs.declared.fault.LinkFault.TheVariants as fault;

    ghost from_gives = { λ _ e. e ≡ fault.OutOfMemory };

    fn from(_error: OutOfMemory) -> LinkFault {
        LinkFault::OutOfMemory
    }
}
