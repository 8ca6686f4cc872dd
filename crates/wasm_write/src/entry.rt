ghost use Rattle.std.specs.Prelude.{◌≡◌, ℕ, List, ◌++◌, OnOk};
ghost use Rattle.std.specs.List.{flat_map};
ghost use Rattle.wasm_write.specs.Shortest.{number_text};
ghost use Rattle.wasm_write.specs.Encoding.{vector_text, value_type_code, value_type_text};

use crate::number::write_number;
use std::alloc::Global;
use wasm_values::{Bytes, OutOfMemory, ValType};

/// An entry of a vector.
pub(crate) trait Entry {
    ghost text: { Self → List ℕ };

    fn write(&self, alloc: Global, out: &mut Bytes) -> Result<(), OutOfMemory>
        ensures { OnOk result (out.new ≡ out.old ++ text self.now) };
}

impl Entry for u32 {
    ghost text = { number_text };

    fn write(&self, _alloc: Global, out: &mut Bytes) -> Result<(), OutOfMemory> {
        write_number(out, u64::from(*self))
    }
}

/// The byte of a value type.
pub(crate) fn value_type_code(ty: ValType) -> u8
    ensures { result ≡ value_type_code ty }
{
    match ty {
        ValType::I32 => 0x7f,
        ValType::I64 => 0x7e,
    }
}

impl Entry for ValType {
    ghost text = { value_type_text };

    fn write(&self, _alloc: Global, out: &mut Bytes) -> Result<(), OutOfMemory> {
        out.push(value_type_code(*self))
    }
}

fn write_entries<T: Entry>(alloc: Global, out: &mut Bytes, entries: &[T]) -> Result<(), OutOfMemory>
    ensures { OnOk result (out.new ≡ out.old ++ flat_map T.text entries.now) }
{
    for entry in entries {
        entry.write(alloc, out)?;
    }
    Ok(())
}

/// Adds a count, and the entries one after another.
#[tactic(auto, unfolding(crate::specs::Encoding::vector_text))]
pub(crate) fn write_vector<T: Entry>(
    alloc: Global,
    out: &mut Bytes,
    entries: &[T],
) -> Result<(), OutOfMemory>
    ensures { OnOk result (out.new ≡ out.old ++ vector_text T.text entries.now) }
{
    write_number(out, entries.len() as u64)?;
    write_entries(alloc, out, entries)
}
