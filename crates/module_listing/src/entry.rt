// The entries of sections.

ghost use Rattle.std.specs.Prelude.{◌≡◌, ℕ, List, ◌++◌, ◌+◌, ◌^◌, ◌<◌, length, OnOk};
ghost use Rattle.std.specs.Fmt.{decimal};
ghost use Rattle.module_listing.specs.Listing.{value_types_text, func_type_text, limits_text, global_type_text, import_kind_text, import_text, export_kind_text, export_text, func_text, global_text, elem_text, segment_text, entry_line, entries_text};

use crate::instrs::value_type_text;
use crate::text::{write_number, write_quoted, write_text};
use wasm_syntax::{
    Elem, Export, ExportKind, Func, FuncType, Global, GlobalType, Import, ImportKind, Limits,
    Segment,
};
use wasm_values::{Bytes, OutOfMemory, ValType};

/// An entry of a section whose entries are numbered.
pub(crate) trait Entry {
    ghost text: { Self → List ℕ };

    /// Adds what the entry's line tells of it.
    fn write(&self, out: &mut Bytes) -> Result<(), OutOfMemory>
        ensures { OnOk result (out.new ≡ out.old ++ text self.now) };
}

#[tactic(auto, unfolding(crate::specs::Listing::value_types_text))]
fn write_value_types(out: &mut Bytes, types: &[ValType]) -> Result<(), OutOfMemory>
    ensures { OnOk result (out.new ≡ out.old ++ value_types_text types.now) }
{
    let [first, rest @ ..] = types else {
        return Ok(());
    };
    write_text(out, value_type_text(*first))?;
    for ty in rest {
        out.push(b' ')?;
        write_text(out, value_type_text(*ty))?;
    }
    Ok(())
}

impl Entry for FuncType {
    ghost text = { func_type_text };

    #[tactic(auto, unfolding(crate::specs::Listing::func_type_text))]
    fn write(&self, out: &mut Bytes) -> Result<(), OutOfMemory> {
        out.push(b'[')?;
        write_value_types(out, self.params.as_slice())?;
        write_text(out, "] -> [")?;
        write_value_types(out, self.results.as_slice())?;
        out.push(b']')
    }
}

#[tactic(auto, unfolding(crate::specs::Listing::limits_text))]
fn write_limits(out: &mut Bytes, limits: Limits) -> Result<(), OutOfMemory>
    ensures { OnOk result (out.new ≡ out.old ++ limits_text limits) }
{
    write_number(out, u64::from(limits.min))?;
    match limits.max {
        None => Ok(()),
        Some(max) => {
            out.push(b' ')?;
            write_number(out, u64::from(max))
        }
    }
}

impl Entry for Limits {
    ghost text = { limits_text };

    fn write(&self, out: &mut Bytes) -> Result<(), OutOfMemory> {
        write_limits(out, *self)
    }
}

fn write_global_type(out: &mut Bytes, ty: GlobalType) -> Result<(), OutOfMemory>
    ensures { OnOk result (out.new ≡ out.old ++ global_type_text ty) }
{
    if ty.mutable {
        write_text(out, "mut ")?;
        write_text(out, value_type_text(ty.value))
    } else {
        write_text(out, value_type_text(ty.value))
    }
}

impl Entry for Global {
    ghost text = { global_text };

    fn write(&self, out: &mut Bytes) -> Result<(), OutOfMemory> {
        write_global_type(out, self.ty)
    }
}

#[tactic(auto, unfolding(crate::specs::Listing::import_kind_text))]
fn write_import_kind(out: &mut Bytes, kind: ImportKind) -> Result<(), OutOfMemory>
    ensures { OnOk result (out.new ≡ out.old ++ import_kind_text kind) }
{
    match kind {
        ImportKind::Func(ty) => {
            write_text(out, "func ")?;
            write_number(out, u64::from(ty))
        }
        ImportKind::Table(limits) => {
            write_text(out, "table ")?;
            write_limits(out, limits)
        }
        ImportKind::Memory(limits) => {
            write_text(out, "memory ")?;
            write_limits(out, limits)
        }
        ImportKind::Global(ty) => {
            write_text(out, "global ")?;
            write_global_type(out, ty)
        }
    }
}

impl Entry for Import {
    ghost text = { import_text };

    #[tactic(auto, unfolding(crate::specs::Listing::import_text))]
    fn write(&self, out: &mut Bytes) -> Result<(), OutOfMemory> {
        write_quoted(out, self.module.as_str())?;
        out.push(b' ')?;
        write_quoted(out, self.name.as_str())?;
        out.push(b' ')?;
        write_import_kind(out, self.kind)
    }
}

fn write_kind(out: &mut Bytes, word: &str, index: u32) -> Result<(), OutOfMemory>
    ensures { OnOk result (out.new ≡ out.old ++ word.now ++ decimal index) }
{
    write_text(out, word)?;
    write_number(out, u64::from(index))
}

#[tactic(auto, unfolding(crate::specs::Listing::export_kind_text))]
fn write_export_kind(out: &mut Bytes, kind: ExportKind) -> Result<(), OutOfMemory>
    ensures { OnOk result (out.new ≡ out.old ++ export_kind_text kind) }
{
    match kind {
        ExportKind::Func(index) => write_kind(out, "func ", index),
        ExportKind::Table(index) => write_kind(out, "table ", index),
        ExportKind::Memory(index) => write_kind(out, "memory ", index),
        ExportKind::Global(index) => write_kind(out, "global ", index),
    }
}

impl Entry for Export {
    ghost text = { export_text };

    #[tactic(auto, unfolding(crate::specs::Listing::export_text))]
    fn write(&self, out: &mut Bytes) -> Result<(), OutOfMemory> {
        write_quoted(out, self.name.as_str())?;
        out.push(b' ')?;
        write_export_kind(out, self.kind)
    }
}

impl Entry for Func {
    ghost text = { func_text };

    fn write(&self, out: &mut Bytes) -> Result<(), OutOfMemory> {
        write_text(out, "type ")?;
        write_number(out, u64::from(self.ty))
    }
}

impl Entry for Elem {
    ghost text = { elem_text };

    fn write(&self, out: &mut Bytes) -> Result<(), OutOfMemory> {
        write_number(out, self.funcs.len() as u64)
    }
}

impl Entry for Segment {
    ghost text = { segment_text };

    fn write(&self, out: &mut Bytes) -> Result<(), OutOfMemory> {
        write_number(out, self.bytes.len() as u64)
    }
}

// The line of an entry.
#[tactic(auto, unfolding(crate::specs::Listing::entry_line))]
fn write_entry<T: Entry>(
    out: &mut Bytes,
    word: &str,
    number: usize,
    entry: &T,
) -> Result<(), OutOfMemory>
    ensures { OnOk result (out.new ≡ out.old ++ entry_line word.now number (T.text entry.now)) }
{
    write_text(out, word)?;
    out.push(b' ')?;
    write_number(out, number as u64)?;
    write_text(out, ": ")?;
    entry.write(out)?;
    out.push(b'\n')
}

/// Adds the lines of a section's entries, which are numbered from `first` on.
pub(crate) fn write_entries<T: Entry>(
    out: &mut Bytes,
    word: &str,
    first: usize,
    entries: &[T],
) -> Result<(), OutOfMemory>
    requires { first + length entries.now < 2 ^ 64 }
    ensures { OnOk result (out.new ≡ out.old ++ entries_text word.now T.text first entries.now) }
{
    for (i, entry) in entries.iter().enumerate() {
        write_entry(out, word, first + i, entry)?;
    }
    Ok(())
}
