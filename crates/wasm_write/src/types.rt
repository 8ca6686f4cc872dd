ghost use Rattle.std.specs.Prelude.{◌≡◌, ◌++◌, ◌∷◌, OnOk};
ghost use Rattle.wasm_write.specs.Shortest.{number_text};
ghost use Rattle.wasm_write.specs.Encoding.{sized_text, block_type_code, func_type_text, between_text, limits_text, table_type_text, mutability_code, global_type_text, import_kind_text, import_text, export_kind_text, export_text};

use crate::entry::{Entry, value_type_code, write_vector};
use crate::number::{write_number, write_sized};
use std::alloc::Global;
use wasm_syntax::{Export, ExportKind, FuncType, GlobalType, Import, ImportKind, Limits};
use wasm_values::{Bytes, OutOfMemory, Text, ValType};

/// The byte of a block type.
pub(crate) fn block_type_code(ty: Option<ValType>) -> u8
    ensures { result ≡ block_type_code ty }
{
    match ty {
        None => 0x40,
        Some(ty) => value_type_code(ty),
    }
}

impl Entry for FuncType {
    ghost text = { func_type_text };

    fn write(&self, alloc: Global, out: &mut Bytes) -> Result<(), OutOfMemory> {
        out.push(0x60)?;
        write_vector(alloc, out, self.params.as_slice())?;
        write_vector(alloc, out, self.results.as_slice())
    }
}

fn write_limits(out: &mut Bytes, limits: Limits) -> Result<(), OutOfMemory>
    ensures { OnOk result (out.new ≡ out.old ++ limits_text limits) }
{
    match limits.max {
        None => {
            out.push(0)?;
            write_number(out, u64::from(limits.min))
        }
        Some(max) => {
            out.push(1)?;
            write_number(out, u64::from(limits.min))?;
            write_number(out, u64::from(max))
        }
    }
}

impl Entry for Limits {
    ghost text = { limits_text };

    fn write(&self, _alloc: Global, out: &mut Bytes) -> Result<(), OutOfMemory> {
        write_limits(out, *self)
    }
}

/// Adds a table type.
pub(crate) fn write_table_type(out: &mut Bytes, limits: Limits) -> Result<(), OutOfMemory>
    ensures { OnOk result (out.new ≡ out.old ++ table_type_text limits) }
{
    out.push(0x70)?;
    write_limits(out, limits)
}

fn mutability_code(mutable: bool) -> u8
    ensures { result ≡ mutability_code mutable }
{
    if mutable { 1 } else { 0 }
}

/// Adds a global type.
pub(crate) fn write_global_type(out: &mut Bytes, ty: GlobalType) -> Result<(), OutOfMemory>
    ensures { OnOk result (out.new ≡ out.old ++ global_type_text ty) }
{
    out.push(value_type_code(ty.value))?;
    out.push(mutability_code(ty.mutable))
}

/// Adds a name.
pub(crate) fn write_name(out: &mut Bytes, name: &Text) -> Result<(), OutOfMemory>
    ensures { OnOk result (out.new ≡ out.old ++ sized_text name.now) }
{
    write_sized(out, name.as_str().as_bytes())
}

fn write_import_kind(out: &mut Bytes, kind: ImportKind) -> Result<(), OutOfMemory>
    ensures { OnOk result (out.new ≡ out.old ++ import_kind_text kind) }
{
    match kind {
        ImportKind::Func(ty) => {
            out.push(0)?;
            write_number(out, u64::from(ty))
        }
        ImportKind::Table(limits) => {
            out.push(1)?;
            write_table_type(out, limits)
        }
        ImportKind::Memory(limits) => {
            out.push(2)?;
            write_limits(out, limits)
        }
        ImportKind::Global(ty) => {
            out.push(3)?;
            write_global_type(out, ty)
        }
    }
}

impl Entry for Import {
    ghost text = { import_text };

    fn write(&self, _alloc: Global, out: &mut Bytes) -> Result<(), OutOfMemory> {
        write_name(out, &self.module)?;
        write_name(out, &self.name)?;
        write_import_kind(out, self.kind)
    }
}

fn write_kind(out: &mut Bytes, kind: u8, index: u32) -> Result<(), OutOfMemory>
    ensures { OnOk result (out.new ≡ out.old ++ kind ∷ number_text index) }
{
    out.push(kind)?;
    write_number(out, u64::from(index))
}

fn write_export_kind(out: &mut Bytes, kind: ExportKind) -> Result<(), OutOfMemory>
    ensures { OnOk result (out.new ≡ out.old ++ export_kind_text kind) }
{
    match kind {
        ExportKind::Func(index) => write_kind(out, 0, index),
        ExportKind::Table(index) => write_kind(out, 1, index),
        ExportKind::Memory(index) => write_kind(out, 2, index),
        ExportKind::Global(index) => write_kind(out, 3, index),
    }
}

impl Entry for Export {
    ghost text = { export_text };

    fn write(&self, _alloc: Global, out: &mut Bytes) -> Result<(), OutOfMemory> {
        write_name(out, &self.name)?;
        write_export_kind(out, self.kind)
    }
}
