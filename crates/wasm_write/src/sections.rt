ghost use Rattle.std.specs.Prelude.{◌≡◌, ◌++◌, OnOk};
ghost use Rattle.std.specs.List.{flat_map};
ghost use Rattle.wasm_write.specs.Encoding.{global_text, elem_text, segment_text, section_text, entries_text, start_text, custom_text, customs_text, type_text, table_type_text};

use crate::entry::{Entry, write_vector};
use crate::instrs::write_expression;
use crate::number::{write_bytes, write_number, write_sized};
use crate::types::{write_global_type, write_name, write_table_type};
use std::alloc;
use wasm_syntax::{Custom, Elem, Func, Global, Limits, Segment};
use wasm_values::{Bytes, OutOfMemory};

impl Entry for Global {
    ghost text = { global_text };

    fn write(&self, alloc: alloc::Global, out: &mut Bytes) -> Result<(), OutOfMemory> {
        write_global_type(out, self.ty)?;
        write_expression(alloc, out, &self.init)
    }
}

impl Entry for Elem {
    ghost text = { elem_text };

    fn write(&self, alloc: alloc::Global, out: &mut Bytes) -> Result<(), OutOfMemory> {
        write_number(out, u64::from(self.table))?;
        write_expression(alloc, out, &self.offset)?;
        write_vector(alloc, out, self.funcs.as_slice())
    }
}

impl Entry for Segment {
    ghost text = { segment_text };

    fn write(&self, alloc: alloc::Global, out: &mut Bytes) -> Result<(), OutOfMemory> {
        write_number(out, u64::from(self.memory))?;
        write_expression(alloc, out, &self.offset)?;
        write_sized(out, self.bytes.as_slice())
    }
}

/// A section's id, size and contents.
#[tactic(auto, unfolding(crate::specs::Encoding::section_text))]
fn write_section(out: &mut Bytes, id: u8, contents: &[u8]) -> Result<(), OutOfMemory>
    ensures { OnOk result (out.new ≡ out.old ++ section_text id contents.now) }
{
    out.push(id)?;
    write_sized(out, contents)
}

/// Adds a section of entries, where there are any.
#[tactic(auto, unfolding(crate::specs::Encoding::entries_text))]
pub(crate) fn write_section_of<T: Entry>(
    alloc: alloc::Global,
    out: &mut Bytes,
    id: u8,
    entries: &[T],
) -> Result<(), OutOfMemory>
    ensures { OnOk result (out.new ≡ out.old ++ entries_text id T.text entries.now) }
{
    if entries.is_empty() {
        return Ok(());
    }
    let mut contents = Bytes::new(alloc);
    write_vector(alloc, &mut contents, entries)?;
    write_section(out, id, contents.as_slice())
}

/// Adds the function section, where there are functions.
#[tactic(auto, unfolding(crate::specs::Encoding::entries_text, crate::specs::Encoding::vector_text))]
pub(crate) fn write_funcs(
    alloc: alloc::Global,
    out: &mut Bytes,
    funcs: &[Func],
) -> Result<(), OutOfMemory>
    ensures { OnOk result (out.new ≡ out.old ++ entries_text 3 type_text funcs.now) }
{
    if funcs.is_empty() {
        return Ok(());
    }
    let mut contents = Bytes::new(alloc);
    write_number(&mut contents, funcs.len() as u64)?;
    write_types_of(&mut contents, funcs)?;
    write_section(out, 3, contents.as_slice())
}

fn write_types_of(out: &mut Bytes, funcs: &[Func]) -> Result<(), OutOfMemory>
    ensures { OnOk result (out.new ≡ out.old ++ flat_map type_text funcs.now) }
{
    for func in funcs {
        write_number(out, u64::from(func.ty))?;
    }
    Ok(())
}

/// Adds the table section, where there are tables.
#[tactic(auto, unfolding(crate::specs::Encoding::entries_text, crate::specs::Encoding::vector_text))]
pub(crate) fn write_tables(
    alloc: alloc::Global,
    out: &mut Bytes,
    tables: &[Limits],
) -> Result<(), OutOfMemory>
    ensures { OnOk result (out.new ≡ out.old ++ entries_text 4 table_type_text tables.now) }
{
    if tables.is_empty() {
        return Ok(());
    }
    let mut contents = Bytes::new(alloc);
    write_number(&mut contents, tables.len() as u64)?;
    write_table_types(&mut contents, tables)?;
    write_section(out, 4, contents.as_slice())
}

fn write_table_types(out: &mut Bytes, tables: &[Limits]) -> Result<(), OutOfMemory>
    ensures { OnOk result (out.new ≡ out.old ++ flat_map table_type_text tables.now) }
{
    for table in tables {
        write_table_type(out, *table)?;
    }
    Ok(())
}

/// Adds the start section, where there is a start function.
#[tactic(auto, unfolding(crate::specs::Encoding::start_text))]
pub(crate) fn write_start(
    alloc: alloc::Global,
    out: &mut Bytes,
    start: Option<u32>,
) -> Result<(), OutOfMemory>
    ensures { OnOk result (out.new ≡ out.old ++ start_text start) }
{
    match start {
        None => Ok(()),
        Some(func) => {
            let mut contents = Bytes::new(alloc);
            write_number(&mut contents, u64::from(func))?;
            write_section(out, 8, contents.as_slice())
        }
    }
}

fn write_custom(alloc: alloc::Global, out: &mut Bytes, custom: &Custom) -> Result<(), OutOfMemory>
    ensures { OnOk result (out.new ≡ out.old ++ custom_text custom.now) }
{
    let mut contents = Bytes::new(alloc);
    write_name(&mut contents, &custom.name)?;
    write_bytes(&mut contents, custom.bytes.as_slice())?;
    write_section(out, 0, contents.as_slice())
}

/// Adds the custom sections that name a section.
#[tactic(auto, unfolding(crate::specs::Encoding::customs_text))]
pub(crate) fn write_customs(
    alloc: alloc::Global,
    out: &mut Bytes,
    id: u8,
    customs: &[Custom],
) -> Result<(), OutOfMemory>
    ensures { OnOk result (out.new ≡ out.old ++ customs_text id customs.now) }
{
    for custom in customs {
        if custom.after == id {
            write_custom(alloc, out, custom)?;
        }
    }
    Ok(())
}
