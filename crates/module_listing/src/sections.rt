ghost use Rattle.std.specs.Prelude.{◌≡◌, ◌++◌, ◌+◌, ◌^◌, ◌<◌, ◌≤◌, length, IfOk, OnOk};
ghost use Rattle.std.specs.List.{flat_map};
ghost use Rattle.wasm_syntax.specs.FlatForm.{flat_body};
ghost use Rattle.module_listing.specs.Listing.{is_func, is_table, is_memory, is_global, imported, start_text, func_code_text, code_text, custom_line, first_lines, last_lines, listing_text, HasPlaces};

use crate::entry::write_entries;
use crate::instrs::write_code;
use crate::text::{write_number, write_quoted, write_text};
use std::alloc::Global;
use wasm_syntax::{Custom, Func, Import, ImportKind, Marks, Module};
use wasm_values::{Bytes, OutOfMemory};

#[tactic(auto, unfolding(crate::specs::Listing::imported))]
fn imported_funcs(imports: &[Import]) -> usize
    ensures value { result ≡ imported is_func imports.now }
    ensures short { result ≤ length imports.now }
{
    imports
        .iter()
        .filter(|import| matches!(import.kind, ImportKind::Func(_)))
        .count()
}

#[tactic(auto, unfolding(crate::specs::Listing::imported))]
fn imported_tables(imports: &[Import]) -> usize
    ensures value { result ≡ imported is_table imports.now }
    ensures short { result ≤ length imports.now }
{
    imports
        .iter()
        .filter(|import| matches!(import.kind, ImportKind::Table(_)))
        .count()
}

#[tactic(auto, unfolding(crate::specs::Listing::imported))]
fn imported_memories(imports: &[Import]) -> usize
    ensures value { result ≡ imported is_memory imports.now }
    ensures short { result ≤ length imports.now }
{
    imports
        .iter()
        .filter(|import| matches!(import.kind, ImportKind::Memory(_)))
        .count()
}

#[tactic(auto, unfolding(crate::specs::Listing::imported))]
fn imported_globals(imports: &[Import]) -> usize
    ensures value { result ≡ imported is_global imports.now }
    ensures short { result ≤ length imports.now }
{
    imports
        .iter()
        .filter(|import| matches!(import.kind, ImportKind::Global(_)))
        .count()
}

// The lines of types, imports, functions, tables, memories and globals.
#[tactic(auto, unfolding(crate::specs::Listing::first_lines))]
fn write_first(out: &mut Bytes, module: &Module) -> Result<(), OutOfMemory>
    ensures { OnOk result (out.new ≡ out.old ++ first_lines «module».now) }
{
    let imports = module.imports.as_slice();
    write_entries(out, "type", 0, module.types.as_slice())?;
    write_entries(out, "import", 0, imports)?;
    let first = imported_funcs(imports);
    write_entries(out, "function", first, module.funcs.as_slice())?;
    let first = imported_tables(imports);
    write_entries(out, "table", first, module.tables.as_slice())?;
    let first = imported_memories(imports);
    write_entries(out, "memory", first, module.memories.as_slice())?;
    let first = imported_globals(imports);
    write_entries(out, "global", first, module.globals.as_slice())
}

#[tactic(auto, unfolding(crate::specs::Listing::start_text))]
fn write_start(out: &mut Bytes, start: Option<u32>) -> Result<(), OutOfMemory>
    ensures { OnOk result (out.new ≡ out.old ++ start_text start) }
{
    match start {
        None => Ok(()),
        Some(func) => {
            write_text(out, "start: ")?;
            write_number(out, u64::from(func))?;
            out.push(b'\n')
        }
    }
}

// The lines of one function's code.
#[tactic(auto, unfolding(crate::specs::Listing::func_code_text))]
fn write_func_code(
    out: &mut Bytes,
    number: usize,
    places: &[usize],
    func: &Func,
) -> Result<(), OutOfMemory>
    requires { length places.now ≡ length (flat_body func.now.body) }
    ensures { OnOk result (out.new ≡ out.old ++ func_code_text number places.now func.now) }
{
    write_text(out, "code ")?;
    write_number(out, number as u64)?;
    out.push(b'\n')?;
    write_code(out, places, &func.body)
}

// The lines of the functions' code.
fn write_codes(out: &mut Bytes, module: &Module, marks: &Marks) -> Result<(), OutOfMemory>
    requires { HasPlaces «module».now marks.now }
    ensures { OnOk result (out.new ≡ out.old ++ code_text (imported is_func «module».now.imports) marks.now.code «module».now.funcs) }
{
    let first = imported_funcs(module.imports.as_slice());
    let places = marks.code.as_slice();
    for (i, func) in module.funcs.as_slice().iter().enumerate() {
        write_func_code(out, first + i, places[i].as_slice(), func)?;
    }
    Ok(())
}

#[tactic(auto, unfolding(crate::specs::Listing::custom_line))]
fn write_custom(out: &mut Bytes, custom: &Custom) -> Result<(), OutOfMemory>
    ensures { OnOk result (out.new ≡ out.old ++ custom_line custom.now) }
{
    write_text(out, "custom: ")?;
    write_quoted(out, custom.name.as_str())?;
    out.push(b' ')?;
    write_number(out, custom.bytes.len() as u64)?;
    out.push(b'\n')
}

fn write_customs(out: &mut Bytes, customs: &[Custom]) -> Result<(), OutOfMemory>
    ensures { OnOk result (out.new ≡ out.old ++ flat_map custom_line customs.now) }
{
    for custom in customs {
        write_custom(out, custom)?;
    }
    Ok(())
}

// The other lines.
#[tactic(auto, unfolding(crate::specs::Listing::last_lines))]
fn write_last(out: &mut Bytes, module: &Module, marks: &Marks) -> Result<(), OutOfMemory>
    requires { HasPlaces «module».now marks.now }
    ensures { OnOk result (out.new ≡ out.old ++ last_lines «module».now marks.now) }
{
    write_entries(out, "export", 0, module.exports.as_slice())?;
    write_start(out, module.start)?;
    write_entries(out, "elem", 0, module.elems.as_slice())?;
    write_codes(out, module, marks)?;
    write_entries(out, "data", 0, module.segments.as_slice())?;
    write_customs(out, module.customs.as_slice())
}

/// The listing of a module: a line for each entry in the order of the sections, with custom sections last, and for each
/// instruction a line with its place, which `marks` tells.
///
/// Takes time and memory in proportion to the text. Places are exact where they are below 2^32.
#[tactic(auto, unfolding(crate::specs::Listing::listing_text))]
pub fn listing(alloc: Global, module: &Module, marks: &Marks) -> Result<Bytes, OutOfMemory>
    requires { HasPlaces «module».now marks.now }
    ensures { IfOk result (λ text. text ≡ listing_text «module».now marks.now) }
{
    let mut out = Bytes::new(alloc);
    write_first(&mut out, module)?;
    write_last(&mut out, module, marks)?;
    Ok(out)
}
