//! Which functions others can call.

ghost use Rattle.std.specs.Prelude.{◌≡◌, ◌==◌, true, [], ◌++◌, length, map, IfOk, OnOk};
ghost use Rattle.std.specs.List.{cons_option};
ghost use Rattle.escape_analysis.specs.Exposure.{exports_func, exposed_from, has_private_table};
ghost use Rattle.escape_analysis.specs.words.Changing.{changed_where, exposing, func_among, number_among, named_among, imported_marks};
ghost use Rattle.wasm_typing.specs.Valid.{func_import, func_types_of};

use std::alloc::Global;
use wasm_syntax::{Elem, Export, ExportKind, ImportKind, Module};
use wasm_values::{List, OutOfMemory};

/// The mark of an import, where it is a function.
fn push_imported(marks: &mut List<bool>, kind: &ImportKind) -> Result<(), OutOfMemory>
    ensures { OnOk result (marks.new ≡ marks.old ++ map (λ t. true) (cons_option (func_import kind.now) [])) }
{
    match kind {
        ImportKind::Func(_) => marks.push(true),
        _ => Ok(()),
    }
}

/// Whether each function is imported.
fn imported(alloc: Global, module: &Module) -> Result<List<bool>, OutOfMemory>
    ensures { IfOk result (λ marks. marks ≡ imported_marks «module».now) }
{
    let mut marks = List::new(alloc);
    for import in module.imports.as_slice() {
        push_imported(&mut marks, &import.kind)?;
    }
    for _ in module.funcs.as_slice() {
        marks.push(false)?;
    }
    Ok(marks)
}

/// One function is exposed.
fn expose(marks: &mut List<bool>, number: u32)
    ensures { marks.new ≡ changed_where exposing (λ k. number == k) 0 marks.old }
{
    let number = number as usize;
    if number < marks.len() {
        marks.set(number, true);
    }
}

/// The functions with these numbers are exposed.
fn expose_listed(marks: &mut List<bool>, numbers: &[u32])
    ensures { marks.new ≡ changed_where exposing (number_among numbers.now) 0 marks.old }
{
    for number in numbers {
        expose(marks, *number);
    }
}

/// An export exposes the function that it names, where it names one.
fn expose_by(marks: &mut List<bool>, kind: &ExportKind)
    ensures { marks.new ≡ changed_where exposing (λ f. exports_func f kind.now) 0 marks.old }
{
    match kind {
        ExportKind::Func(number) => expose(marks, *number),
        ExportKind::Table(_) => {}
        ExportKind::Memory(_) => {}
        ExportKind::Global(_) => {}
    }
}

/// The functions that these exports name are exposed.
fn expose_exported(marks: &mut List<bool>, exports: &[Export])
    ensures { marks.new ≡ changed_where exposing (func_among exports.now) 0 marks.old }
{
    for export in exports {
        expose_by(marks, &export.kind);
    }
}

/// The functions that these element segments name are exposed.
fn expose_elements(marks: &mut List<bool>, elems: &[Elem])
    ensures { marks.new ≡ changed_where exposing (named_among elems.now) 0 marks.old }
{
    for elem in elems {
        expose_listed(marks, elem.funcs.as_slice());
    }
}

/// Whether others can call each function, imports first, where the table is private or not.
pub fn exposed(
    alloc: Global,
    module: &Module,
    private_table: bool,
) -> Result<List<bool>, OutOfMemory>
    requires { private_table ≡ has_private_table «module».now }
    ensures { IfOk result (λ marks. marks ≡ exposed_from «module».now 0 (length (func_types_of «module».now))) }
{
    let mut marks = imported(alloc, module)?;
    expose_exported(&mut marks, module.exports.as_slice());
    if private_table {
        return Ok(marks);
    }
    expose_elements(&mut marks, module.elems.as_slice());
    Ok(marks)
}
