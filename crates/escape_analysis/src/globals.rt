//! Which globals others can write.

ghost use Rattle.std.specs.Prelude.{◌≡◌, ◌==◌, [], ◌++◌, map, IfOk, OnOk};
ghost use Rattle.std.specs.List.{cons_option};
ghost use Rattle.escape_analysis.specs.Exposure.{exports_global, stabilities_from};
ghost use Rattle.escape_analysis.specs.words.Changing.{changed_where, exporting, global_among, imported_stability, defined_stability, unexported_globals};
ghost use Rattle.wasm_typing.specs.Valid.{globals_of, global_import};

use crate::stability::Stability;
use std::alloc;
use wasm_syntax::{Export, ExportKind, GlobalType, ImportKind, Module};
use wasm_values::{List, OutOfMemory};

/// The stability of an imported global.
fn of_imported(ty: &GlobalType) -> Stability
    ensures { result ≡ imported_stability ty.now }
{
    if ty.mutable {
        Stability::Unstable
    } else {
        Stability::Immutable
    }
}

/// The stability of a global that the module defines, where it isn't exported.
fn of_defined(ty: &GlobalType) -> Stability
    ensures { result ≡ defined_stability ty.now }
{
    if ty.mutable {
        Stability::Private
    } else {
        Stability::Immutable
    }
}

/// The stability of a global once it is exported.
fn of_exported(stability: Stability) -> Stability
    ensures { result ≡ exporting stability }
{
    match stability {
        Stability::Unstable => Stability::Unstable,
        Stability::Immutable => Stability::Immutable,
        Stability::Private => Stability::Unstable,
    }
}

/// The stability of an import, where it is a global.
fn push_imported(globals: &mut List<Stability>, kind: &ImportKind) -> Result<(), OutOfMemory>
    ensures { OnOk result (globals.new ≡ globals.old ++ map imported_stability (cons_option (global_import kind.now) [])) }
{
    match kind {
        ImportKind::Global(ty) => globals.push(of_imported(ty)),
        _ => Ok(()),
    }
}

/// The stability of each global, were none exported.
fn unexported(alloc: alloc::Global, module: &Module) -> Result<List<Stability>, OutOfMemory>
    ensures { IfOk result (λ globals. globals ≡ unexported_globals «module».now) }
{
    let mut globals = List::new(alloc);
    for import in module.imports.as_slice() {
        push_imported(&mut globals, &import.kind)?;
    }
    for global in module.globals.as_slice() {
        globals.push(of_defined(&global.ty))?;
    }
    Ok(globals)
}

/// One global is exported.
fn export_global(globals: &mut List<Stability>, number: u32)
    ensures { globals.new ≡ changed_where exporting (λ k. number == k) 0 globals.old }
{
    let number = number as usize;
    if number < globals.len() {
        let exported = of_exported(globals.as_slice()[number]);
        globals.set(number, exported);
    }
}

/// An export exports the global that it names, where it names one.
fn export_by(globals: &mut List<Stability>, kind: &ExportKind)
    ensures { globals.new ≡ changed_where exporting (λ k. exports_global k kind.now) 0 globals.old }
{
    match kind {
        ExportKind::Func(_) => {}
        ExportKind::Table(_) => {}
        ExportKind::Memory(_) => {}
        ExportKind::Global(number) => export_global(globals, *number),
    }
}

/// What these exports name is exported.
fn export_globals(globals: &mut List<Stability>, exports: &[Export])
    ensures { globals.new ≡ changed_where exporting (global_among exports.now) 0 globals.old }
{
    for export in exports {
        export_by(globals, &export.kind);
    }
}

/// The stability of each global, imports first.
pub fn stabilities(alloc: alloc::Global, module: &Module) -> Result<List<Stability>, OutOfMemory>
    ensures { IfOk result (λ globals. globals ≡ stabilities_from «module».now 0 (globals_of «module».now)) }
{
    let mut globals = unexported(alloc, module)?;
    export_globals(&mut globals, module.exports.as_slice());
    Ok(globals)
}
