// The sections but that of bodies, each entry in the order of the file.

ghost use Rattle.std.specs.Prelude.{◌≡◌, ◌+◌, ◌++◌, [], ◌∷◌, ℕ, List, length, nat_eq, IfSome, None, not};
ghost use Rattle.std.specs.List.{filter_map, list_any};
ghost use Rattle.std.specs.Str.{bytes_eq};
ghost use Rattle.wasm_syntax.specs.declared.module.Import.{Import};
ghost use Rattle.wasm_typing.specs.Valid.{table_import, memory_import};
ghost use Rattle.wasm_typing.specs.faults.Faults.{type_fault, table_fault, memory_fault, func_fault, import_fault, module_table_fault, module_memory_fault, global_fault, start_fault, elem_fault, segment_fault, export_fault, export_row, NoFault, FirstFault, StartFault};
ghost use Rattle.body_check.specs.words.Answers.{Answers, IsScopeOf};
ghost use Rattle.wasm_validate.specs.words.Names.{HasTexts};

use crate::entries::{Rows, check_entries};
use crate::rows;
use body_check::{Scope, memory_count, table_count};
use std::alloc;
use std::collections::BTreeSet;
use wasm_syntax::{Elem, Export, Func, FuncType, Global, Limits, Module, Segment};
use wasm_typing::{ValidFault, ValidWord};

// Types.
#[derive(Clone, Copy)]
struct Types;

impl Rows<FuncType> for Types {
    ghost fault = { λ _ _. type_fault };

    ghost Known = { λ _. Unit {0} };

    fn fault_of(&self, _number: usize, ty: &FuncType) -> Option<ValidWord> {
        rows::fault_of_type(ty)
    }
}

// Functions of a module.
#[derive(Clone, Copy)]
struct Funcs<'a> {
    module: &'a Module,
}

impl<'a> Rows<Func> for Funcs<'a> {
    ghost fault = { λ rows _. func_fault rows.module.now };

    ghost Known = { λ _. Unit {0} };

    fn fault_of(&self, _number: usize, func: &Func) -> Option<ValidWord> {
        rows::fault_of_func(self.module, func)
    }
}

// Tables that a module defines after so many imported ones.
#[derive(Clone, Copy)]
struct Tables {
    imported: usize,
}

impl Rows<Limits> for Tables {
    ghost fault = { λ rows n. table_fault (nat_eq (rows.imported + n) 0) };

    ghost Known = { λ _. Unit {0} };

    fn fault_of(&self, number: usize, limits: &Limits) -> Option<ValidWord> {
        rows::fault_of_defined_table(self.imported, number, limits)
    }
}

// Memories likewise.
#[derive(Clone, Copy)]
struct Memories {
    imported: usize,
}

impl Rows<Limits> for Memories {
    ghost fault = { λ rows n. memory_fault (nat_eq (rows.imported + n) 0) };

    ghost Known = { λ _. Unit {0} };

    fn fault_of(&self, number: usize, limits: &Limits) -> Option<ValidWord> {
        rows::fault_of_defined_memory(self.imported, number, limits)
    }
}

// Entries of a module that name others, which the scope has.
#[derive(Clone, Copy)]
struct InScope<'a> {
    module: &'a Module,
    scope: &'a Scope,
}

impl<'a> Rows<Global> for InScope<'a> {
    ghost fault = { λ rows _. global_fault rows.module.now };

    ghost Known = { λ rows. IsScopeOf rows.module.now rows.scope.now };

    fn fault_of(&self, _number: usize, global: &Global) -> Option<ValidWord> {
        rows::fault_of_global(self.module, self.scope, global)
    }
}

impl<'a> Rows<Elem> for InScope<'a> {
    ghost fault = { λ rows _. elem_fault rows.module.now };

    ghost Known = { λ rows. IsScopeOf rows.module.now rows.scope.now };

    fn fault_of(&self, _number: usize, elem: &Elem) -> Option<ValidWord> {
        rows::fault_of_elem(self.module, self.scope, elem)
    }
}

impl<'a> Rows<Segment> for InScope<'a> {
    ghost fault = { λ rows _. segment_fault rows.module.now };

    ghost Known = { λ rows. IsScopeOf rows.module.now rows.scope.now };

    fn fault_of(&self, _number: usize, segment: &Segment) -> Option<ValidWord> {
        rows::fault_of_segment(self.module, self.scope, segment)
    }
}

pub(crate) fn check_types(types: &[FuncType], places: &[usize]) -> Result<(), ValidFault>
    requires { length places.now ≡ length types.now }
    ensures { Answers (λ done. NoFault (λ n. type_fault) types.now) (FirstFault (λ n. type_fault) types.now places.now) result }
{
    check_entries(&Types, types, places)
}

pub(crate) fn check_imports(module: &Module, places: &[usize]) -> Result<(), ValidFault>
    requires { length places.now ≡ length «module».now.imports }
    ensures { Answers (λ done. NoFault (import_fault «module».now) «module».now.imports) (FirstFault (import_fault «module».now) «module».now.imports places.now) result }
{
    let mut tables: usize = 0;
    let mut memories: usize = 0;
    for (n, import) in module.imports.as_slice().iter().enumerate() {
        if let Some(word) = rows::fault_of_import(module, tables, memories, &import.kind) {
            return Err(ValidFault::Invalid {
                at: places[n],
                word,
            });
        }
        tables += table_count(&import.kind);
        memories += memory_count(&import.kind);
    }
    Ok(())
}

pub(crate) fn check_funcs(module: &Module, places: &[usize]) -> Result<(), ValidFault>
    requires { length places.now ≡ length «module».now.funcs }
    ensures { Answers (λ done. NoFault (λ n. func_fault «module».now) «module».now.funcs) (FirstFault (λ n. func_fault «module».now) «module».now.funcs places.now) result }
{
    check_entries(&Funcs { module }, module.funcs.as_slice(), places)
}

pub(crate) fn check_tables(
    module: &Module,
    imported: usize,
    places: &[usize],
) -> Result<(), ValidFault>
    requires places { length places.now ≡ length «module».now.tables }
    requires imported { imported ≡ length (filter_map (λ (i : Import). table_import i.kind) «module».now.imports) }
    ensures { Answers (λ done. NoFault (module_table_fault «module».now) «module».now.tables) (FirstFault (module_table_fault «module».now) «module».now.tables places.now) result }
{
    check_entries(&Tables { imported }, module.tables.as_slice(), places)
}

pub(crate) fn check_memories(
    module: &Module,
    imported: usize,
    places: &[usize],
) -> Result<(), ValidFault>
    requires places { length places.now ≡ length «module».now.memories }
    requires imported { imported ≡ length (filter_map (λ (i : Import). memory_import i.kind) «module».now.imports) }
    ensures { Answers (λ done. NoFault (module_memory_fault «module».now) «module».now.memories) (FirstFault (module_memory_fault «module».now) «module».now.memories places.now) result }
{
    check_entries(&Memories { imported }, module.memories.as_slice(), places)
}

pub(crate) fn check_globals(
    module: &Module,
    scope: &Scope,
    places: &[usize],
) -> Result<(), ValidFault>
    requires places { length places.now ≡ length «module».now.globals }
    requires scope { IsScopeOf «module».now scope.now }
    ensures { Answers (λ done. NoFault (λ n. global_fault «module».now) «module».now.globals) (FirstFault (λ n. global_fault «module».now) «module».now.globals places.now) result }
{
    check_entries(
        &InScope { module, scope },
        module.globals.as_slice(),
        places,
    )
}

pub(crate) fn check_elems(
    module: &Module,
    scope: &Scope,
    places: &[usize],
) -> Result<(), ValidFault>
    requires places { length places.now ≡ length «module».now.elems }
    requires scope { IsScopeOf «module».now scope.now }
    ensures { Answers (λ done. NoFault (λ n. elem_fault «module».now) «module».now.elems) (FirstFault (λ n. elem_fault «module».now) «module».now.elems places.now) result }
{
    check_entries(&InScope { module, scope }, module.elems.as_slice(), places)
}

pub(crate) fn check_segments(
    module: &Module,
    scope: &Scope,
    places: &[usize],
) -> Result<(), ValidFault>
    requires places { length places.now ≡ length «module».now.segments }
    requires scope { IsScopeOf «module».now scope.now }
    ensures { Answers (λ done. NoFault (λ n. segment_fault «module».now) «module».now.segments) (FirstFault (λ n. segment_fault «module».now) «module».now.segments places.now) result }
{
    check_entries(
        &InScope { module, scope },
        module.segments.as_slice(),
        places,
    )
}

/// Adds a name of an export, and tells whether it is a new one.
fn add_name<'a>(names: &mut BTreeSet<&'a str>, name: &'a str) -> Result<bool, ValidFault>
    ensures { Answers
        (λ is_new. (seen : List (List ℕ)) → HasTexts names.old seen → (is_new ≡ not (list_any (bytes_eq name.now) seen))
        × HasTexts names.new (seen ++ name.now ∷ []))
        (λ at w. ⊥)
        result }
{
    match names.insert(name) {
        Ok(is_new) => Ok(is_new),
        Err(_) => Err(ValidFault::OutOfMemory),
    }
}

/// The fault of an export after those of these names. Its name is added where it has none.
fn fault_of_export<'a>(
    module: &Module,
    scope: &Scope,
    names: &mut BTreeSet<&'a str>,
    export: &'a Export,
) -> Result<Option<ValidWord>, ValidFault>
    requires { IsScopeOf «module».now scope.now }
    ensures { Answers
        (λ fault. (seen : List (List ℕ)) → HasTexts names.old seen → (fault ≡ export_row «module».now seen export.now)
        × (fault ≡ None → HasTexts names.new (seen ++ export.now.name ∷ [])))
        (λ at w. ⊥)
        result }
{
    if !rows::names_some(module, scope, export.kind) {
        return Ok(Some(ValidWord::Index));
    }
    if add_name(names, export.name.as_str())? {
        Ok(None)
    } else {
        Ok(Some(ValidWord::Export))
    }
}

pub(crate) fn check_exports(
    alloc: alloc::Global,
    module: &Module,
    scope: &Scope,
    places: &[usize],
) -> Result<(), ValidFault>
    requires places { length places.now ≡ length «module».now.exports }
    requires scope { IsScopeOf «module».now scope.now }
    ensures { Answers (λ done. NoFault (export_fault «module».now) «module».now.exports) (FirstFault (export_fault «module».now) «module».now.exports places.now) result }
{
    let mut names = BTreeSet::new(alloc);
    for (n, export) in module.exports.as_slice().iter().enumerate() {
        if let Some(word) = fault_of_export(module, scope, &mut names, export)? {
            return Err(ValidFault::Invalid {
                at: places[n],
                word,
            });
        }
    }
    Ok(())
}

pub(crate) fn check_start(module: &Module, scope: &Scope, place: usize) -> Result<(), ValidFault>
    requires { IsScopeOf «module».now scope.now }
    ensures { Answers
        (λ done. IfSome «module».now.start (λ f. start_fault «module».now f ≡ None))
        (StartFault «module».now «module».now.start place)
        result }
{
    match module.start {
        Some(func) => match rows::fault_of_start(module, scope, func) {
            Some(word) => Err(ValidFault::Invalid { at: place, word }),
            None => Ok(()),
        },
        None => Ok(()),
    }
}
