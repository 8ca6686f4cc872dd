// The first condition of an entry that fails.

ghost use Rattle.std.specs.Prelude.{◌≡◌, ◌+◌, length, slice_get, Some, is_some, IsTrue, nat_lt, nat_eq, [], ◌∷◌, if◌then◌else◌};
ghost use Rattle.std.specs.List.{list_all};
ghost use Rattle.wasm_syntax.specs.declared.module.Module.{Module};
ghost use Rattle.wasm_typing.specs.Valid.{const_type, table_import, memory_import};
ghost use Rattle.wasm_typing.specs.faults.Faults.{first_failing, condition, type_fault, table_fault, memory_fault, import_row, func_fault, global_fault, start_fault, elem_fault, segment_fault, names_one, has_type};
ghost use Rattle.body_check.specs.words.Answers.{IsScopeOf};

use body_check::Scope;
use wasm_syntax::{
    Elem, ExportKind, Func, FuncType, Global, GlobalType, ImportKind, Instr, Limits, Module,
    Segment,
};
use wasm_typing::ValidWord;
use wasm_values::{Val, ValType, is_at_most, is_same_type};

pub(crate) fn fault_of_type(ty: &FuncType) -> Option<ValidWord>
    ensures { result ≡ type_fault ty.now }
{
    if ty.results.len() <= 1 {
        None
    } else {
        Some(ValidWord::WrongType)
    }
}

pub(crate) fn fault_of_table(is_first: bool, limits: &Limits) -> Option<ValidWord>
    ensures { result ≡ table_fault is_first limits.now }
{
    if !is_first {
        return Some(ValidWord::Count);
    }
    if is_at_most(limits.min as usize, limits.max) {
        None
    } else {
        Some(ValidWord::Limits)
    }
}

pub(crate) fn fault_of_memory(is_first: bool, limits: &Limits) -> Option<ValidWord>
    ensures { result ≡ memory_fault is_first limits.now }
{
    if !is_first {
        return Some(ValidWord::Count);
    }
    let fits = match limits.max {
        Some(max) => limits.min <= max && limits.min <= 65_536 && max <= 65_536,
        None => limits.min <= 65_536,
    };
    if fits { None } else { Some(ValidWord::Limits) }
}

/// The n-th table that the module defines, after so many imported ones.
pub(crate) fn fault_of_defined_table(
    imported: usize,
    n: usize,
    limits: &Limits,
) -> Option<ValidWord>
    ensures { result ≡ table_fault (nat_eq (imported + n) 0) limits.now }
{
    fault_of_table(imported == 0 && n == 0, limits)
}

/// The n-th memory that the module defines, after so many imported ones.
pub(crate) fn fault_of_defined_memory(
    imported: usize,
    n: usize,
    limits: &Limits,
) -> Option<ValidWord>
    ensures { result ≡ memory_fault (nat_eq (imported + n) 0) limits.now }
{
    fault_of_memory(imported == 0 && n == 0, limits)
}

/// `index` where there is no type with this number.
pub(crate) fn fault_of_number(number: u32, count: usize) -> Option<ValidWord>
    ensures { result ≡ first_failing (condition (nat_lt number count) ValidWord.Index ∷ []) }
{
    if (number as usize) < count {
        None
    } else {
        Some(ValidWord::Index)
    }
}

/// An import after so many tables and memories.
pub(crate) fn fault_of_import(
    module: &Module,
    tables: usize,
    memories: usize,
    kind: &ImportKind,
) -> Option<ValidWord>
    ensures { result ≡ import_row (length «module».now.types) (nat_eq tables 0) (nat_eq memories 0) kind.now }
{
    match kind {
        ImportKind::Func(ty) => fault_of_number(*ty, module.types.len()),
        ImportKind::Table(limits) => fault_of_table(tables == 0, limits),
        ImportKind::Memory(limits) => fault_of_memory(memories == 0, limits),
        ImportKind::Global(_) => None,
    }
}

pub(crate) fn fault_of_func(module: &Module, func: &Func) -> Option<ValidWord>
    ensures { result ≡ func_fault «module».now func.now }
{
    fault_of_number(func.ty, module.types.len())
}

/// The type of a constant expression over these globals, if it is one.
pub(crate) fn type_of_const(globals: &[GlobalType], instrs: &[Instr]) -> Option<ValType>
    ensures { result ≡ const_type globals.now instrs.now }
{
    match instrs {
        [Instr::Const(Val::I32(_))] => Some(ValType::I32),
        [Instr::Const(Val::I64(_))] => Some(ValType::I64),
        [Instr::GlobalGet(x)] => match globals.get(*x as usize) {
            Some(global) => {
                if global.mutable {
                    None
                } else {
                    Some(global.value)
                }
            }
            None => None,
        },
        _ => None,
    }
}

fn is_typed(found: Option<ValType>, wanted: ValType) -> bool
    ensures { result ≡ has_type found wanted }
{
    match found {
        Some(ty) => is_same_type(ty, wanted),
        None => false,
    }
}

pub(crate) fn fault_of_global(module: &Module, scope: &Scope, global: &Global) -> Option<ValidWord>
    requires { IsScopeOf «module».now scope.now }
    ensures { result ≡ global_fault «module».now global.now }
{
    let ty = type_of_const(&scope.imported, global.init.as_slice());
    if ty.is_none() {
        return Some(ValidWord::Const);
    }
    if is_typed(ty, global.ty.value) {
        None
    } else {
        Some(ValidWord::WrongType)
    }
}

/// Whether what is exported exists.
pub(crate) fn names_some(module: &Module, scope: &Scope, kind: ExportKind) -> bool
    requires { IsScopeOf «module».now scope.now }
    ensures { result ≡ names_one «module».now kind }
{
    match kind {
        ExportKind::Func(f) => (f as usize) < scope.funcs.len(),
        ExportKind::Table(t) => (t as usize) < scope.tables,
        ExportKind::Memory(m) => (m as usize) < scope.memories,
        ExportKind::Global(g) => (g as usize) < scope.globals.len(),
    }
}

pub(crate) fn fault_of_start(module: &Module, scope: &Scope, func: u32) -> Option<ValidWord>
    requires { IsScopeOf «module».now scope.now }
    ensures { result ≡ start_fault «module».now func }
{
    match scope.funcs.get(func as usize) {
        Some(ty) => match module.types.as_slice().get(*ty as usize) {
            Some(ty) => {
                if ty.params.len() == 0 && ty.results.len() == 0 {
                    None
                } else {
                    Some(ValidWord::Start)
                }
            }
            None => None,
        },
        None => Some(ValidWord::Index),
    }
}

fn all_below(numbers: &[u32], end: usize) -> bool
    ensures { result ≡ list_all (λ f. nat_lt f end) numbers.now }
{
    numbers.iter().all(|f| (*f as usize) < end)
}

pub(crate) fn fault_of_elem(module: &Module, scope: &Scope, elem: &Elem) -> Option<ValidWord>
    requires { IsScopeOf «module».now scope.now }
    ensures { result ≡ elem_fault «module».now elem.now }
{
    if elem.table as usize >= scope.tables {
        return Some(ValidWord::Index);
    }
    let ty = type_of_const(&scope.globals, elem.offset.as_slice());
    if ty.is_none() {
        return Some(ValidWord::Const);
    }
    if !is_typed(ty, ValType::I32) {
        return Some(ValidWord::WrongType);
    }
    if all_below(elem.funcs.as_slice(), scope.funcs.len()) {
        None
    } else {
        Some(ValidWord::Index)
    }
}

pub(crate) fn fault_of_segment(
    module: &Module,
    scope: &Scope,
    segment: &Segment,
) -> Option<ValidWord>
    requires { IsScopeOf «module».now scope.now }
    ensures { result ≡ segment_fault «module».now segment.now }
{
    if segment.memory as usize >= scope.memories {
        return Some(ValidWord::Index);
    }
    let ty = type_of_const(&scope.globals, segment.offset.as_slice());
    if ty.is_none() {
        return Some(ValidWord::Const);
    }
    if is_typed(ty, ValType::I32) {
        None
    } else {
        Some(ValidWord::WrongType)
    }
}
