// Modules of the form First.

ghost use Rattle.std.specs.Prelude.{◌≡◌, ◌↔◌, IsTrue};
ghost use Rattle.std.specs.List.{list_all};
ghost use Rattle.wasm_syntax.specs.Items.{instr_seen};
ghost use Rattle.outline_check.specs.First.{IsFirst};
ghost use Rattle.first_reader.specs.FirstTests.{is_empty_type, is_first_global, is_function, is_first_instr, is_first_item, is_first_func, are_vectors, lacks_other_parts, has_first_parts, is_first};

use wasm_syntax::{
    Code, Export, ExportKind, Func, FuncType, Global, Item, Module, Plain, Seen, Simple,
};
use wasm_validate::ValidModule;
use wasm_values::{Val, ValType};

/// A vector has fewer entries.
const MAX_ENTRIES: usize = 4_294_967_296;

fn are_vectors(m: &Module) -> bool
    ensures { result ≡ are_vectors m.now }
{
    m.types.len() < MAX_ENTRIES
        && m.funcs.len() < MAX_ENTRIES
        && m.globals.len() < MAX_ENTRIES
        && m.exports.len() < MAX_ENTRIES
}

fn lacks_other_parts(m: &Module) -> bool
    ensures { result ≡ lacks_other_parts m.now }
{
    m.imports.len() == 0
        && m.tables.len() == 0
        && m.memories.len() == 0
        && m.start.is_none()
        && m.elems.len() == 0
        && m.segments.len() == 0
}

fn are_empty_types(types: &[FuncType]) -> bool
    ensures { result ≡ list_all is_empty_type types.now }
{
    types
        .iter()
        .all(|ty| ty.params.len() == 0 && ty.results.len() == 0)
}

fn is_first_global(global: &Global) -> bool
    ensures { result ≡ is_first_global global.now }
{
    match global.ty.value {
        ValType::I32 => global.ty.mutable,
        ValType::I64 => false,
    }
}

fn are_first_globals(globals: &[Global]) -> bool
    ensures { result ≡ list_all is_first_global globals.now }
{
    globals.iter().all(|global| is_first_global(global))
}

fn is_function(kind: ExportKind) -> bool
    ensures { result ≡ is_function kind }
{
    matches!(kind, ExportKind::Func(_))
}

fn are_functions(exports: &[Export]) -> bool
    ensures { result ≡ list_all (λ export. is_function export.kind) exports.now }
{
    exports.iter().all(|export| is_function(export.kind))
}

fn is_first_instr(instr: Simple<'_>) -> bool
    ensures { result ≡ is_first_instr (instr_seen instr.entry) }
{
    match instr {
        Simple::Plain(Plain::Nop) => true,
        Simple::Plain(Plain::Drop) => true,
        Simple::Const(Val::I32(_)) => true,
        Simple::GlobalGet(_) => true,
        Simple::GlobalSet(_) => true,
        _ => false,
    }
}

fn is_first_item(item: &Item) -> bool
    ensures { result ≡ is_first_item item.now }
{
    match item.seen() {
        Seen::One(instr) => is_first_instr(instr),
        _ => false,
    }
}

/// Whether all instructions of a body are of the form.
fn is_first_body(code: &Code) -> bool
    ensures { result ≡ list_all is_first_instr code.now }
{
    let last = code.len() - 1;
    for i in 0..last {
        if !is_first_item(code.at(i)) {
            return false;
        }
    }
    true
}

fn are_first_funcs(funcs: &[Func]) -> bool
    ensures { result ≡ list_all is_first_func funcs.now }
{
    funcs
        .iter()
        .all(|func| func.locals.len() == 0 && is_first_body(&func.body))
}

fn has_first_parts(m: &Module) -> bool
    ensures { result ≡ has_first_parts m.now }
{
    are_empty_types(m.types.as_slice())
        && are_first_globals(m.globals.as_slice())
        && are_functions(m.exports.as_slice())
        && are_first_funcs(m.funcs.as_slice())
}

fn passes(m: &Module) -> bool
    ensures { result ≡ is_first m.now }
{
    are_vectors(m) && lacks_other_parts(m) && has_first_parts(m)
}

/// Whether a valid module is of the form First. Takes no memory, and one walk over the module.
pub fn is_first(module: &ValidModule) -> bool
    ensures { IsTrue result ↔ IsFirst «module».now }
{
    passes(module.module())
}
