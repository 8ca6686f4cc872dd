// A whole module, section by section in the order of the ids.

ghost use Rattle.std.specs.Prelude.{◌≡◌, ◌≤◌, length, IfSome};
ghost use Rattle.wasm_typing.specs.Valid.{tables_of, memories_of};
ghost use Rattle.wasm_typing.specs.faults.Faults.{Marked, InvalidAt, HasNoFault};
ghost use Rattle.body_check.specs.words.Answers.{Answers, IsScopeOf};

use crate::sections;
use body_check::{check_bodies, imported_memories, imported_tables, scope_of};
use std::alloc::Global;
use wasm_syntax::{Marks, Module};
use wasm_typing::ValidFault;

/// Checks all entries of a module.
pub(crate) fn check_module(alloc: Global, module: &Module, marks: &Marks) -> Result<(), ValidFault>
    requires { Marked «module».now marks.now }
    ensures { Answers (λ done. HasNoFault «module».now) (InvalidAt «module».now marks.now) result }
{
    sections::check_types(module.types.as_slice(), marks.types.as_slice())?;
    sections::check_imports(module, marks.imports.as_slice())?;
    sections::check_funcs(module, marks.funcs.as_slice())?;
    sections::check_tables(module, imported_tables(module), marks.tables.as_slice())?;
    sections::check_memories(module, imported_memories(module), marks.memories.as_slice())?;
    let scope = scope_of(alloc, module)?;
    sections::check_globals(module, &scope, marks.globals.as_slice())?;
    sections::check_exports(alloc, module, &scope, marks.exports.as_slice())?;
    sections::check_start(module, &scope, marks.start)?;
    sections::check_elems(module, &scope, marks.elems.as_slice())?;
    check_bodies(alloc, module, &scope, marks.code.as_slice())?;
    sections::check_segments(module, &scope, marks.segments.as_slice())
}
