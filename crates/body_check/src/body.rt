// The body of a function.

ghost use Rattle.std.specs.Prelude.{◌≡◌, ℕ, ◌<◌, ◌≤◌, List, Some, reverse, length, slice_get};
ghost use Rattle.wasm_syntax.specs.declared.module.Func.{Func};
ghost use Rattle.wasm_syntax.specs.FlatForm.{flat_body};
ghost use Rattle.wasm_syntax.specs.Trees.{sequence_of};
ghost use Rattle.wasm_typing.specs.Typing.{types_of, BodyTyped};
ghost use Rattle.wasm_typing.specs.faults.Faults.{BodyFault, BodiesValid, CodeFault};
ghost use Rattle.body_check.specs.words.Answers.{Answers, IsScopeOf, HasTypes};
ghost use Rattle.wasm_typing.specs.Valid.{FuncValid, context_of};
ghost use Rattle.body_check.specs.words.Steps.{context_in, AreNames};

use crate::names::Names;
use crate::scope::Scope;
use crate::walk::Walk;
use std::alloc::Global;
use wasm_syntax::{Func, Module};
use wasm_typing::{ValidFault, ValidWord};
use wasm_values::{List, ValType};

/// Checks the body of a function.
fn check_body(walk: &mut Walk, names: &Names<'_>, places: &[usize]) -> Result<(), ValidFault>
    requires names { AreNames names.now }
    requires places { length places.now ≡ length (flat_body names.now.func.now.body) }
    ensures { Answers
        (λ done. BodyTyped (context_in names.now) (sequence_of names.now.func.now.body))
        (BodyFault (context_in names.now) names.now.func.now.body places.now)
        result }
{
    let body = &names.func.body;
    let last = places.len() - 1;
    walk.restart();
    for n in 0..last {
        if let Some(word) = walk.advance(names, body.at(n))? {
            return Err(ValidFault::Invalid {
                at: places[n],
                word,
            });
        }
    }
    if walk.operands.finish(names.results) {
        Ok(())
    } else {
        Err(ValidFault::Invalid {
            at: places[last],
            word: ValidWord::Stack,
        })
    }
}

/// The result of a type that has at most one.
fn first_result(results: &[ValType]) -> Option<ValType>
    requires { length results.now ≤ 1 }
    ensures { types_of result ≡ reverse results.now }
{
    match results {
        [] => None,
        [ty, ..] => Some(*ty),
    }
}

/// Checks the body of one of a module's functions.
fn check_func(
    walk: &mut Walk,
    module: &Module,
    scope: &Scope,
    func: &Func,
    places: &[usize],
) -> Result<(), ValidFault>
    requires scope { IsScopeOf «module».now scope.now }
    requires types { HasTypes «module».now }
    requires known { func.now.ty < length «module».now.types }
    requires places { length places.now ≡ length (flat_body func.now.body) }
    ensures { Answers
        (λ done. FuncValid «module».now func.now)
        (BodyFault (context_of «module».now func.now) func.now.body places.now)
        result }
{
    let ty = &module.types.as_slice()[func.ty as usize];
    let names = Names {
        whole: module,
        scope,
        func,
        params: ty.params.as_slice(),
        results: first_result(ty.results.as_slice()),
    };
    check_body(walk, &names, places)
}

/// Checks the bodies of a module's functions by one walk, which keeps its room from body to body.
fn check_all(
    walk: &mut Walk,
    module: &Module,
    scope: &Scope,
    code: &[List<usize>],
) -> Result<(), ValidFault>
    requires scope { IsScopeOf «module».now scope.now }
    requires types { HasTypes «module».now }
    requires code { length code.now ≡ length «module».now.funcs }
    requires places { (n : ℕ) (f : Func) (places : List ℕ) → slice_get «module».now.funcs n ≡ Some f → slice_get code.now n ≡ Some places → length places ≡ length (flat_body f.body) }
    ensures { Answers (λ done. BodiesValid «module».now) (CodeFault «module».now code.now) result }
{
    for (n, func) in module.funcs.as_slice().iter().enumerate() {
        check_func(walk, module, scope, func, code[n].as_slice())?;
    }
    Ok(())
}

/// Checks the bodies of a module's functions, with the places of the instructions of each.
pub fn check_bodies(
    alloc: Global,
    module: &Module,
    scope: &Scope,
    code: &[List<usize>],
) -> Result<(), ValidFault>
    requires scope { IsScopeOf «module».now scope.now }
    requires types { HasTypes «module».now }
    requires code { length code.now ≡ length «module».now.funcs }
    requires places { (n : ℕ) (f : Func) (places : List ℕ) → slice_get «module».now.funcs n ≡ Some f → slice_get code.now n ≡ Some places → length places ≡ length (flat_body f.body) }
    ensures { Answers (λ done. BodiesValid «module».now) (CodeFault «module».now code.now) result }
{
    let mut walk = Walk::new(alloc);
    check_all(&mut walk, module, scope, code)
}
