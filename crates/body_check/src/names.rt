ghost use Rattle.std.specs.Prelude.{◌≡◌, slice_get, option_map};
ghost use Rattle.body_check.specs.words.Steps.{context_in, AreNames};

use crate::scope::Scope;
use wasm_syntax::{Func, FuncType, GlobalType, Module};
use wasm_values::ValType;

/// What the body of a function may name.
#[derive(Clone, Copy)]
pub struct Names<'a> {
    pub whole: &'a Module,
    pub scope: &'a Scope,
    pub func: &'a Func,
    pub params: &'a [ValType],
    pub results: Option<ValType>,
}

/// The type of a local.
pub(crate) fn local_type(names: &Names<'_>, x: u32) -> Option<ValType>
    requires { AreNames names.now }
    ensures { result ≡ slice_get (context_in names.now).locals x }
{
    let x = x as usize;
    if x < names.params.len() {
        Some(names.params[x])
    } else {
        names
            .func
            .locals
            .as_slice()
            .get(x - names.params.len())
            .copied()
    }
}

/// The type of a global.
pub(crate) fn global_type(names: &Names<'_>, x: u32) -> Option<GlobalType>
    requires { AreNames names.now }
    ensures { result ≡ slice_get (context_in names.now).globals x }
{
    names.scope.globals.get(x as usize).copied()
}

/// The type of a function.
pub(crate) fn func_type<'a>(names: &Names<'a>, f: u32) -> Option<&'a FuncType>
    requires { AreNames names.now }
    ensures { option_map (λ ty. ty.now) result ≡ slice_get (context_in names.now).funcs f }
{
    match names.scope.funcs.get(f as usize) {
        Some(ty) => Some(&names.whole.types.as_slice()[*ty as usize]),
        None => None,
    }
}

/// The type with a number.
pub(crate) fn numbered_type<'a>(names: &Names<'a>, t: u32) -> Option<&'a FuncType>
    ensures { option_map (λ ty. ty.now) result ≡ slice_get (context_in names.now).types t }
{
    names.whole.types.as_slice().get(t as usize)
}
