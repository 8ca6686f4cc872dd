// Types of functions that calls name.

ghost use Rattle.std.specs.Prelude.{◌≡◌, None};
ghost use Rattle.wasm_typing.specs.Valid.{type_or_none, type_at};
ghost use Rattle.outline_rules.specs.Settings.{result_type_of};

use std::alloc::Global;
use wasm_syntax::FuncType;
use wasm_values::{List, ValType};

/// The type `[] -> []`, which stands for one that there isn't.
pub(crate) fn no_type(alloc: Global) -> FuncType
    ensures { result ≡ type_or_none None }
{
    FuncType {
        params: List::new(alloc),
        results: List::new(alloc),
    }
}

/// The type with a number; where there is none the one that is lent too.
pub(crate) fn type_at<'a>(types: &'a [FuncType], x: u32, nothing: &'a FuncType) -> &'a FuncType
    requires { nothing.now ≡ type_or_none None }
    ensures { result.now ≡ type_at types.now x }
{
    match types.get(x as usize) {
        Some(ty) => ty,
        None => nothing,
    }
}

/// The type of the result, where there is one.
pub(crate) fn result_type_of(ty: &FuncType) -> Option<ValType>
    ensures { result ≡ result_type_of ty.now }
{
    ty.results.as_slice().get(0).copied()
}
