// The bounds of all functions of a module.

ghost use Rattle.std.specs.Prelude.{◌<◌, ◌^◌, ◌≡◌, ◌≤◌, length, map, count_by, IfOk};
ghost use Rattle.wasm_syntax.specs.declared.module.Import.{Import};
ghost use Rattle.step_bound.specs.Bounds.{is_function, imported_funcs};
ghost use Rattle.step_bound.specs.Told.{AreBoundsOf};
ghost use Rattle.step_bound.specs.words.Tables.{told_of};

use crate::follow::try_after_calls;
use crate::table::{Sought, settle_all, unknown};
use std::alloc::Global;
use wasm_syntax::{ImportKind, Module};
use wasm_validate::ValidModule;
use wasm_values::{List, OutOfMemory};

/// The greatest bound that is told as a number.
pub const MAX_STEPS: u64 = 1_000_000_000_000_000_000;

/// How many steps a function takes at most, from its entry until its frame has left.
#[derive(Clone, Copy, Debug, PartialEq, Eq)]
pub enum Bound {
    /// So many steps.
    Steps(u64),
    /// There is a bound, which passes `MAX_STEPS`.
    Over,
    /// A `loop`, a `call_indirect`, a call of an imported function or a recursion can be reached.
    Unbounded,
}

/// How many functions a module imports: the numbers of those that it defines begin there.
pub fn imported_funcs(module: &Module) -> usize
    ensures value { result ≡ imported_funcs «module».now }
    ensures few { result < 2 ^ 63 }
{
    module
        .imports
        .as_slice()
        .iter()
        .filter(|import| matches!(import.kind, ImportKind::Func(_)))
        .count()
}

/// What is told of a sum that stops one above the greatest bound.
fn told(known: Option<u64>) -> Bound
    ensures { result ≡ told_of known }
{
    match known {
        Some(steps) => {
            if steps <= MAX_STEPS {
                Bound::Steps(steps)
            } else {
                Bound::Over
            }
        }
        None => Bound::Unbounded,
    }
}

fn told_all(alloc: Global, known: &[Option<u64>]) -> Result<List<Bound>, OutOfMemory>
    ensures { IfOk result (λ bounds. bounds ≡ map told_of known.now) }
{
    let mut bounds = List::new(alloc);
    for bound in known {
        bounds.push(told(*bound))?;
    }
    Ok(bounds)
}

/// The bounds of the functions that a module defines, in the module's order: of each, a bound on the steps from its entry until
/// its frame has left or there is a trap.
pub fn step_bounds(alloc: Global, module: &ValidModule) -> Result<List<Bound>, OutOfMemory>
    ensures { IfOk result (λ bounds. AreBoundsOf «module».now bounds) }
{
    let module = module.module();
    let sought = Sought {
        module,
        imported: imported_funcs(module),
    };
    let mut known = unknown(alloc, module.funcs.len())?;
    try_after_calls(alloc, &sought, &mut known)?;
    settle_all(alloc, &sought, &mut known)?;
    told_all(alloc, known.as_slice())
}
