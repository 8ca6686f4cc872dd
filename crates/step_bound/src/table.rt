// What is known of the bounds of a module's functions, and how more comes to be known.

ghost use Rattle.std.specs.Prelude.{◌≡◌, ℕ, ◌<◌, None, length, replicate, MatchOption, IfOk, OnOk};
ghost use Rattle.step_bound.specs.Bounds.{imported_funcs, FunctionBound};
ghost use Rattle.step_bound.specs.words.Sums.{capped, known_at};
ghost use Rattle.step_bound.specs.words.Tables.{IsRight, IsSettled, Settles, Rounds};

use crate::walk::{Calls, bound_of};
use std::alloc::Global;
use wasm_syntax::Module;
use wasm_values::{List, OutOfMemory};

/// The module whose functions' bounds are sought, and how many functions it imports.
#[derive(Clone, Copy)]
pub(crate) struct Sought<'a> {
    pub(crate) module: &'a Module,
    pub(crate) imported: usize,
}

/// Nothing is known of so many functions.
pub(crate) fn unknown(alloc: Global, count: usize) -> Result<List<Option<u64>>, OutOfMemory>
    ensures { IfOk result (λ known. known ≡ replicate count None) }
{
    let mut known = List::new(alloc);
    for _ in 0..count {
        known.push(None)?;
    }
    Ok(known)
}

/// The bound of a function of which none is known yet, if those of the functions that it calls are.
fn seek(
    alloc: Global,
    sought: &Sought<'_>,
    known: &[Option<u64>],
    k: usize,
) -> Result<Option<u64>, OutOfMemory>
    requires imported { sought.now.imported ≡ imported_funcs sought.now.module.now }
    requires right { IsRight sought.now.module.now known.now }
    requires there { k < length known.now }
    ensures { IfOk result (λ bound. MatchOption bound
        (IsSettled sought.now.module.now known.now k)
        (λ n. (known_at known.now k ≡ None) × ((b : ℕ) × FunctionBound sought.now.module.now k b × (n ≡ capped b)))) }
{
    match known[k] {
        Some(_) => Ok(None),
        None => {
            let calls = Calls {
                imported: sought.imported,
                bounds: known,
            };
            bound_of(alloc, &calls, &sought.module.funcs.as_slice()[k].body)
        }
    }
}

/// Tells whether the bound of a function has come to be known.
pub(crate) fn settle(
    alloc: Global,
    sought: &Sought<'_>,
    known: &mut List<Option<u64>>,
    k: usize,
) -> Result<bool, OutOfMemory>
    requires imported { sought.now.imported ≡ imported_funcs sought.now.module.now }
    requires right { IsRight sought.now.module.now known.old }
    requires there { k < length known.old }
    ensures right { IsRight sought.now.module.now known.new }
    ensures found { IfOk result (λ found. Settles found sought.now.module.now known.old known.new k) }
{
    match seek(alloc, sought, known.as_slice(), k)? {
        Some(bound) => {
            known.set(k, Some(bound));
            Ok(true)
        }
        None => Ok(false),
    }
}

/// Tries all functions once. Tells whether the bound of one has come to be known.
fn round(
    alloc: Global,
    sought: &Sought<'_>,
    known: &mut List<Option<u64>>,
) -> Result<bool, OutOfMemory>
    requires imported { sought.now.imported ≡ imported_funcs sought.now.module.now }
    requires right { IsRight sought.now.module.now known.old }
    ensures right { IsRight sought.now.module.now known.new }
    ensures found { IfOk result (λ found. Rounds found sought.now.module.now known.old known.new (length known.new)) }
{
    let mut found = false;
    let count = known.len();
    for k in 0..count {
        found |= settle(alloc, sought, known, k)?;
    }
    Ok(found)
}

/// Tries functions until each is settled.
pub(crate) fn settle_all(
    alloc: Global,
    sought: &Sought<'_>,
    known: &mut List<Option<u64>>,
) -> Result<(), OutOfMemory>
    requires imported { sought.now.imported ≡ imported_funcs sought.now.module.now }
    requires right { IsRight sought.now.module.now known.old }
    ensures right { IsRight sought.now.module.now known.new }
    ensures settled { OnOk result ((k : ℕ) → IsSettled sought.now.module.now known.new k) }
{
    'rounds: loop {
        if !round(alloc, sought, known)? {
            return Ok(());
        }
    }
}
