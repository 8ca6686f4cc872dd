//! The private globals of a module.

ghost use Rattle.std.specs.Prelude.{◌≡◌, ℕ, IfOk, OnOk, ◌++◌, [], ◌∷◌, Some, if◌then◌else◌};
ghost use Rattle.wasm_typing.specs.Valid.{globals_of};
ghost use Rattle.escape_analysis.specs.Exposure.{stabilities_from};
ghost use Rattle.notes.specs.declared.outline.Notes.{Notes};
ghost use Rattle.outline_rules.specs.Settings.{setting, is_private, private_globals};

use escape_analysis::Stability;
use std::alloc::Global;
use wasm_syntax::{GlobalType, Module};
use wasm_values::{List, OutOfMemory, ValType};

/// A global with its number, where it is private.
fn push_private(
    privates: &mut List<(usize, ValType)>,
    number: usize,
    global: &GlobalType,
    stability: Stability,
) -> Result<(), OutOfMemory>
    ensures { OnOk result (privates.new ≡ privates.old ++ (if is_private (Some stability) then (number, global.now.value) ∷ [] else [])) }
{
    match stability {
        Stability::Private => privates.push((number, global.value)),
        _ => Ok(()),
    }
}

/// The private ones of a module's globals, in index order, each with its type.
pub(crate) fn privates_of(
    alloc: Global,
    module: &Module,
    globals: &[GlobalType],
    stabilities: &[Stability],
) -> Result<List<(usize, ValType)>, OutOfMemory>
    requires globals { globals.now ≡ globals_of «module».now }
    requires stabilities { stabilities.now ≡ stabilities_from «module».now 0 (globals_of «module».now) }
    ensures { IfOk result (λ privates. (notes : Notes) → privates ≡ private_globals (setting «module».now notes)) }
{
    let _ = module;
    let mut privates = List::new(alloc);
    for (number, global) in globals.iter().enumerate() {
        push_private(&mut privates, number, global, stabilities[number])?;
    }
    Ok(privates)
}
