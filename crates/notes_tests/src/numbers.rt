//! The numbers in notes.

ghost use Rattle.std.specs.Prelude.{◌≡◌, map};
ghost use Rattle.std.specs.List.{list_all};
ghost use Rattle.notes.specs.declared.outline.Note.{Note};
ghost use Rattle.notes.specs.declared.outline.FuncNotes.{FuncNotes};
ghost use Rattle.outline_rules.specs.Tests.{rise_within, instruction_count, are_numbers_right, are_notes_right};

use notes::{FuncNotes, Note};
use outline_setting::Setting;

/// Whether the numbers of functions rise, from `low` on, and stay below `high`.
fn funcs_rise(low: usize, high: usize, funcs: &[FuncNotes]) -> bool
    ensures { result ≡ rise_within low high (map (λ (n : FuncNotes). n.func) funcs.now) }
{
    let mut least = low;
    for notes in funcs {
        let number = notes.func as usize;
        if number < least || number >= high {
            return false;
        }
        least = number + 1;
    }
    true
}

/// Whether the numbers of instructions rise, and stay below `high`.
fn instructions_rise(high: usize, notes: &[Note]) -> bool
    ensures { result ≡ rise_within 0 high (map (λ (n : Note). n.at) notes.now) }
{
    let mut least: usize = 0;
    for note in notes {
        let number = note.at as usize;
        if number < least || number >= high {
            return false;
        }
        least = number + 1;
    }
    true
}

/// How many instructions a function's body has, `else` and `end` and its last `end` counted.
#[tactic(auto, using(crate::proofs::Counting::counted))]
pub fn instruction_count(setting: &Setting<'_>, func: u32) -> usize
    ensures { result ≡ instruction_count setting.now func }
{
    match setting.defined_func(func) {
        Some(func) => func.body.len(),
        None => 1,
    }
}

/// Whether the instruction numbers in the notes of a function rise and exist.
fn are_numbers_right(setting: &Setting<'_>, notes: &FuncNotes) -> bool
    ensures { result ≡ are_numbers_right setting.now notes.now }
{
    instructions_rise(
        instruction_count(setting, notes.func),
        notes.notes.as_slice(),
    )
}

/// Whether the instruction numbers in the notes of functions do.
fn are_all_right(setting: &Setting<'_>, funcs: &[FuncNotes]) -> bool
    ensures { result ≡ list_all (are_numbers_right setting.now) funcs.now }
{
    for notes in funcs {
        if !are_numbers_right(setting, notes) {
            return false;
        }
    }
    true
}

/// Whether the functions in the notes are defined and rise, and the instruction numbers rise and exist.
#[tactic(auto, using(crate::proofs::Counting::functions_end))]
pub fn are_notes_right(setting: &Setting<'_>) -> bool
    ensures { result ≡ are_notes_right setting.now }
{
    let funcs = setting.notes().funcs.as_slice();
    funcs_rise(setting.imported_funcs(), setting.func_count(), funcs)
        && are_all_right(setting, funcs)
}
