ghost use Rattle.std.specs.Prelude.{◌≡◌, ◌+◌, ◌<◌, ◌^◌, true, length, map, slice_get, find};
ghost use Rattle.std.specs.List.{list_all, AllZip};
ghost use Rattle.std.specs.Option.{option_copied};
ghost use Rattle.wasm_syntax.specs.FlatForm.{is_simple};
ghost use Rattle.wasm_typing.specs.faults.Faults.{Marked};
ghost use Rattle.outline_check.specs.First.{IsFirst, HasPlaceEach};
ghost use Rattle.outline_check.specs.Refusals.{HasMemory, test_for, IsSaid, IsAnswer};
ghost use Rattle.outline_check.specs.Outlines.{notes_of, body_fits, notes_fit, rise_within, instructions, functions_from, initial_outline, module_outline, outline};
ghost use Rattle.outline_check.specs.Cursors.{IsCursor, AreSimple};

use crate::answer::{Answer, CheckFault, Reason};
use crate::effect::initial_state;
use crate::moves::{are_in_scope, entailed, moved};
use crate::notes::{Formula, FuncNotes, Note, Notes};
use crate::place::{answered, placed};
use crate::stop::{Refusal, Why};
use crate::walk::check_function;
use std::alloc::Global;
use wasm_syntax::{Func, Marks, Module};
use wasm_validate::ValidModule;
use wasm_values::{List, OrMemory};

fn numbers_rise(notes: &[Note], high: usize) -> bool
    ensures { result ≡ rise_within 0 high (map (λ note. note.at) notes.now) }
{
    let mut low = 0;
    for note in notes {
        let at = note.at as usize;
        if at < low || at >= high {
            return false;
        }
        low = at + 1;
    }
    true
}

fn functions_rise(notes: &[FuncNotes], high: usize) -> bool
    ensures { result ≡ rise_within 0 high (map (λ func. func.func) notes.now) }
{
    let mut low = 0;
    for func in notes {
        let at = func.func as usize;
        if at < low || at >= high {
            return false;
        }
        low = at + 1;
    }
    true
}

/// The number of instructions of a function, its last `end` counted.
fn instructions(funcs: &[Func], f: usize) -> usize
    ensures { result ≡ instructions funcs.now f }
{
    match funcs.get(f) {
        Some(func) => func.body.len(),
        None => 0,
    }
}

/// Whether the notes' numbers of instructions rise and exist.
fn bodies_fit(funcs: &[Func], notes: &[FuncNotes]) -> bool
    ensures { result ≡ list_all (body_fits funcs.now) notes.now }
{
    for func in notes {
        let high = instructions(funcs, func.func as usize);
        if !numbers_rise(func.notes.as_slice(), high) {
            return false;
        }
    }
    true
}

/// Whether the notes' numbers of functions and instructions rise and exist.
fn notes_fit(funcs: &[Func], notes: &[FuncNotes]) -> bool
    ensures { result ≡ notes_fit funcs.now notes.now }
{
    functions_rise(notes, funcs.len()) && bodies_fit(funcs, notes)
}

fn test_for(reason: Reason, met: bool) -> Result<(), OrMemory<Why>>
    ensures said { IsSaid result (test_for reason met) }
    ensures memory { HasMemory result }
{
    if met {
        Ok(())
    } else {
        Err(OrMemory::Fault(Why::Reason(reason)))
    }
}

/// The notes of function `f`, and the cursor for the next function.
fn notes_here<'a>(notes: &'a [FuncNotes], cursor: usize, f: usize) -> (&'a [Note], usize)
    requires { IsCursor (λ func. func.func) notes.now cursor f }
    ensures notes { result.0.now ≡ notes_of notes.now f }
    ensures cursor { IsCursor (λ func. func.func) notes.now result.1 (f + 1) }
{
    if cursor < notes.len() {
        let func = &notes[cursor];
        if func.func as usize == f {
            return (func.notes.as_slice(), cursor + 1);
        }
    }
    (&[], cursor)
}

/// The functions, in index order.
fn check_functions(
    alloc: Global,
    funcs: &[Func],
    globals: usize,
    notes: &Notes,
    code: &[List<usize>],
) -> Result<(), OrMemory<Refusal>>
    requires first { AreSimple funcs.now }
    requires few { length funcs.now < 2 ^ 32 }
    requires marked { AllZip HasPlaceEach funcs.now code.now }
    requires fit { notes_fit funcs.now notes.now.funcs ≡ true }
    ensures { IsSaid result (functions_from globals notes.now code.now 0 funcs.now) }
{
    let invariant = notes.invariant.formulas.as_slice();
    let mut cursor = 0;
    for f in 0..funcs.len() {
        let (own, next) = notes_here(notes.funcs.as_slice(), cursor, f);
        cursor = next;
        let func = &funcs[f];
        let places = code[f].as_slice();
        check_function(alloc, invariant, f as u32, own, places, globals, &func.body)?;
    }
    Ok(())
}

/// The initial state meets the invariant.
fn check_initial(alloc: Global, m: &Module, notes: &Notes) -> Result<(), OrMemory<Why>>
    ensures { IsSaid result (initial_outline m.now notes.now) }
{
    let state = initial_state(alloc, m.globals.as_slice())?;
    let state = moved(alloc, notes.initial.moves.as_slice(), state)?;
    let formulas = notes.invariant.formulas.as_slice();
    entailed(formulas, notes.initial.with.facts.as_slice(), &state)
}

fn check_all(
    alloc: Global,
    m: &Module,
    notes: &Notes,
    marks: &Marks,
) -> Result<(), OrMemory<Refusal>>
    requires first { IsFirst m.now }
    requires marked { Marked m.now marks.now }
    ensures { IsSaid result (module_outline m.now marks.now notes.now) }
{
    let funcs = m.funcs.as_slice();
    let globals = m.globals.len();
    let fit = notes_fit(funcs, notes.funcs.as_slice());
    placed(0, None, test_for(Reason::Notes, fit))?;
    let in_scope = are_in_scope(globals, notes.invariant.formulas.as_slice());
    placed(0, None, test_for(Reason::Scope, in_scope))?;
    check_functions(alloc, funcs, globals, notes, marks.code.as_slice())?;
    placed(marks.len, None, check_initial(alloc, m, notes))
}

/// Whether the notes are an accepted proof outline of the module, and else the first refusal.
#[tactic(auto, unfolding(crate::specs::Outlines::outline))]
pub fn check_module(
    alloc: Global,
    module: &ValidModule,
    notes: &Notes,
    marks: &Marks,
) -> Result<Answer, CheckFault>
    requires first { IsFirst «module».now }
    requires marked { Marked «module».now marks.now }
    ensures { IsAnswer result (outline «module».now marks.now notes.now) }
{
    answered(check_all(alloc, module.module(), notes, marks))
}
