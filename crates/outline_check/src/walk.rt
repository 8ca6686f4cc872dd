ghost use Rattle.std.specs.Prelude.{◌≡◌, ◌+◌, ◌<◌, true, ◌∷◌, length, map, drop};
ghost use Rattle.std.specs.List.{list_all};
ghost use Rattle.std.specs.Option.{option_copied};
ghost use Rattle.wasm_syntax.specs.FlatForm.{is_simple, flat_body};
ghost use Rattle.wasm_syntax.specs.Items.{instr_seen};
ghost use Rattle.outline_check.specs.Refusals.{IsSaid};
ghost use Rattle.outline_check.specs.Outlines.{note_at, rise_within, run_from, function_outline};
ghost use Rattle.outline_check.specs.Cursors.{IsCursor};

use crate::effect::entered;
use crate::moves::{ended, stepped};
use crate::notes::{Formula, Note};
use crate::place::placed;
use crate::state::State;
use crate::stop::Refusal;
use std::alloc::Global;
use wasm_syntax::{Code, Seen, Simple};
use wasm_values::OrMemory;

fn instr_at(code: &Code, i: usize) -> Simple<'_>
    requires simple { list_all is_simple code.now ≡ true }
    requires within { i < length code.now }
    ensures { drop i code.now ≡ instr_seen result ∷ drop (i + 1) code.now }
{
    match code.at(i).seen() {
        Seen::One(instr) => instr,
        _ => unreachable!(),
    }
}

/// The note of instruction `i`, and the cursor for the next instruction.
fn note_here<'a>(notes: &'a [Note], cursor: usize, i: usize) -> (Option<&'a Note>, usize)
    requires { IsCursor (λ note. note.at) notes.now cursor i }
    ensures note { option_copied result.0 ≡ note_at notes.now i }
    ensures cursor { IsCursor (λ note. note.at) notes.now result.1 (i + 1) }
{
    if cursor < notes.len() {
        let note = &notes[cursor];
        if note.at as usize == i {
            return (Some(note), cursor + 1);
        }
    }
    (None, cursor)
}

/// The instructions of a function, and its end.
fn run(
    alloc: Global,
    invariant: &[Formula],
    function: u32,
    notes: &[Note],
    places: &[usize],
    code: &Code,
    mut state: State,
) -> Result<(), OrMemory<Refusal>>
    requires simple { list_all is_simple code.now ≡ true }
    requires notes { IsCursor (λ note. note.at) notes.now 0 0 }
    requires places { length places.now ≡ length (flat_body code.now) }
    ensures { IsSaid result (run_from invariant.now function notes.now places.now 0 code.now state) }
{
    let last = code.len() - 1;
    let mut cursor = 0;
    for i in 0..last {
        let (note, next) = note_here(notes, cursor, i);
        cursor = next;
        let stepped = stepped(alloc, note, instr_at(code, i), state);
        state = placed(places[i], Some(function), stepped)?;
    }
    let (note, _) = note_here(notes, cursor, last);
    placed(
        places[last],
        Some(function),
        ended(alloc, invariant, note, state),
    )
}

/// A function with this code, in a module of so many globals.
pub fn check_function(
    alloc: Global,
    invariant: &[Formula],
    function: u32,
    notes: &[Note],
    places: &[usize],
    globals: usize,
    code: &Code,
) -> Result<(), OrMemory<Refusal>>
    requires simple { list_all is_simple code.now ≡ true }
    requires notes { rise_within 0 (length (flat_body code.now)) (map (λ note. note.at) notes.now) ≡ true }
    requires places { length places.now ≡ length (flat_body code.now) }
    ensures { IsSaid result (function_outline invariant.now function notes.now places.now globals code.now) }
{
    let state = placed(
        places[0],
        Some(function),
        entered(alloc, globals, invariant),
    )?;
    run(alloc, invariant, function, notes, places, code, state)
}
