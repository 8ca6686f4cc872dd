// The notes of a function.

ghost use Rattle.std.specs.Prelude.{◌≡◌, ℕ, IfOk, IsTrue};
ghost use Rattle.std.specs.List.{list_all};
ghost use Rattle.std.specs.Option.{option_map};
ghost use Rattle.notes.specs.WellFormed.{well_formed_notes, well_formed_note, well_formed_move, well_formed_use};
ghost use Rattle.outline_rules.specs.Settings.{Setting, notes_of};
ghost use Rattle.outline_rules.specs.Uses.{moves_of, use_of, moves_at, use_at};
ghost use Rattle.function_notes.specs.Noted.{noted_in, noted_at, IsNotesOf};

use crate::noted::places_of;
use notes::{Move, Note, Use};
use outline_setting::Setting;
use std::alloc::Global;
use std::collections::HashMap;
use std::marker::Model;
use wasm_values::OutOfMemory;

/// The notes of a function. Beside them stands where each instruction's note is.
#[derive(Drop)]
pub struct FunctionNotes<'a> {
    notes: &'a [Note],
    places: HashMap<u32, usize>,
    nothing: Use,
}

impl<'a> Model for FunctionNotes<'a> {
    ghost use Rattle.std.specs.Prelude.{List, nat_eq};
    ghost use Rattle.std.specs.Coded.{coded_list};
    ghost use Rattle.std.specs.HashMap.{get};
    ghost use Rattle.notes.specs.declared.outline.Note.{Note};
    ghost use Rattle.notes.specs.contracts.outline.Note as of_note;
    ghost use Rattle.function_notes.specs.words.Kept.{IsKept};

    ghost Value = { List Note };

    ghost coded = { coded_list of_note.the_row.coded };

    ghost view = { λ n. n.notes.now };

    ghost invariant = { λ n. IsKept n.notes.now (get nat_eq n.places) n.nothing };
}

/// The notes that there are of a function.
fn noted<'a>(setting: &Setting<'a>, func: u32) -> &'a [Note]
    requires { IsTrue (well_formed_notes setting.now.notes) }
    ensures notes { result.now ≡ noted_in (notes_of setting.now func) }
    ensures well_formed { IsTrue (list_all well_formed_note result.now) }
{
    match setting.notes_of(func) {
        Some(notes) => notes.notes.as_slice(),
        None => &[],
    }
}

impl<'a> FunctionNotes<'a> {
    /// The notes of a function with a number, and a table of their places.
    pub fn new(
        alloc: Global,
        setting: &Setting<'a>,
        func: u32,
    ) -> Result<FunctionNotes<'a>, OutOfMemory>
        requires { IsTrue (well_formed_notes setting.now.notes) }
        ensures notes { IfOk result (λ notes. IsNotesOf setting.now func notes) }
        ensures well_formed { IfOk result (λ notes. IsTrue (list_all well_formed_note notes)) }
    {
        let notes = noted(setting, func);
        let places = places_of(alloc, notes)?;
        Ok(FunctionNotes {
            notes,
            places,
            nothing: Use::Nothing,
        })
    }

    /// The note of an instruction, if it has one: the first with its number.
    fn note(&self, number: u32) -> Option<&'a Note>
        ensures { option_map (λ note. note.now) result ≡ noted_at self.now number }
    {
        match self.places.get(&number) {
            Some(place) => self.notes.get(*place),
            None => None,
        }
    }

    /// The moves before an instruction.
    #[tactic(auto, using(crate::proofs::Found::notings))]
    pub fn moves_at(&self, number: u32) -> &'a [Move]
        requires { IsTrue (list_all well_formed_note self.now) }
        ensures moves { (c : Setting) (f : ℕ) → IsNotesOf c f self.now → result.now ≡ moves_at c f number }
        ensures well_formed { IsTrue (list_all well_formed_move result.now) }
    {
        match self.note(number) {
            Some(note) => note.moves.as_slice(),
            None => &[],
        }
    }

    /// What the note says at an instruction; nothing, where there is no note.
    #[tactic(auto, using(crate::proofs::Found::notings))]
    pub fn use_at(&self, number: u32) -> &Use
        requires { IsTrue (list_all well_formed_note self.now) }
        ensures used { (c : Setting) (f : ℕ) → IsNotesOf c f self.now → result.now ≡ use_at c f number }
        ensures well_formed { IsTrue (well_formed_use result.now) }
    {
        match self.note(number) {
            Some(note) => &note.used,
            None => &self.nothing,
        }
    }
}
