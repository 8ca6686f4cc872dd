// Whole notes, and their texts.

ghost use Rattle.std.specs.Prelude.{◌≡◌, ◌⊎◌, ℕ, [], List as Bytes, Result, Ok, Err, IfOk, IfErr};
ghost use Rattle.sexp_text.specs.declared.fault.TextFault.{TextFault as Fault};
ghost use Rattle.sexp_text.specs.Reading.{Gives};
ghost use Rattle.notes.specs.declared.outline.FuncNotes.{FuncNotes as NotesOfFunction};
ghost use Rattle.notes.specs.declared.outline.Notes.{Notes as Spelled};
ghost use Rattle.notes_grammar.specs.Parts.{part_of, parts_of};
ghost use Rattle.notes_grammar.specs.Printed.{notes_text};
ghost use Rattle.notes_grammar.specs.Reading.{version, notes_in};
ghost use Rattle.notes_grammar.specs.Spelling.{NotesSpell, NotesFault};
ghost use Rattle.annot_text.specs.words.Texts.{IsRead};
ghost use Rattle.annot_text.specs.words.Wholes.{Front as Seen, rest_read, with_lemmas, behind_version};

use crate::functions::{Functions, Initials};
use crate::lemmas::lemmas_of;
use notes::{Assertion, FuncNotes, Initial, Lemma, Notes};
use notes_moves::{Assertions, joined};
use notes_parts::{Context, form, next, place, small, tagged};
use notes_terms::{entries, two_fields};
use sexp_text::{Sexp, TextFault, read_sexp};
use std::alloc::Global;
use wasm_values::List;

/// The invariant and the initial part.
type Front = (Assertion, Initial);

/// Whether notes are of version 2.
#[tactic(auto, unfolding(notes_grammar::specs::Reading::version))]
fn read_version(part: &Sexp) -> Result<bool, TextFault>
    ensures { Gives (λ b. b) result (version (part_of part.now)) }
{
    let n = small(part)?;
    if n == 1 {
        return Ok(false);
    }
    if n == 2 {
        return Ok(true);
    }
    form(place(part))
}

/// What stands behind the lemmas: the invariant, the initial part, and the notes of functions.
fn read_rest(
    alloc: Global,
    context: &Context,
    close: usize,
    parts: &[Sexp],
) -> Result<(Front, List<FuncNotes>), TextFault>
    ensures { Gives (λ x. x) result (rest_read context.now close (parts_of parts.now)) }
{
    let (invariant, initial, rest) = two_fields::<Assertion, Assertions, Initial, Initials>(
        alloc, context, close, parts,
    )?;
    joined(
        (invariant, initial),
        entries::<FuncNotes, Functions>(alloc, context, rest),
    )
}

/// The notes of their parts, where what is behind the lemmas is read.
fn with_lemmas(
    lemmas: List<Lemma>,
    rest: Result<(Front, List<FuncNotes>), TextFault>,
) -> Result<Notes, TextFault>
    ensures { (said : Result (Seen × Bytes NotesOfFunction) Fault) → Gives (λ x. x) rest said → Gives (λ n. n) result (with_lemmas lemmas said) }
{
    match rest {
        Ok(((invariant, initial), funcs)) => Ok(Notes {
            invariant,
            initial,
            funcs,
            lemmas,
        }),
        Err(fault) => Err(fault),
    }
}

/// The notes whose parts behind the version are these.
fn behind_version(
    alloc: Global,
    context: &mut Context,
    close: usize,
    parts: &[Sexp],
) -> Result<Notes, TextFault>
    requires { context.old.names ≡ [] }
    ensures { Gives (λ n. n) result (behind_version context.old.later close (parts_of parts.now)) }
{
    let (lemmas, rest) = lemmas_of(alloc, context, parts)?;
    with_lemmas(lemmas, read_rest(alloc, context, close, rest))
}

/// The notes that a text's value is.
#[tactic(auto, unfolding(notes_grammar::specs::Reading::notes_in))]
fn read_tree(alloc: Global, part: &Sexp) -> Result<Notes, TextFault>
    ensures { Gives (λ n. n) result (notes_in (part_of part.now)) }
{
    let (parts, close) = tagged("notes", part)?;
    let (first, rest) = next(close, parts)?;
    let later = read_version(first)?;
    let mut context = Context::new(alloc, later);
    behind_version(alloc, &mut context, close, rest)
}

/// The notes of a text, with one clause for all that is answered.
fn read_whole(alloc: Global, text: &[u8]) -> Result<Notes, TextFault>
    ensures { IsRead text.now result }
{
    match read_sexp(alloc, text) {
        Ok(part) => read_tree(alloc, &part),
        Err(fault) => Err(fault),
    }
}

/// The notes that the text spells, in version 1 or 2, or its fault: that of its list where it spells none, else the first in
/// the order of the text.
pub fn read_notes(alloc: Global, text: &[u8]) -> Result<Notes, TextFault>
    // What is read is spelled so.
    ensures found { IfOk result (NotesSpell text.now) }

    // What is spelled so is read, unless memory runs out.
    ensures only { (n : Spelled) → NotesSpell text.now n → Gives (λ r. r) result (Ok n) }

    // A refusal is the text's fault, or want of memory.
    ensures fault { IfErr result (λ e. (e ≡ TextFault.OutOfMemory) ⊎ NotesFault text.now e) }

    // Where the text has a fault, it is answered, unless memory runs out.
    ensures refused { (e : Fault) → NotesFault text.now e → Gives (λ r. r) result (Err e) }

    // What was printed of notes that some text spells is read again as the same notes.
    ensures again { (n : Spelled) (other : Bytes ℕ) → NotesSpell other n → text.now ≡ notes_text n → Gives (λ r. r) result (Ok n) }
{
    read_whole(alloc, text)
}
