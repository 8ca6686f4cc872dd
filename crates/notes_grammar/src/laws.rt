// The laws that join the grammar of notes with what reading them gives.

ghost use Rattle.std.specs.Prelude.{◌≡◌, ◌⊎◌, ℕ, List, Ok, Bool};
ghost use Rattle.sexp_text.specs.declared.fault.TextFault.{TextFault};
ghost use Rattle.sexp_text.specs.declared.sexp.Sexp.{Sexp};
ghost use Rattle.sexp_text.specs.Spelling.{SexpSpells};
ghost use Rattle.notes.specs.declared.outline.Notes.{Notes};
ghost use Rattle.notes_grammar.specs.Parts.{part_of};
ghost use Rattle.notes_grammar.specs.Printed.{notes_text};
ghost use Rattle.notes_grammar.specs.Shapes.{Setting, term, formula, chunk, assertion, with, move, take, note, function, initial};
ghost use Rattle.notes_grammar.specs.Reading.{term_in, formula_in, chunk_in, assertion_in, with_in, move_in, take_in, note_in, function_in, initial_in, notes_in};
ghost use Rattle.notes_grammar.specs.Spelling.{IsReadExactly, NotesSpell, NotesFault};

/// A part of a text is read as a value exactly where it is the value's tree by the grammar and keeps to the limits.
pub fn read_exactly()
    ensures terms { (later : Bool) → IsReadExactly (term_in later) (term later) }
    ensures formulas { (later : Bool) → IsReadExactly (formula_in later) (formula later) }
    ensures chunks { (later : Bool) → IsReadExactly (chunk_in later) (chunk later) }
    ensures assertions { (later : Bool) → IsReadExactly (assertion_in later) (assertion later) }
    ensures withs { (later : Bool) → IsReadExactly (with_in later) (with later) }
    ensures moves { (c : Setting) → IsReadExactly (move_in c) (move c) }
    ensures takes { (c : Setting) → IsReadExactly (take_in c) (take c) }
    ensures notes { (c : Setting) → IsReadExactly (note_in c) (note c) }
    ensures functions { (c : Setting) → IsReadExactly (function_in c) (function c) }
    ensures initials { (c : Setting) → IsReadExactly (initial_in c) (initial c) }
{}

/// A text spells notes exactly where it spells a list that is read as them.
pub fn spelled_is_read()
    ensures read { (text : List ℕ) (n : Notes) → NotesSpell text n → (s : Sexp) × SexpSpells text s × (notes_in (part_of s) ≡ Ok n) }
    ensures spelled { (text : List ℕ) (n : Notes) (s : Sexp) → SexpSpells text s → notes_in (part_of s) ≡ Ok n → NotesSpell text n }
{}

/// A text spells at most one value.
pub fn one_value()
    ensures { (text : List ℕ) (n m : Notes) → NotesSpell text n → NotesSpell text m → n ≡ m }
{}

/// A text spells notes, or has exactly one fault.
pub fn notes_or_fault()
    ensures some { (text : List ℕ) → ((n : Notes) × NotesSpell text n) ⊎ ((fault : TextFault) × NotesFault text fault) }
    ensures not_both { (text : List ℕ) (n : Notes) (fault : TextFault) → NotesSpell text n → NotesFault text fault → ⊥ }
    ensures one { (text : List ℕ) (d e : TextFault) → NotesFault text d → NotesFault text e → d ≡ e }
{}

/// The text that notes are printed as spells them, where some text does.
pub fn printed_again()
    ensures { (text : List ℕ) (n : Notes) → NotesSpell text n → NotesSpell (notes_text n) n }
{}
