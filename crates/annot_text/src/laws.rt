// The law that joins reading and printing.

ghost use Rattle.std.specs.Prelude.{◌≡◌, ℕ, List};
ghost use Rattle.notes.specs.declared.outline.Notes.{Notes};
ghost use Rattle.notes_grammar.specs.Printed.{notes_text};
ghost use Rattle.notes_grammar.specs.Spelling.{NotesSpell};

/// The text that notes are printed as is read again as the same notes, where some text spells them.
pub fn printed_is_read()
    // It spells them,
    ensures spelled { (text : List ℕ) (n : Notes) → NotesSpell text n → NotesSpell (notes_text n) n }

    // and no other notes.
    ensures alone { (text : List ℕ) (n m : Notes) → NotesSpell text n → NotesSpell (notes_text n) m → m ≡ n }
{}
