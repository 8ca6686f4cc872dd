// What notes are read in.

use indexmap::IndexSet;
use std::alloc::Global;
use std::marker::Model;
use wasm_values::OutOfMemory;

/// The version of the notes that are read, and the names of the lemmas so far.
#[derive(Drop)]
pub struct Context {
    later: bool,
    names: IndexSet<String>,
}

impl Model for Context {
    ghost use Rattle.std.specs.Prelude.{string_bytes, map};
    ghost use Rattle.notes_grammar.specs.Shapes.{Setting};

    ghost Value = { Setting };

    ghost view = { λ c. record { later = c.later; names = map string_bytes c.names.keys } };
}

impl Context {
    ghost use Rattle.std.specs.Prelude.{◌≡◌, [], ◌∷◌, ◌++◌, false, position, OnOk};
    ghost use Rattle.notes_grammar.specs.Words.{same_word};
    ghost use Rattle.notes_grammar.specs.Shapes.{is_among};

    /// Notes without lemmas so far. It takes no memory.
    pub fn new(alloc: Global, later: bool) -> Context
        ensures { result ≡ record { later = later; names = [] } }
    {
        Context {
            later,
            names: IndexSet::new(alloc),
        }
    }

    /// Whether the notes are of version 2.
    pub fn is_later(&self) -> bool
        ensures { result ≡ self.now.later }
    {
        self.later
    }

    /// Where a name stands among those of the lemmas, the first having the number 0.
    fn place_of(&self, name: &str) -> Option<usize>
        ensures { result ≡ position (same_word name.now) self.now.names }
    {
        self.names.get_index_of(name)
    }

    /// Whether a lemma has this name.
    pub fn has(&self, name: &str) -> bool
        ensures { result ≡ is_among self.now.names name.now }
    {
        self.place_of(name).is_some()
    }

    /// Adds a name that no lemma has.
    pub fn push(&mut self, name: &str) -> Result<(), OutOfMemory>
        requires { is_among self.old.names name.now ≡ false }
        ensures names { OnOk result (self.new.names ≡ self.old.names ++ name.now ∷ []) }
        ensures later { self.new.later ≡ self.old.later }
    {
        let name = String::from_str(*self.names.allocator(), name)?;
        self.names.insert(name)?;
        Ok(())
    }
}
