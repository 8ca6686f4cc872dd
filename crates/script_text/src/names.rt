//! Names, each of which stands once.

use indexmap::IndexSet;
use std::alloc::Global;
use std::marker::Model;
use wasm_values::OutOfMemory;

/// Names in the order in which they came, each once. Contracts see the list of them.
#[derive(Drop)]
pub struct NameTable {
    names: IndexSet<String>,
}

impl Model for NameTable {
    ghost use Rattle.std.specs.Prelude.{ℕ, List, map, string_bytes};
    ghost use Rattle.std.specs.Coded.{coded_list, coded_ℕ};

    ghost Value = { List (List ℕ) };

    ghost coded = { coded_list (coded_list coded_ℕ) };

    ghost view = { λ t. map string_bytes t.names.keys };
}

impl NameTable {
    ghost use Rattle.std.specs.Prelude.{◌≡◌, ◌<◌, [], ◌∷◌, ◌++◌, None, false, length, IfSome, IsTrue, OnOk, OnErr};
    ghost use Rattle.script_text.specs.Names.{place_in, is_among};

    /// No names. It takes no memory.
    pub fn new(alloc: Global) -> NameTable
        ensures { result ≡ [] }
    {
        NameTable {
            names: IndexSet::new(alloc),
        }
    }

    /// Where a name stands, the first having the number 0. `None` comes exactly where it isn't there.
    pub fn place_of(&self, name: &str) -> Option<usize>
        ensures place { result ≡ place_in self.now name.now }
        ensures within { IfSome result (λ i. i < length self.now) }
    {
        self.names.get_index_of(name)
    }

    /// Whether a name is there.
    pub fn has(&self, name: &str) -> bool
        ensures { result ≡ is_among self.now name.now }
    {
        self.place_of(name).is_some()
    }

    /// Adds a name that isn't there. After want of memory nothing has changed.
    pub fn push(&mut self, name: &str) -> Result<(), OutOfMemory>
        requires { is_among self.old name.now ≡ false }
        ensures ok { OnOk result (self.new ≡ self.old ++ name.now ∷ []) }
        ensures err { OnErr result (self.new ≡ self.old) }
    {
        let name = String::from_str(*self.names.allocator(), name)?;
        self.names.insert(name)?;
        Ok(())
    }
}
