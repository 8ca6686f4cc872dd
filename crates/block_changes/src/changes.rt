//! What code may change, as sets.

ghost use Rattle.std.specs.Prelude.{◌≡◌, IfOk};
ghost use Rattle.block_changes.specs.Seen.{changes_seen, no_changes};
ghost use Rattle.block_changes.specs.words.Gathered.{Sees};

use crate::effect::{Effect, effect_of};
use std::alloc::Global;
use std::collections::HashSet;
use wasm_syntax::Item;
use wasm_values::OutOfMemory;

/// What code may change: the locals and the globals that its instructions set, whether it has a call, and whether it has
/// `memory.grow`.
#[derive(Drop)]
pub struct ChangeSet {
    locals: HashSet<usize>,
    globals: HashSet<usize>,
    calls: bool,
    growth: bool,
}

impl ChangeSet {
    /// What code without instructions may change: nothing.
    pub fn new(alloc: Global) -> ChangeSet
        ensures { changes_seen result ≡ no_changes }
    {
        ChangeSet {
            locals: HashSet::new(alloc),
            globals: HashSet::new(alloc),
            calls: false,
            growth: false,
        }
    }

    /// What an item may change is changed too.
    #[tactic(auto, using(crate::proofs::Gathering::gathering))]
    pub(crate) fn see(&mut self, item: &Item) -> Result<(), OutOfMemory>
        ensures { IfOk result (λ _. Sees self.old self.new item.now) }
    {
        match effect_of(item) {
            Effect::Local(x) => {
                self.locals.insert(x as usize)?;
                Ok(())
            }
            Effect::Global(x) => {
                self.globals.insert(x as usize)?;
                Ok(())
            }
            Effect::Call => {
                self.calls = true;
                Ok(())
            }
            Effect::Growth => {
                self.growth = true;
                Ok(())
            }
            Effect::Nothing => Ok(()),
        }
    }

    /// Whether a local may change.
    pub fn sets_local(&self, k: usize) -> bool
        ensures { result ≡ (changes_seen self.now).locals k }
    {
        self.locals.contains(&k)
    }

    /// Whether a private global may change.
    pub fn sets_global(&self, k: usize) -> bool
        ensures { result ≡ (changes_seen self.now).globals k }
    {
        self.calls || self.globals.contains(&k)
    }

    /// Whether the page count of a private memory may change.
    pub fn may_grow(&self) -> bool
        ensures { result ≡ (changes_seen self.now).pages }
    {
        self.calls || self.growth
    }
}
