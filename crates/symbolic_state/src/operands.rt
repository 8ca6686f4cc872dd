ghost use Rattle.std.specs.Prelude.{◌≡◌, ◌<◌, ◌≤◌, length, IfOk};
ghost use Rattle.outline_rules.specs.States.{popped, entry_of};
ghost use Rattle.outline_rules.specs.Instructions.{local_of};
ghost use Rattle.symbolic_state.specs.words.Entries.{PopsTerm};
ghost use Rattle.symbolic_state.specs.States.{entry_at};
ghost use Rattle.symbolic_state.specs.Growth.{Grown};

use crate::tracked::TrackedState;
use term_logic::TermId;
use wasm_values::{List, OutOfMemory, ValType};

/// Takes the last entry off: its term.
#[tactic(auto, using(crate::proofs::Lists::turned))]
fn pop_term(entries: &mut List<(ValType, TermId)>) -> Option<TermId>
    ensures { PopsTerm entries.old entries.new result }
{
    match entries.pop() {
        Some(entry) => Some(entry.1),
        None => None,
    }
}

impl TrackedState {
    /// The state without its topmost operand, if there is one.
    #[tactic(auto, using(crate::proofs::Lists::turned, crate::proofs::Counting::popping))]
    fn pop_one(&mut self)
        ensures state { self.new ≡ record self.old { state = popped 1 self.old.state } }
    {
        match pop_term(&mut self.state.stack) {
            Some(id) => self.nodes -= self.table.nodes_of(id) as usize,
            None => {}
        }
    }

    /// The state without its topmost operands, as many as there are of these.
    pub fn pop(&mut self, count: u32)
        ensures state { self.new ≡ record self.old { state = popped count self.old.state } }
        ensures kept { Grown self.old self.new }
    {
        'popping: for _ in 0..count {
            self.pop_one();
        }
    }

    /// The operand at a place, 0 being the top; where there is none the number 0, as the definitions have it.
    pub fn entry(&mut self, k: u32) -> Result<(ValType, TermId), OutOfMemory>
        ensures entry { IfOk result (λ e. entry_at self.new.terms e ≡ entry_of self.old.state k) }
        ensures within { IfOk result (λ e. e.1 < length self.new.terms) }
        ensures state { IfOk result (λ _. self.new.state ≡ self.old.state) }
        ensures kept { IfOk result (λ _. Grown self.old self.new) }
    {
        match self.operand(k) {
            Some(entry) => Ok(entry),
            None => Ok((ValType::I32, self.number(0)?)),
        }
    }

    /// The local with a number; where there is none the number 0, as the definitions have it.
    pub fn local_entry(&mut self, k: u32) -> Result<(ValType, TermId), OutOfMemory>
        ensures entry { IfOk result (λ e. entry_at self.new.terms e ≡ local_of self.old.state k) }
        ensures within { IfOk result (λ e. e.1 < length self.new.terms) }
        ensures state { IfOk result (λ _. self.new.state ≡ self.old.state) }
        ensures kept { IfOk result (λ _. Grown self.old self.new) }
    {
        match self.local(k) {
            Some(entry) => Ok(entry),
            None => Ok((ValType::I32, self.number(0)?)),
        }
    }
}
