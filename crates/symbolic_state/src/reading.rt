ghost use Rattle.std.specs.Prelude.{◌≡◌, ◌<◌, ◌≤◌, [], length, map, slice_get, Ok, IfSome};
ghost use Rattle.std.specs.List.{All};
ghost use Rattle.std.specs.Option.{option_map};
ghost use Rattle.term_logic.specs.Table.{tree_at};
ghost use Rattle.term_logic.specs.Formulas.{formula_bound, formula_of};
ghost use Rattle.term_logic.specs.Leaves.{leaves_of, LeavesWithin};
ghost use Rattle.heap_logic.specs.Heaps.{chunk_of, ChunkWithin, HasWidth, AreSlots};
ghost use Rattle.outline_rules.specs.States.{settled};
ghost use Rattle.outline_rules.specs.Leaves.{state_place};
ghost use Rattle.outline_rules.specs.Instructions.{global_of};
ghost use Rattle.symbolic_state.specs.States.{entry_at, WithinLimits};

use crate::tracked::TrackedState;
use heap_logic::IdChunk;
use std::alloc::Global;
use term_logic::{IdFormula, LeafIds, TermId, TermTable};
use wasm_values::ValType;

impl TrackedState {
    /// The table that the state's terms stand in.
    pub fn table(&self) -> &TermTable
        ensures { result.now ≡ self.now.terms }
    {
        &self.table
    }

    /// The allocator of the state.
    pub fn allocator(&self) -> Global {
        self.alloc
    }

    /// How many variables there are.
    pub fn variables(&self) -> u32
        ensures { result ≡ self.now.state.vars }
    {
        self.state.heap.vars
    }

    /// How many facts there are.
    pub fn fact_count(&self) -> usize
        ensures { result ≡ length self.now.state.facts }
    {
        self.state.heap.facts.len()
    }

    /// The facts.
    pub fn facts(&self) -> &[IdFormula]
        ensures facts { map (formula_of self.now.terms) result.now ≡ self.now.state.facts }
        ensures within { All (λ f. formula_bound f ≤ length self.now.terms) result.now }
    {
        self.state.heap.facts.as_slice()
    }

    /// The fact with a number, if there is one.
    pub fn fact(&self, k: u32) -> Option<&IdFormula>
        ensures fact { option_map (λ f. formula_of self.now.terms f.now) result ≡ slice_get self.now.state.facts k }
        ensures within { IfSome result (λ f. formula_bound f.now ≤ length self.now.terms) }
    {
        self.state.heap.facts.as_slice().get(k as usize)
    }

    /// How many chunks there are.
    pub fn chunk_count(&self) -> usize
        ensures { result ≡ length self.now.state.chunks }
    {
        self.state.heap.chunks.len()
    }

    /// The chunk with a number, if there is one.
    pub fn chunk(&self, k: u32) -> Option<&IdChunk>
        ensures chunk { option_map (λ c. chunk_of self.now.terms c.now) result ≡ slice_get self.now.state.chunks k }
        ensures within { IfSome result (λ c. ChunkWithin (length self.now.terms) c.now) }
        ensures width { IfSome result (λ c. HasWidth c.now) }
    {
        self.state.heap.chunks.as_slice().get(k as usize)
    }

    /// How many locals there are.
    pub fn local_count(&self) -> usize
        ensures { result ≡ length self.now.state.locals }
    {
        self.state.locals.len()
    }

    /// The local at a place, if there is one.
    pub fn local_at(&self, k: usize) -> Option<(ValType, TermId)>
        ensures local { option_map (entry_at self.now.terms) result ≡ slice_get self.now.state.locals k }
        ensures within { IfSome result (λ e. e.1 < length self.now.terms) }
    {
        match self.state.locals.as_slice().get(k) {
            Some((ty, id)) => Some((*ty, *id)),
            None => None,
        }
    }

    /// The term of the local at a place, if there is one.
    pub(crate) fn local_term(&self, k: usize) -> Option<TermId>
        ensures term { option_map (tree_at self.now.terms) result ≡ option_map (λ e. e.1) (slice_get self.now.state.locals k) }
        ensures within { IfSome result (λ id. id < length self.now.terms) }
    {
        match self.local_at(k) {
            Some((_, id)) => Some(id),
            None => None,
        }
    }

    /// The local with a number, if there is one.
    pub fn local(&self, k: u32) -> Option<(ValType, TermId)>
        ensures local { option_map (entry_at self.now.terms) result ≡ slice_get self.now.state.locals k }
        ensures within { IfSome result (λ e. e.1 < length self.now.terms) }
    {
        self.local_at(k as usize)
    }

    /// The operand at a place, 0 being the top, if there is one.
    pub fn operand(&self, k: u32) -> Option<(ValType, TermId)>
        ensures operand { option_map (entry_at self.now.terms) result ≡ slice_get self.now.state.operands k }
        ensures within { IfSome result (λ e. e.1 < length self.now.terms) }
    {
        let stack = self.state.stack.as_slice();
        let k = k as usize;
        if k < stack.len() {
            let (ty, id) = stack[stack.len() - 1 - k];
            Some((ty, id))
        } else {
            None
        }
    }

    /// The global with a number, if there is one: its term, if it has one.
    pub(crate) fn global_entry(&self, k: usize) -> Option<Option<TermId>>
        ensures entry { option_map (option_map (tree_at self.now.terms)) result ≡ slice_get self.now.state.globals k }
        ensures within { IfSome result (λ o. IfSome o (λ id. id < length self.now.terms)) }
    {
        self.state.globals.as_slice().get(k).copied()
    }

    /// The term of the global with a number, if it has one.
    pub fn global(&self, k: u32) -> Option<TermId>
        ensures global { option_map (tree_at self.now.terms) result ≡ global_of self.now.state k }
        ensures within { IfSome result (λ id. id < length self.now.terms) }
    {
        match self.state.globals.as_slice().get(k as usize) {
            Some(id) => *id,
            None => None,
        }
    }

    /// The page count, if there is one.
    pub fn pages(&self) -> Option<TermId>
        ensures pages { option_map (tree_at self.now.terms) result ≡ self.now.state.pages }
        ensures within { IfSome result (λ id. id < length self.now.terms) }
    {
        self.state.pages
    }

    /// The terms of the parameters at entry.
    pub fn args(&self) -> &[TermId]
        ensures args { map (tree_at self.now.terms) result.now ≡ self.now.state.args }
        ensures within { All (λ id. id < length self.now.terms) result.now }
    {
        self.state.args.as_slice()
    }

    /// The terms of the precondition's own variables.
    pub fn given(&self) -> &[TermId]
        ensures given { map (tree_at self.now.terms) result.now ≡ self.now.state.given }
        ensures within { All (λ id. id < length self.now.terms) result.now }
    {
        self.state.given.as_slice()
    }

    /// The state is within the limits.
    #[tactic(auto, using(crate::proofs::Settling::settlings))]
    pub fn settled(&self)
        ensures limits { WithinLimits self.now.state }
        ensures settled { settled [] self.now.state ≡ Ok self.now.state }
    {
        let _ = &self.state;
    }
}
