ghost use Rattle.std.specs.Prelude.{◌≡◌, reverse, slice_set, Some};
ghost use Rattle.symbolic_state.specs.words.Entries.{with_id};

use term_logic::TermId;
use wasm_values::{List, ValType};

/// Another term for the entry with a number, if there is one.
#[tactic(auto, using(crate::proofs::Lists::entry_sets))]
pub(crate) fn set_entry(entries: &mut List<(ValType, TermId)>, k: usize, id: TermId)
    ensures { entries.new ≡ with_id entries.old k id }
{
    if k < entries.len() {
        let (ty, _) = entries.as_slice()[k];
        entries.set(k, (ty, id));
    }
}

/// The same of entries that are counted from the end.
#[tactic(auto, using(crate::proofs::Lists::last_sets))]
pub(crate) fn set_last(entries: &mut List<(ValType, TermId)>, k: usize, id: TermId)
    ensures { reverse entries.new ≡ with_id (reverse entries.old) k id }
{
    if k < entries.len() {
        let at = entries.len() - 1 - k;
        let (ty, _) = entries.as_slice()[at];
        entries.set(at, (ty, id));
    }
}

/// A term for the global with a number, if there is one.
#[tactic(auto, using(crate::proofs::Lists::global_sets))]
pub(crate) fn set_some(globals: &mut List<Option<TermId>>, k: usize, id: TermId)
    ensures { globals.new ≡ slice_set globals.old k (Some id) }
{
    if k < globals.len() {
        globals.set(k, Some(id));
    }
}
