// Locals that an instruction reads. A valid body has them wherever they are asked for; else they are 0.

ghost use Rattle.std.specs.Prelude.{◌≡◌, ◌<◌, length, IfOk};
ghost use Rattle.term_logic.specs.Table.{tree_at};
ghost use Rattle.term_logic.specs.Extends.{Extends};
ghost use Rattle.outline_rules.specs.Instructions.{local_of};
ghost use Rattle.symbolic_state.specs.States.{entry_at};

use symbolic_state::TrackedState;
use term_logic::TermId;
use wasm_values::{OutOfMemory, ValType};

/// The local with a number.
#[tactic(auto, using(crate::proofs::Absent::absent))]
pub(crate) fn local(state: &mut TrackedState, k: u32) -> Result<(ValType, TermId), OutOfMemory>
    ensures entry { IfOk result (λ e. entry_at state.new.terms e ≡ local_of state.old.state k) }
    ensures within { IfOk result (λ e. e.1 < length state.new.terms) }
    ensures state { IfOk result (λ _. state.new.state ≡ state.old.state) }
    ensures kept { IfOk result (λ _. Extends state.old.terms state.new.terms) }
{
    match state.local(k) {
        Some(entry) => Ok(entry),
        None => Ok((ValType::I32, state.number(0)?)),
    }
}
