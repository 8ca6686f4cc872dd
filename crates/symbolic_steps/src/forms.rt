// The forms of uses.

ghost use Rattle.std.specs.Prelude.{◌≡◌, None, option_map, IfOk, IsTrue};
ghost use Rattle.std.specs.List.{list_all};
ghost use Rattle.wasm_values.specs.Answers.{Gives};
ghost use Rattle.notes.specs.WellFormed.{well_formed_use, well_formed_with, well_formed_take, well_formed_assertion};
ghost use Rattle.outline_rules.specs.Uses.{unused, with_of, cell_of, trap_of, take_of, table_of, both_of, label_of, loop_of, skip_of};
ghost use Rattle.symbolic_state.specs.Refused.{refusal_of};
ghost use Rattle.symbolic_steps.specs.words.Withs.{with_or_empty};

use notes::{Assertion, Reason, Take, Use, With};
use std::alloc::Global;
use symbolic_state::Refused;
use wasm_values::List;

/// No use.
pub fn unused(used: &Use) -> Result<(), Refused>
    ensures { Gives refusal_of (λ _. tt) result (unused used.now) }
{
    match used {
        Use::Nothing => Ok(()),
        _ => Err(Refused::Reason(Reason::Use)),
    }
}

/// A `cell`: the number of a chunk.
pub fn cell_of(used: &Use) -> Result<u32, Refused>
    ensures { Gives refusal_of (λ k. k) result (cell_of used.now) }
{
    match used {
        Use::Cell(k) => Ok(*k),
        _ => Err(Refused::Reason(Reason::Use)),
    }
}

/// The `with` that a missing one counts as.
pub fn empty_with(alloc: Global) -> With
    ensures same { result ≡ with_or_empty None }
    ensures well_formed { IsTrue (well_formed_with result) }
{
    With {
        terms: List::new(alloc),
        facts: List::new(alloc),
        chunks: List::new(alloc),
    }
}

/// A `with`. Where there is no use there is none, and it counts as the empty one.
pub fn with_of(used: &Use) -> Result<Option<&With>, Refused>
    requires { IsTrue (well_formed_use used.now) }
    ensures form { Gives refusal_of (λ w. with_or_empty (option_map (λ v. v.now) w)) result (with_of used.now) }
    ensures well_formed { IfOk result (λ w. IsTrue (well_formed_with (with_or_empty (option_map (λ v. v.now) w)))) }
{
    match used {
        Use::Nothing => Ok(None),
        Use::With(w) => Ok(Some(w)),
        _ => Err(Refused::Reason(Reason::Use)),
    }
}

/// A `trap`.
pub fn trap_of(used: &Use) -> Result<&With, Refused>
    requires { IsTrue (well_formed_use used.now) }
    ensures form { Gives refusal_of (λ w. w.now) result (trap_of used.now) }
    ensures well_formed { IfOk result (λ w. IsTrue (well_formed_with w.now)) }
{
    match used {
        Use::Trap(w) => Ok(w),
        _ => Err(Refused::Reason(Reason::Use)),
    }
}

/// A `take`.
pub fn take_of(used: &Use) -> Result<&Take, Refused>
    requires { IsTrue (well_formed_use used.now) }
    ensures form { Gives refusal_of (λ t. t.now) result (take_of used.now) }
    ensures well_formed { IfOk result (λ t. IsTrue (well_formed_take t.now)) }
{
    match used {
        Use::Take(t) => Ok(t),
        _ => Err(Refused::Reason(Reason::Use)),
    }
}

/// A `table`: takes.
pub fn table_of(used: &Use) -> Result<&[Take], Refused>
    requires { IsTrue (well_formed_use used.now) }
    ensures form { Gives refusal_of (λ ts. ts.now) result (table_of used.now) }
    ensures well_formed { IfOk result (λ ts. IsTrue (list_all well_formed_take ts.now)) }
{
    match used {
        Use::Table(ts) => Ok(ts.as_slice()),
        _ => Err(Refused::Reason(Reason::Use)),
    }
}

/// A `both`: the `with` for the invariant and that for the precondition.
pub fn both_of(used: &Use) -> Result<(&With, &With), Refused>
    requires { IsTrue (well_formed_use used.now) }
    ensures form { Gives refusal_of (λ p. (p.0.now, p.1.now)) result (both_of used.now) }
    ensures first { IfOk result (λ p. IsTrue (well_formed_with p.0.now)) }
    ensures second { IfOk result (λ p. IsTrue (well_formed_with p.1.now)) }
{
    match used {
        Use::Both(w, x) => Ok((w, x)),
        _ => Err(Refused::Reason(Reason::Use)),
    }
}

/// A `label`.
pub fn label_of(used: &Use) -> Result<&Assertion, Refused>
    requires { IsTrue (well_formed_use used.now) }
    ensures form { Gives refusal_of (λ a. a.now) result (label_of used.now) }
    ensures well_formed { IfOk result (λ a. IsTrue (well_formed_assertion a.now)) }
{
    match used {
        Use::Label(a) => Ok(a),
        _ => Err(Refused::Reason(Reason::Use)),
    }
}

/// A `loop`: the loop's assertion, and the `with` for it where the loop begins.
pub fn loop_of(used: &Use) -> Result<(&Assertion, &With), Refused>
    requires { IsTrue (well_formed_use used.now) }
    ensures form { Gives refusal_of (λ p. (p.0.now, p.1.now)) result (loop_of used.now) }
    ensures assertion { IfOk result (λ p. IsTrue (well_formed_assertion p.0.now)) }
    ensures taken { IfOk result (λ p. IsTrue (well_formed_with p.1.now)) }
{
    match used {
        Use::Loop(a, w) => Ok((a, w)),
        _ => Err(Refused::Reason(Reason::Use)),
    }
}

/// A `skip`: the assertion behind the block, and the take of the way round it.
pub fn skip_of(used: &Use) -> Result<(&Assertion, &Take), Refused>
    requires { IsTrue (well_formed_use used.now) }
    ensures form { Gives refusal_of (λ p. (p.0.now, p.1.now)) result (skip_of used.now) }
    ensures assertion { IfOk result (λ p. IsTrue (well_formed_assertion p.0.now)) }
    ensures taken { IfOk result (λ p. IsTrue (well_formed_take p.1.now)) }
{
    match used {
        Use::Skip(a, t) => Ok((a, t)),
        _ => Err(Refused::Reason(Reason::Use)),
    }
}
