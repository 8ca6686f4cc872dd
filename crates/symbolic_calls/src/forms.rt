// The forms of uses that have a `with`, takes or two parts.

ghost use Rattle.std.specs.Prelude.{◌≡◌, ◌&&◌, IfOk, IsTrue};
ghost use Rattle.std.specs.List.{list_all};
ghost use Rattle.wasm_values.specs.Answers.{Gives};
ghost use Rattle.notes.specs.WellFormed.{well_formed_assertion, well_formed_with, well_formed_take, well_formed_use};
ghost use Rattle.outline_rules.specs.Uses.{with_of, both_of, loop_of, skip_of, table_of};
ghost use Rattle.symbolic_calls.specs.Uses.{empty_with};
ghost use Rattle.symbolic_state.specs.Refused.{refusal_of};

use notes::{Assertion, Reason, Take, Use, With};
use std::alloc::Global;
use symbolic_state::Refused;
use wasm_values::List;

/// The `with` that a missing use counts as. It takes no memory.
pub fn no_with(alloc: Global) -> With
    ensures { result ≡ empty_with }
{
    With {
        terms: List::new(alloc),
        facts: List::new(alloc),
        chunks: List::new(alloc),
    }
}

/// A `with`; a missing use counts as the empty one, which is lent too.
pub fn with_of<'a>(used: &'a Use, nothing: &'a With) -> Result<&'a With, Refused>
    requires used { IsTrue (well_formed_use used.now) }
    requires nothing { nothing.now ≡ empty_with }
    ensures taken { Gives refusal_of (λ w. w.now) result (with_of used.now) }
    ensures well_formed { IfOk result (λ w. IsTrue (well_formed_with w.now)) }
{
    match used {
        Use::Nothing => Ok(nothing),
        Use::With(w) => Ok(w),
        _ => Err(Refused::Reason(Reason::Use)),
    }
}

/// A `both`: the `with` for the invariant and that for the precondition.
pub fn both_of(used: &Use) -> Result<(&With, &With), Refused>
    requires { IsTrue (well_formed_use used.now) }
    ensures taken { Gives refusal_of (λ ws. (ws.0.now, ws.1.now)) result (both_of used.now) }
    ensures well_formed { IfOk result (λ ws. IsTrue (well_formed_with ws.0.now && well_formed_with ws.1.now)) }
{
    match used {
        Use::Both(w, x) => Ok((w, x)),
        _ => Err(Refused::Reason(Reason::Use)),
    }
}

/// A `loop`: the loop's assertion and the `with` for it.
pub fn loop_of(used: &Use) -> Result<(&Assertion, &With), Refused>
    requires { IsTrue (well_formed_use used.now) }
    ensures taken { Gives refusal_of (λ p. (p.0.now, p.1.now)) result (loop_of used.now) }
    ensures well_formed { IfOk result (λ p. IsTrue (well_formed_assertion p.0.now && well_formed_with p.1.now)) }
{
    match used {
        Use::Loop(a, w) => Ok((a, w)),
        _ => Err(Refused::Reason(Reason::Use)),
    }
}

/// A `skip`: the label's assertion and the take for it.
pub fn skip_of(used: &Use) -> Result<(&Assertion, &Take), Refused>
    requires { IsTrue (well_formed_use used.now) }
    ensures taken { Gives refusal_of (λ p. (p.0.now, p.1.now)) result (skip_of used.now) }
    ensures well_formed { IfOk result (λ p. IsTrue (well_formed_assertion p.0.now && well_formed_take p.1.now)) }
{
    match used {
        Use::Skip(a, t) => Ok((a, t)),
        _ => Err(Refused::Reason(Reason::Use)),
    }
}

/// A `table`: takes.
pub fn table_of(used: &Use) -> Result<&[Take], Refused>
    requires { IsTrue (well_formed_use used.now) }
    ensures taken { Gives refusal_of (λ ts. ts.now) result (table_of used.now) }
    ensures well_formed { IfOk result (λ ts. IsTrue (list_all well_formed_take ts.now)) }
{
    match used {
        Use::Table(takes) => Ok(takes.as_slice()),
        _ => Err(Refused::Reason(Reason::Use)),
    }
}
