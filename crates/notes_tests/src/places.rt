//! Which own variables and places may stand in an assertion.

ghost use Rattle.std.specs.Prelude.{◌≡◌, nat_lt};
ghost use Rattle.outline_rules.specs.Tests.{global_reason, reason_unless, place_reason};
ghost use Rattle.notes.specs.declared.reason.Reason.TheVariants as reason;

use escape_analysis::Stability;
use notes::Reason;
use outline_setting::Setting;
use term_trees::Place;

/// A reason where a test isn't met.
fn reason_unless(why: Reason, met: bool) -> Option<Reason>
    ensures { result ≡ reason_unless why met }
{
    if met { None } else { Some(why) }
}

/// The reason for an own variable, of which there are so many.
pub(crate) fn own_reason(own: u64, k: u32) -> Option<Reason>
    ensures { result ≡ reason_unless reason.Scope (nat_lt k own) }
{
    reason_unless(Reason::Scope, (k as u64) < own)
}

/// The reason for a global by its stability.
fn global_reason(stability: Option<Stability>) -> Option<Reason>
    ensures { result ≡ global_reason stability }
{
    match stability {
        None => Some(Reason::Scope),
        Some(Stability::Unstable) => Some(Reason::Stable),
        Some(Stability::Immutable) => None,
        Some(Stability::Private) => None,
    }
}

/// The reason for a place in an assertion with so many arguments, and with a result or without one.
pub(crate) fn place_reason(
    setting: &Setting<'_>,
    args: usize,
    has_result: bool,
    place: Place,
) -> Option<Reason>
    ensures { result ≡ place_reason setting.now args has_result place }
{
    match place {
        Place::Global(k) => global_reason(setting.stability_of(k)),
        Place::Pages => reason_unless(Reason::Stable, setting.is_memory_private()),
        Place::Arg(k) => reason_unless(Reason::Scope, (k as usize) < args),
        Place::Result => reason_unless(Reason::Scope, has_result),
        _ => Some(Reason::Scope),
    }
}
