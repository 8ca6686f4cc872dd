//! The ends of chunks.

ghost use Rattle.std.specs.Prelude.{◌≡◌, ◌+◌, ◌*◌, ◌≤◌, ◌<◌, ◌^◌, pos, IfSome};
ghost use Rattle.outline_rules.specs.Settings.{least_pages};
ghost use Rattle.outline_rules.specs.Initial.{natural_of, end_of};

use outline_setting::Setting;
use term_trees::Term;

/// The number of a term, where the term is a number that is at least 0.
pub(crate) fn natural_of(t: &Term) -> Option<u128>
    ensures number { result ≡ natural_of t.now }
    ensures small { IfSome result (λ n. n < 2 ^ 127) }
{
    match t.num_of() {
        Some(n) => { if n >= 0 { Some(n as u128) } else { None } }
        None => None,
    }
}

/// The end of a chunk of so many bytes at an address, which begins at or past the end of the one before and ends within
/// the memory.
pub(crate) fn end_of(setting: &Setting<'_>, from: u64, at: u128, length: u128) -> Option<u64>
    ensures end { result ≡ end_of setting.now from at length }
    ensures within { IfSome result (λ e. (e ≡ at + length) × (e ≤ 2 ^ 48)) }
{
    let size = 65536 * (setting.least_pages() as u128);
    if from as u128 <= at && at <= size && length <= size - at {
        Some((at + length) as u64)
    } else {
        None
    }
}
