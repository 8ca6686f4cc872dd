ghost use Rattle.std.specs.Prelude.{◌≡◌, ◌≤◌, ◌-◌, ◌<◌, ℕ, List, length, IfOk};
ghost use Rattle.wasm_values.specs.declared.limit.LimitWord.{LimitWord};
ghost use Rattle.binary_grammar.specs.words.Reading.{Gives, Reader, place, number_at, entries_at, vector_at, limited_at, list_at};

use crate::read::{place, read_number};
use binary_grammar::DecodeFault;
use std::alloc::Global;
use wasm_syntax::MAX_ITEMS;
use wasm_values::{LimitWord, List};

/// An entry of a vector.
pub(crate) trait Entry: Drop {
    ghost reads: { Reader Self };

    fn read(alloc: Global, bytes: &[u8], end: usize) -> Result<(Self, &[u8]), DecodeFault>
        requires { length bytes.now ≤ MAX_ITEMS }
        ensures gives { Gives (λ x. (x.0, x.1.now)) result (reads end bytes.now) }
        ensures shorter { IfOk result (λ x. length x.1.now ≤ length bytes.now) };
}

impl Entry for u32 {
    ghost reads = { number_at };

    fn read(_alloc: Global, bytes: &[u8], end: usize) -> Result<(u32, &[u8]), DecodeFault> {
        read_number(bytes, end)
    }
}

/// So many entries, and the place of each.
pub(crate) fn read_entries<T: Entry>(
    alloc: Global,
    count: u32,
    bytes: &[u8],
    end: usize,
) -> Result<(List<T>, List<usize>, &[u8]), DecodeFault>
    requires { length bytes.now ≤ MAX_ITEMS }
    ensures gives { Gives (λ x. ((x.0, x.1), x.2.now)) result (entries_at T.reads count end bytes.now) }
    ensures shorter { IfOk result (λ x. length x.2.now ≤ length bytes.now) }
{
    let mut entries = List::new(alloc);
    let mut places = List::new(alloc);
    let mut rest = bytes;
    for _ in 0..count {
        places.push(place(rest, end))?;
        let (entry, after) = T::read(alloc, rest, end)?;
        entries.push(entry)?;
        rest = after;
    }
    Ok((entries, places, rest))
}

/// A count, so many entries, and the place of each.
#[tactic(auto, unfolding(binary_grammar::specs::words::Reading::vector_at, binary_grammar::specs::words::Reading::then_at, binary_grammar::specs::words::Reading::done_at))]
pub(crate) fn read_vector<T: Entry>(
    alloc: Global,
    bytes: &[u8],
    end: usize,
) -> Result<(List<T>, List<usize>, &[u8]), DecodeFault>
    requires { length bytes.now ≤ MAX_ITEMS }
    ensures gives { Gives (λ x. ((x.0, x.1), x.2.now)) result (vector_at T.reads end bytes.now) }
    ensures shorter { IfOk result (λ x. length x.2.now ≤ length bytes.now) }
{
    let (count, rest) = read_number(bytes, end)?;
    read_entries(alloc, count, rest, end)
}

/// The same, where the count has a limit, which is tested before any entry is read.
#[tactic(auto, unfolding(binary_grammar::specs::words::Reading::limited_at, binary_grammar::specs::words::Reading::then_at, binary_grammar::specs::words::Reading::done_at))]
pub(crate) fn read_limited<T: Entry>(
    alloc: Global,
    most: u32,
    word: LimitWord,
    bytes: &[u8],
    end: usize,
) -> Result<(List<T>, List<usize>, &[u8]), DecodeFault>
    requires { length bytes.now ≤ MAX_ITEMS }
    ensures gives { Gives (λ x. ((x.0, x.1), x.2.now)) result (limited_at T.reads most word end bytes.now) }
    ensures shorter { IfOk result (λ x. length x.2.now ≤ length bytes.now) }
{
    let (wanted, rest) = read_number(bytes, end)?;
    if most < wanted {
        return Err(DecodeFault::Limit {
            at: place(bytes, end),
            word,
        });
    }
    read_entries(alloc, wanted, rest, end)
}

/// A vector whose places do not matter.
#[tactic(auto, unfolding(binary_grammar::specs::words::Reading::list_at, binary_grammar::specs::words::Reading::then_at, binary_grammar::specs::words::Reading::done_at))]
pub(crate) fn read_list<T: Entry>(
    alloc: Global,
    bytes: &[u8],
    end: usize,
) -> Result<(List<T>, &[u8]), DecodeFault>
    requires { length bytes.now ≤ MAX_ITEMS }
    ensures gives { Gives (λ x. (x.0, x.1.now)) result (list_at T.reads end bytes.now) }
    ensures shorter { IfOk result (λ x. length x.1.now ≤ length bytes.now) }
{
    let (entries, _, rest) = read_vector(alloc, bytes, end)?;
    Ok((entries, rest))
}
