// What the code of a part may change, by one scan over its items.

ghost use Rattle.std.specs.Prelude.{◌≡◌, ◌+◌, ◌<◌, ◌≤◌, length, IfOk, MatchOption};
ghost use Rattle.wasm_syntax.specs.FlatForm.{flat_body};
ghost use Rattle.wasm_syntax.specs.Trees.{Empty};
ghost use Rattle.wasm_syntax.specs.Places.{size_of_all, rest_at};
ghost use Rattle.outline_rules.specs.Blocks.{changes_of, joined};
ghost use Rattle.block_changes.specs.Seen.{changes_seen};
ghost use Rattle.block_changes.specs.words.Gathered.{Gathers};
ghost use Rattle.block_changes.specs.words.Ends.{IsFurther};

use crate::changes::ChangeSet;
use std::alloc::Global;
use wasm_syntax::{Code, Next};
use wasm_values::OutOfMemory;

/// The place behind the instruction at a place of a part. There is none where the part is over.
#[tactic(auto, using(crate::proofs::Ending::goings))]
fn further(code: &Code, place: usize) -> Option<usize>
    requires { place < length (flat_body code.now) }
    ensures { MatchOption result (rest_at code.now place ≡ Empty) (IsFurther code.now place) }
{
    match code.next(place) {
        Next::One(_) => Some(place + 1),
        Next::Block { after, .. } => Some(after),
        Next::Loop { after, .. } => Some(after),
        Next::If { after, .. } => Some(after),
        Next::Else => None,
        Next::End => None,
    }
}

/// The place of the `else` or `end` of a part, from a place in it.
fn end_of_part(code: &Code, from: usize) -> usize
    requires { from < length (flat_body code.now) }
    ensures place { result ≡ from + size_of_all (rest_at code.now from) }
    ensures within { result < length (flat_body code.now) }
{
    let mut place = from;
    while let Some(next) = further(code, place) {
        place = next;
    }
    place
}

impl ChangeSet {
    /// What the items from a place to before another may change is changed too.
    fn see_all(&mut self, code: &Code, from: usize, to: usize) -> Result<(), OutOfMemory>
        requires order { from ≤ to }
        requires within { to < length (flat_body code.now) }
        ensures { IfOk result (λ _. Gathers self.old self.new code.now from to) }
    {
        for p in from..to {
            self.see(code.at(p))?;
        }
        Ok(())
    }

    /// What the code of a part from a place to the part's `else` or `end` may change is changed too.
    #[tactic(auto, using(crate::proofs::Gathering::gathering))]
    pub fn add(&mut self, code: &Code, from: usize) -> Result<(), OutOfMemory>
        requires { from < length (flat_body code.now) }
        ensures { IfOk result (λ _. changes_seen self.new ≡ joined (changes_seen self.old) (changes_of (rest_at code.now from))) }
    {
        let end = end_of_part(code, from);
        self.see_all(code, from, end)?;
        Ok(())
    }
}

/// What the code of a part from a place to the part's `else` or `end` may change.
pub fn changes_from(alloc: Global, code: &Code, from: usize) -> Result<ChangeSet, OutOfMemory>
    requires { from < length (flat_body code.now) }
    ensures { IfOk result (λ s. changes_seen s ≡ changes_of (rest_at code.now from)) }
{
    let mut changes = ChangeSet::new(alloc);
    changes.add(code, from)?;
    Ok(changes)
}
