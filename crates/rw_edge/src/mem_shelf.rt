//! A shelf in memory.
ghost use Rattle.std.specs.Prelude.{◌≡◌, ◌+◌, ◌^◌, ◌≤◌, ◌<◌, ◌⊎◌, ◌↔◌, [], ◌++◌, Some, None, IfOk, OnOk, OnErr, IsErr, IsNone, IsSome, MatchOption, Contains, length, min, take, drop};
ghost use Rattle.rw_edge.specs.Count.{NeverFalls, next_count};
ghost use Rattle.rw_edge.specs.Files.{contents_of};
ghost use Rattle.rw_edge.specs.InMemory.{contents_at};

use crate::calls::Calls;
use crate::error::Failed;
use crate::shelf::Shelf;
use std::marker::Model;
use wasm_values::{Bytes, Text};

/// Files in memory. Calls are numbered together from 0, and chosen ones fail. Of two files with one name the first
/// counts.
#[derive(Drop)]
pub struct MemShelf {
    files: Vec<(Text, Bytes)>,
    place: Option<usize>,
    at: usize,
    calls: Calls,
}

impl Model for MemShelf {
    ghost use Rattle.std.specs.Prelude.{◌≤◌, length, drop};
    ghost use Rattle.rw_edge.specs.InMemory.{MemShelfState, contents_at};

    ghost Value = { MemShelfState };

    ghost view = { λ s. record {
      files = s.files.items;
      fail = s.calls.fail.items;
      number = s.calls.number;
      faults = s.calls.faults;
      left = drop s.at (contents_at s.files.items s.place);
    } };

    ghost invariant = { λ s. s.at ≤ length (contents_at s.files.items s.place) };
}

impl MemShelf {
    /// A shelf with these files, of which none is being read.
    pub fn new(files: Vec<(Text, Bytes)>, fail: Vec<u64>) -> MemShelf
        ensures { result ≡ record { files = files.items; fail = fail.items; number = 0; faults = 0; left = [] } }
    {
        MemShelf {
            files,
            place: None,
            at: 0,
            calls: Calls {
                fail,
                number: 0,
                faults: 0,
            },
        }
    }

    /// How often the shelf has failed.
    pub fn faults(&self) -> u64
        ensures { result ≡ self.now.faults }
    {
        self.calls.faults
    }
}

/// The place of the first file of this name.
fn place_of(files: &[(Text, Bytes)], name: &str) -> Option<usize>
    ensures { MatchOption result (contents_of files.now name.now ≡ None)
        (λ place. contents_of files.now name.now ≡ Some (contents_at files.now (Some place))) }
{
    for (place, file) in files.iter().enumerate() {
        if file.0.as_str() == name {
            return Some(place);
        }
    }
    None
}

/// The bytes of the file at this place from here on.
fn bytes_from(files: &[(Text, Bytes)], place: Option<usize>, at: usize) -> &[u8]
    requires { at ≤ length (contents_at files.now place) }
    ensures bytes { result.now ≡ drop at (contents_at files.now place) }
    ensures fits { at + length result.now < 2 ^ 64 }
{
    match place.and_then(|place| files.get(place)) {
        Some(file) => &file.1.as_slice()[at..],
        None => &[],
    }
}

impl Shelf for MemShelf {
    ghost use Rattle.std.specs.Prelude.{Some, refl};

    ghost files = { λ shelf. Some shelf.files };

    ghost left = { λ shelf. Some shelf.left };

    ghost faults = { λ shelf. shelf.faults };

    ghost tells_left = { λ _ _. refl };

    fn begin(&mut self, name: &str) -> Result<(), Failed>
        ensures count { NeverFalls self.old.faults self.new.faults }

        // Exactly when the call fails.
        ensures refused { IsErr result ↔ (IsNone (contents_of self.old.files name.now) ⊎ Contains self.old.fail self.old.number) }

        // What is left, and what the counts are then.
        ensures files { self.new.files ≡ self.old.files }
        ensures fail { self.new.fail ≡ self.old.fail }
        ensures number { self.new.number ≡ next_count self.old.number }
        ensures begun { OnOk result (contents_of self.old.files name.now ≡ Some self.new.left) }
        ensures ok { OnOk result (self.new.faults ≡ self.old.faults) }
        ensures missing { IsNone (contents_of self.old.files name.now) → self.new.faults ≡ self.old.faults }
        ensures err { OnErr result (IsSome (contents_of self.old.files name.now) → self.new.faults ≡ next_count self.old.faults) }
    {
        let Some(place) = place_of(&self.files, name) else {
            self.calls.count();
            return Err(Failed);
        };
        if self.calls.fails(false) {
            return Err(Failed);
        }
        self.place = Some(place);
        self.at = 0;
        Ok(())
    }

    fn read(&mut self, into: &mut [u8]) -> Result<usize, Failed>
        ensures count { NeverFalls self.old.faults self.new.faults }

        // Exactly when the call fails.
        ensures refused { IsErr result ↔ Contains self.old.fail self.old.number }

        // What was read, what is left, and what the counts are then.
        ensures amount { IfOk result (λ n. n ≡ min (length into.old) (length self.old.left)) }
        ensures moved { IfOk result (λ n. into.new ≡ take n self.old.left ++ drop n into.old) }
        ensures ok { IfOk result (λ n. self.new ≡ record self.old {
          number = next_count self.old.number;
          left = drop n self.old.left;
        }) }
        ensures err { OnErr result (self.new ≡ record self.old {
          number = next_count self.old.number;
          faults = next_count self.old.faults;
        }) }
        ensures unchanged { OnErr result (into.new ≡ into.old) }
    {
        if self.calls.fails(false) {
            return Err(Failed);
        }
        let left = bytes_from(&self.files, self.place, self.at);
        let n = into.len().min(left.len());
        into[..n].copy_from_slice(&left[..n]);
        self.at += n;
        Ok(n)
    }
}
