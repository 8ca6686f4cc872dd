//! Files that are read by name.
ghost use Rattle.std.specs.Prelude.{◌≡◌, ◌≤◌, ◌<◌, ◌⊎◌, ℕ, List, Option, Some, IfOk, OnOk, OnErr, IsErr, IsSome, take, drop, length};
ghost use Rattle.std.specs.Io.KnownBytes.{Consumes, IsAtEnd};
ghost use Rattle.rw_edge.specs.Count.{Faulted, NeverFalls};
ghost use Rattle.rw_edge.specs.Files.{Lacks, IfContents};

use crate::error::Failed;

/// Files that are read one at a time. Before the first `begin` no bytes are left.
pub trait Shelf {
    /// The files, each by its name and contents, where they are told. Of two with one name the first counts.
    ghost files: { Self → Option (List (List ℕ × List ℕ)) };

    /// The bytes left of the file that is being read, where they are told.
    ghost left: { Self → Option (List ℕ) };

    /// How often the shelf has failed.
    ghost faults: { Self → ℕ };

    /// Chooses a file. After `Failed` the bytes left may be anything until the next call of `begin`.
    fn begin(&mut self, name: &str) -> Result<(), Failed>
        ensures files { files self.new ≡ files self.old }
        ensures count { NeverFalls (faults self.old) (faults self.new) }
        ensures begun { OnOk result (IfContents (files self.old) name.now (λ contents. left self.new ≡ Some contents)) }
        ensures failed { OnErr result (Faulted (faults self.old) (faults self.new) ⊎ Lacks (files self.old) name.now) }

        // A shelf that tells its files takes a missing name for no fault of its own.
        ensures missing { Lacks (files self.old) name.now → IsErr result × (faults self.new ≡ faults self.old) };

    /// Moves the first bytes left to the front of the slice, and answers how many.
    fn read(&mut self, into: &mut [u8]) -> Result<usize, Failed>
        ensures files { files self.new ≡ files self.old }
        ensures count { NeverFalls (faults self.old) (faults self.new) }
        ensures fits { IfOk result (λ n. n ≤ length into.old) }
        ensures moved { IfOk result (λ n. Consumes (left self.old) (left self.new) (take n into.new)) }
        ensures behind { IfOk result (λ n. drop n into.new ≡ drop n into.old) }
        ensures end { IfOk result (λ n. n ≡ 0 → 0 < length into.old → IsAtEnd (left self.new)) }
        ensures failed { OnErr result (Faulted (faults self.old) (faults self.new)) }
        ensures unchanged { OnErr result (into.new ≡ into.old) };

    /// A shelf that tells its files tells the bytes left too.
    ghost tells_left: { (shelf : Self) → IsSome (files shelf) → IsSome (left shelf) };
}
