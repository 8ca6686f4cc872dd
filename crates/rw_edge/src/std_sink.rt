//! Standard output, as a sink.
ghost use Rattle.std.specs.Prelude.{◌≡◌};

use crate::error::Failed;
use crate::sink::Sink;
use std::marker::Model;

/// Standard output. Contracts see the count of faults alone: what was written is not told.
#[derive(Drop)]
pub struct StdSink<R: Print + Drop> {
    rt: R,
    faults: u64,
}

impl<R: Print + Drop> Model for StdSink<R> {
    ghost use Rattle.std.specs.Prelude.{ℕ, ◌≤◌};
    ghost use Rattle.rw_edge.specs.Count.{last_count};

    ghost Value = { ℕ };

    ghost view = { λ sink. sink.faults };

    ghost invariant = { λ sink. sink.faults ≤ last_count };
}

impl<R: Print + Drop> StdSink<R> {
    pub fn new(rt: R) -> StdSink<R>
        ensures { result ≡ 0 }
    {
        StdSink { rt, faults: 0 }
    }
}

impl<R: Print + Drop> Sink for StdSink<R> {
    ghost use Rattle.std.specs.Prelude.{None};

    ghost written = { λ _. None };

    ghost faults = { λ sink. sink };

    /// A write that takes nothing of a piece is a fault too.
    fn write(&mut self, piece: &[u8]) -> Result<usize, Failed> {
        match self.rt.write_some(piece) {
            Ok(n) if n > 0 || piece.is_empty() => Ok(n),
            _ => {
                self.faults = self.faults.saturating_add(1);
                Err(Failed)
            }
        }
    }
}
