//! A sink in memory.
ghost use Rattle.std.specs.Prelude.{◌≡◌, ◌<◌, ◌-◌, ◌⊎◌, ◌↔◌, [], ◌++◌, IfOk, OnErr, IsErr, Contains, length, min, take};
ghost use Rattle.rw_edge.specs.Count.{NeverFalls, next_count};

use crate::calls::Calls;
use crate::error::Failed;
use crate::sink::Sink;
use std::alloc::Global;
use std::marker::Model;
use wasm_values::OutOfMemory;

/// A sink in memory with limited room. One write takes the least of the piece's length, of what one write takes at
/// most, and of what is left of the room. Writes are numbered from 0, and chosen ones fail.
#[derive(Drop)]
pub struct MemSink {
    written: Vec<u8>,
    room: usize,
    most: usize,
    calls: Calls,
}

impl Model for MemSink {
    ghost use Rattle.std.specs.Prelude.{◌≤◌, ◌<◌, vec_len, vec_capacity};
    ghost use Rattle.rw_edge.specs.InMemory.{MemSinkState};

    ghost Value = { MemSinkState };

    ghost view = { λ s. record {
      written = s.written.items;
      room = s.room;
      take = s.most;
      fail = s.calls.fail.items;
      number = s.calls.number;
      faults = s.calls.faults;
    } };

    ghost invariant = { λ s. (vec_len s.written ≤ s.room) × (s.room ≤ vec_capacity s.written) × (0 < s.most) };
}

impl MemSink {
    /// A sink in which nothing is written. Its room is taken at once, so that no write takes memory.
    pub fn with_room(
        alloc: Global,
        room: usize,
        take: usize,
        fail: Vec<u64>,
    ) -> Result<MemSink, OutOfMemory>
        requires { 0 < take }
        ensures { IfOk result (λ sink. sink ≡ record { written = []; room = room; take = take; fail = fail.items; number = 0; faults = 0 }) }
    {
        Ok(MemSink {
            written: Vec::with_capacity(alloc, room)?,
            room,
            most: take,
            calls: Calls {
                fail,
                number: 0,
                faults: 0,
            },
        })
    }

    /// The bytes that were written.
    pub fn written(&self) -> &[u8]
        ensures { result.now ≡ self.now.written }
    {
        self.written.as_slice()
    }

    /// How often the sink has failed.
    pub fn faults(&self) -> u64
        ensures { result ≡ self.now.faults }
    {
        self.calls.faults
    }
}

impl Sink for MemSink {
    ghost use Rattle.std.specs.Prelude.{Some};

    ghost written = { λ sink. Some sink.written };

    ghost faults = { λ sink. sink.faults };

    fn write(&mut self, piece: &[u8]) -> Result<usize, Failed>
        ensures count { NeverFalls self.old.faults self.new.faults }
        ensures progress { IfOk result (λ n. 0 < length piece.now → 0 < n) }

        // Exactly when the write fails.
        ensures refused { IsErr result ↔ (Contains self.old.fail self.old.number
            ⊎ ((0 < length piece.now) × (length self.old.written ≡ self.old.room))) }

        // What was written, and what the counts are then.
        ensures amount { IfOk result (λ n. n ≡ min (length piece.now) (min self.old.take (self.old.room - length self.old.written))) }
        ensures ok { IfOk result (λ n. self.new ≡ record self.old {
          written = self.old.written ++ take n piece.now;
          number = next_count self.old.number;
        }) }
        ensures err { OnErr result (self.new ≡ record self.old {
          number = next_count self.old.number;
          faults = next_count self.old.faults;
        }) }
    {
        let left = self.room - self.written.len();
        if self.calls.fails(left == 0 && !piece.is_empty()) {
            return Err(Failed);
        }
        let n = piece.len().min(self.most).min(left);
        self.written.extend_from_slice(&piece[..n]).unwrap();
        Ok(n)
    }
}
