//! Writing a text whole.
ghost use Rattle.std.specs.Prelude.{◌≡◌, ◌≤◌, ◌<◌, ℕ, OnOk, OnErr, is_some, length, take};
ghost use Rattle.std.specs.Io.KnownBytes.{Appends};
ghost use Rattle.rw_edge.specs.Count.{last_count, Faulted};

use crate::error::Failed;
use crate::sink::Sink;

/// Writes the whole text. It takes no memory.
pub fn emit<K: Sink>(sink: &mut K, text: &[u8]) -> Result<(), Failed>
    ensures told { is_some (K.written sink.new) ≡ is_some (K.written sink.old) }
    ensures no_lower { K.faults sink.old ≤ K.faults sink.new }
    ensures within { 0 < length text.now → K.faults sink.new ≤ last_count }
    ensures whole { OnOk result (Appends (K.written sink.old) (K.written sink.new) text.now) }
    ensures prefix { OnErr result ((n : ℕ) × (n ≤ length text.now)
        × Appends (K.written sink.old) (K.written sink.new) (take n text.now)) }
    ensures failed { OnErr result (Faulted (K.faults sink.old) (K.faults sink.new)) }
{
    let mut at = 0;
    while at < text.len() {
        at += sink.write(&text[at..])?;
    }
    Ok(())
}
