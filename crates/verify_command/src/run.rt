// The top call.

ghost use Rattle.std.specs.Prelude.{◌≡◌, ◌≤◌, ◌⊎◌, None, IfSome, IsSomeAnd};
ghost use Rattle.std.specs.Io.KnownBytes.{Appends};
ghost use Rattle.rw_edge.specs.Count.{Faulted};
ghost use Rattle.report_lines.specs.Reports.{Report, nothing_read, IsSpoken};
ghost use Rattle.verify_report.specs.Reports.{IsReport, command_of, words_refused};
ghost use Rattle.verify_report.specs.Outcomes.{IsQuiet, Comes, Wrote, Told, AskVerdict, texts, verified_text};
ghost use Rattle.verify_report.specs.Accepted.{IsAccepted};

use rw_edge::{Failed, Shelf, Sink, emit};
use std::alloc::Global;
use verify_report::{Status, Stop, reported};

// Writes a text whole, and comes to the status, or to a write fault.
fn written<K: Sink>(text: &[u8], status: Status, sink: &mut K) -> Status
    requires { IsSpoken status ⊎ (status ≡ Status.Words) }
    ensures comes { (result ≡ status) ⊎ ((result ≡ Status.WriteFault) × Faulted (K.faults sink.old) (K.faults sink.new)) }
    ensures wrote { Wrote result text.now (K.written sink.old) (K.written sink.new) }
    ensures count { K.faults sink.old ≤ K.faults sink.new }
{
    match emit(sink, text) {
        Ok(()) => status,
        Err(Failed) => Status::WriteFault,
    }
}

// Words of no listed form. It takes no memory.
fn refused<K: Sink>(sink: &mut K) -> Status
    ensures comes { (result ≡ Status.Words) ⊎ ((result ≡ Status.WriteFault) × Faulted (K.faults sink.old) (K.faults sink.new)) }
    ensures wrote { Wrote result words_refused.text (K.written sink.old) (K.written sink.new) }
    ensures count { K.faults sink.old ≤ K.faults sink.new }
{
    written(b"words refused\n", Status::Words, sink)
}

// Does what the words ask, or refuses them.
fn act<S: Shelf, K: Sink>(alloc: Global, words: &Vec<String>, shelf: &mut S, sink: &mut K) -> Status
    ensures refused { command_of (texts words.now.items) ≡ None → (result ≡ Status.Words)
        ⊎ ((result ≡ Status.WriteFault) × Faulted (K.faults sink.old) (K.faults sink.new)) }
    ensures words { result ≡ Status.Words → command_of (texts words.now.items) ≡ None }
    ensures refusal { command_of (texts words.now.items) ≡ None → Wrote result words_refused.text (K.written sink.old) (K.written sink.new) }
    ensures read { result ≡ Status.ReadFault → Faulted (S.faults shelf.old) (S.faults shelf.new)
        ⊎ IsSomeAnd (S.files shelf.old) (λ files. IsReport (texts words.now.items) files nothing_read) }
    ensures write { result ≡ Status.WriteFault → Faulted (K.faults sink.old) (K.faults sink.new) }
    ensures told { IfSome (S.files shelf.old) (λ files. Told result (IsReport (texts words.now.items) files)
        (Faulted (S.faults shelf.old) (S.faults shelf.new)) (Faulted (K.faults sink.old) (K.faults sink.new)) (K.written sink.old) (K.written sink.new)) }
    ensures verified { AskVerdict (texts words.now.items) → result ≡ Status.Good → Appends (K.written sink.old) (K.written sink.new) verified_text }
    ensures quiet { IsQuiet result → K.written sink.new ≡ K.written sink.old }
    ensures files { S.files shelf.new ≡ S.files shelf.old }
    ensures shelf_count { S.faults shelf.old ≤ S.faults shelf.new }
    ensures sink_count { K.faults sink.old ≤ K.faults sink.new }
{
    match reported(alloc, words, shelf) {
        Ok(report) => written(report.text.as_slice(), report.status, sink),
        Err(Stop::Words) => refused(sink),
        Err(Stop::Read) => Status::ReadFault,
        Err(Stop::Memory) => Status::OutOfMemory,
    }
}

/// Does what the words ask, over the shelf's files, and writes the report to the sink. The whole report is made before
/// the first write.
pub fn run<S: Shelf, K: Sink>(
    alloc: Global,
    words: &Vec<String>,
    shelf: &mut S,
    sink: &mut K,
) -> Status
    // Words of no listed form are refused without want of memory, and no others are.
    ensures refused { command_of (texts words.now.items) ≡ None → (result ≡ Status.Words)
        ⊎ ((result ≡ Status.WriteFault) × Faulted (K.faults sink.old) (K.faults sink.new)) }
    ensures words { result ≡ Status.Words → command_of (texts words.now.items) ≡ None }
    ensures refusal { command_of (texts words.now.items) ≡ None → Wrote result words_refused.text (K.written sink.old) (K.written sink.new) }

    // A fault is the outside's own, or a name that the told files lack.
    ensures read { result ≡ Status.ReadFault → Faulted (S.faults shelf.old) (S.faults shelf.new)
        ⊎ IsSomeAnd (S.files shelf.old) (λ files. IsReport (texts words.now.items) files nothing_read) }
    ensures write { result ≡ Status.WriteFault → Faulted (K.faults sink.old) (K.faults sink.new) }

    // Over told files a report is told: its text is written whole with its status, or a prefix of it where the sink fails. Else
    // nothing is written, and memory was wanting or the shelf failed.
    ensures told { IfSome (S.files shelf.old) (λ files. Told result (IsReport (texts words.now.items) files)
        (Faulted (S.faults shelf.old) (S.faults shelf.new)) (Faulted (K.faults sink.old) (K.faults sink.new)) (K.written sink.old) (K.written sink.new)) }

    // Over told files the status and the text are those of the report, but for faults and want of memory.
    ensures comes { IfSome (S.files shelf.old) (λ files. (r : Report) → IsReport (texts words.now.items) files r → Comes result r.status
        (Faulted (S.faults shelf.old) (S.faults shelf.new)) (Faulted (K.faults sink.old) (K.faults sink.new))) }
    ensures wrote { IfSome (S.files shelf.old) (λ files. (r : Report) → IsReport (texts words.now.items) files r → Wrote result r.text (K.written sink.old) (K.written sink.new)) }

    // Over told files `Good` comes exactly where the files are accepted, but for faults and want of memory.
    ensures good { result ≡ Status.Good → IfSome (S.files shelf.old) (λ files. IsAccepted (texts words.now.items) files) }
    ensures complete { IfSome (S.files shelf.old) (λ files. IsAccepted (texts words.now.items) files → Comes result Status.Good
        (Faulted (S.faults shelf.old) (S.faults shelf.new)) (Faulted (K.faults sink.old) (K.faults sink.new))) }

    // Where a verdict on notes was asked for, what `Good` appends is `verified` and a newline, over any shelf.
    ensures verified { AskVerdict (texts words.now.items) → result ≡ Status.Good → Appends (K.written sink.old) (K.written sink.new) verified_text }

    // Nothing is written where there is no report.
    ensures quiet { IsQuiet result → K.written sink.new ≡ K.written sink.old }

    // The shelf's files are as they were, and no count of faults falls.
    ensures files { S.files shelf.new ≡ S.files shelf.old }
    ensures shelf_count { S.faults shelf.old ≤ S.faults shelf.new }
    ensures sink_count { K.faults sink.old ≤ K.faults sink.new }
{
    act(alloc, words, shelf, sink)
}
