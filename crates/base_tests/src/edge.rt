use rw_edge::{DirShelf, MemShelf, MemSink, ReadFault, Shelf, StdSink, emit, read_file};
use std::alloc::Global;
use std::test::Fail;
use wasm_values::{Bytes, Text};

const TEXT: &[u8] = b"verified";

/// What a read came to: `TEXT`, other bytes by their number, or a fault.
#[derive(Clone, Copy, Debug, PartialEq)]
enum Seen {
    Whole,
    Other(usize),
    Fault(ReadFault),
}

fn what_is_read<S: Shelf>(alloc: Global, shelf: &mut S, name: &str, limit: usize) -> Seen {
    match read_file(alloc, shelf, name, limit) {
        Ok(bytes) if bytes.as_slice() == TEXT => Seen::Whole,
        Ok(bytes) => Seen::Other(bytes.len()),
        Err(fault) => Seen::Fault(fault),
    }
}

/// Files of which the first `a` has the bytes of `TEXT`, a second `a` has other bytes, and `b` has 5,000.
fn files(alloc: Global) -> Result<Vec<(Text, Bytes)>, Fail> {
    let mut files = Vec::new(alloc);
    files.push(file(alloc, "a", TEXT.to_vec(alloc)?)?)?;
    files.push(file(alloc, "a", [1, 2].to_vec(alloc)?)?)?;
    files.push(file(alloc, "b", vec![in alloc; 7; 5000]?)?)?;
    Ok(files)
}

fn file(alloc: Global, name: &str, bytes: Vec<u8>) -> Result<(Text, Bytes), Fail> {
    Ok((Text::from_str(alloc, name)?, Bytes::from_vec(bytes)))
}

/// What two reads on a shelf of these files come to, whose call with a number fails, and its count of faults.
fn two_reads(
    alloc: Global,
    failing: u64,
    first: (&str, usize),
    second: (&str, usize),
) -> Result<(Seen, Seen, u64), Fail> {
    let mut shelf = MemShelf::new(files(alloc)?, [failing].to_vec(alloc)?);
    let one = what_is_read(alloc, &mut shelf, first.0, first.1);
    let two = what_is_read(alloc, &mut shelf, second.0, second.1);
    Ok((one, two, shelf.faults()))
}

#[test]
fn a_file_is_read_whole(rt: HostRuntime) -> Result<(), Fail> {
    let alloc = rt.alloc();
    assert_eq!(rt;
        two_reads(alloc, 99, ("a", 9), ("a", 8))?,
        (Seen::Whole, Seen::Whole, 0)
    );
    assert_eq!(rt;
        two_reads(alloc, 99, ("b", 9999), ("a", 7))?,
        (Seen::Other(5000), Seen::Fault(ReadFault::TooLong), 0)
    );
    assert_eq!(rt;
        two_reads(alloc, 99, ("c", 9), ("a", 9))?,
        (Seen::Fault(ReadFault::Failed), Seen::Whole, 0)
    );
    Ok(())
}

#[test]
fn a_failing_call_is_told(rt: HostRuntime) -> Result<(), Fail> {
    let alloc = rt.alloc();
    for failing in [0, 1, 2] {
        assert_eq!(rt;
            two_reads(alloc, failing, ("a", 9), ("a", 9))?,
            (Seen::Fault(ReadFault::Failed), Seen::Whole, 1),
            "call {failing}"
        );
    }
    Ok(())
}

/// Whether a sink with this room, of which a write takes three bytes and one fails, takes the text, what was written is
/// this, and its count of faults.
fn sent(
    alloc: Global,
    room: usize,
    failing: u64,
    written: &str,
) -> Result<(bool, bool, u64), Fail> {
    let mut sink = MemSink::with_room(alloc, room, 3, [failing].to_vec(alloc)?)?;
    let taken = emit(&mut sink, TEXT).is_ok();
    let as_wanted = sink.written() == written.as_bytes();
    Ok((taken, as_wanted, sink.faults()))
}

#[test]
fn short_writes_go_on(rt: HostRuntime) -> Result<(), Fail> {
    let alloc = rt.alloc();
    for (room, failing, written, faults) in [
        (100, 9, "verified", 0),
        (100, 1, "ver", 1),
        (8, 9, "verified", 0),
        (7, 9, "verifie", 1),
    ] {
        assert_eq!(rt;
            sent(alloc, room, failing, written)?,
            (faults == 0, true, faults),
            "room {room}, failing {failing}"
        );
    }
    Ok(())
}

#[test]
fn the_system_is_reached(rt: HostRuntime) {
    let alloc = rt.alloc();
    let mut shelf = DirShelf::new(&rt);
    for (name, wanted) in [
        ("/dev/null", Seen::Other(0)),
        ("/dev/zero", Seen::Fault(ReadFault::TooLong)),
        ("no such file", Seen::Fault(ReadFault::Failed)),
        ("/", Seen::Fault(ReadFault::Failed)),
    ] {
        assert_eq!(rt;
            what_is_read(alloc, &mut shelf, name, 9999),
            wanted,
            "{name}"
        );
    }
    assert_eq!(rt; emit(&mut StdSink::new(&rt), b"emitted\n"), Ok(()));
}
