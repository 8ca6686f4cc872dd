ghost use Rattle.std.specs.Prelude.{◌<◌};

use crate::cases::{BODIES, BOUNDS, LINKS, LISTINGS, NOTES, PREFIXES, SECTIONS};
use crate::run::run;
use rw_edge::{MemShelf, MemSink};
use std::alloc::Global;
use std::test::Fail;
use verify_report::Status;
use wasm_values::{Bytes, Text};

/// One private global, which its one function sets to 7.
const MODULE: [u8; 43] = [
    0, 97, 115, 109, 1, 0, 0, 0, 1, 4, 1, 0x60, 0, 0, 3, 2, 1, 0, 6, 6, 1, 0x7f, 1, 0x41, 7, 0x0b,
    7, 5, 1, 1, 0x66, 0, 0, 10, 8, 1, 6, 0, 0x41, 7, 0x24, 0, 0x0b,
];

/// The same, but that the function sets it to 8.
const EIGHT: [u8; 43] = [
    0, 97, 115, 109, 1, 0, 0, 0, 1, 4, 1, 0x60, 0, 0, 3, 2, 1, 0, 6, 6, 1, 0x7f, 1, 0x41, 7, 0x0b,
    7, 5, 1, 1, 0x66, 0, 0, 10, 8, 1, 6, 0, 0x41, 8, 0x24, 0, 0x0b,
];

const VERIFIED: &[u8] = b"(notes 1 (assert 0 ((= (global 0) 7)) ())
 (initial () ((have (= (global 0) 7) (eval (= (global 0) 7) () ()))) (with () (0) ()))
 (func 0 (at 2 (have (= (global 0) 7) (eval (= (global 0) 7) () ())) (with () (3) ()))))";

const LISTING: &[u8] = b"type 0: [] -> []
function 0: type 0
global 0: mut i32
export 0: \"f\" func 0
code 0
  0x00000026 i32.const 7
  0x00000028 global.set 0
  0x0000002a end
";

/// A module of no sections.
const EMPTY: [u8; 8] = [0, 97, 115, 109, 1, 0, 0, 0];

/// Notes that verify it.
const NOTHING: &[u8] = b"(notes 1 (assert 0 () ()) (initial () () (with () () ())))";

/// The two in one file.
const SEALED: &[u8] =
    b"\0asm\x01\0\0\0\0\x47\x0crobust.notes(notes 1 (assert 0 () ()) (initial () () (with () () ())))";

// What a run comes to and writes over this module `m` and these notes `n`, into a sink that takes `take` bytes at once
// and fails at its write `failing`.
fn outcome_with(
    alloc: Global,
    words: &[&str],
    module: Vec<u8>,
    notes: Vec<u8>,
    take: usize,
    failing: u64,
) -> Result<(Status, MemSink), Fail>
    requires { 0 < take }
{
    let mut files = Vec::new(alloc);
    files.push((Text::from_str(alloc, "m")?, Bytes::from_vec(module)))?;
    files.push((Text::from_str(alloc, "n")?, Bytes::from_vec(notes)))?;
    let mut shelf = MemShelf::new(files, Vec::new(alloc));
    let mut sink = MemSink::with_room(alloc, 1000, take, [failing].to_vec(alloc)?)?;
    let mut spoken = Vec::new(alloc);
    for word in words {
        spoken.push(String::from_str(alloc, word)?)?;
    }
    let status = run(alloc, &spoken, &mut shelf, &mut sink);
    Ok((status, sink))
}

// The same with the notes by which the example is verified.
fn outcome(
    alloc: Global,
    words: &[&str],
    module: Vec<u8>,
    take: usize,
    failing: u64,
) -> Result<(Status, MemSink), Fail>
    requires { 0 < take }
{
    outcome_with(alloc, words, module, VERIFIED.to_vec(alloc)?, take, failing)
}

#[test]
fn reports(rt: HostRuntime) -> Result<(), Fail> {
    let alloc = rt.alloc();
    let good = outcome(alloc, &["verify", "m", "n"], MODULE.to_vec(alloc)?, 99, 99)?;
    assert_eq!(rt; good.0, Status::Good);
    assert_eq!(rt; good.1.written(), b"verified\n".as_slice());
    let failed = outcome(alloc, &["verify", "m", "n"], EIGHT.to_vec(alloc)?, 99, 99)?;
    assert_eq!(rt; failed.0, Status::Negative);
    assert_eq!(rt;
        failed.1.written(),
        b"failed: derivation 0 at 0x0000002a in function 0\n".as_slice()
    );
    let silent = outcome(alloc, &[], Vec::new(alloc), 99, 99)?;
    assert_eq!(rt; silent.0, Status::Words);
    assert_eq!(rt; silent.1.written(), b"words refused\n".as_slice());
    Ok(())
}

#[test]
fn files(rt: HostRuntime) -> Result<(), Fail> {
    let alloc = rt.alloc();
    let missing = outcome(alloc, &["verify", "x", "n"], Vec::new(alloc), 99, 99)?;
    assert_eq!(rt; missing.0, Status::ReadFault);
    assert_eq!(rt; missing.1.written(), b"".as_slice());
    let long = vec![in alloc; 0; 4_194_305]?;
    let limit = outcome(alloc, &["verify", "m", "n"], long, 99, 99)?;
    assert_eq!(rt; limit.0, Status::Limit);
    assert_eq!(rt;
        limit.1.written(),
        b"limit: module at 0x00400000\n".as_slice()
    );
    Ok(())
}

#[test]
fn short_writes(rt: HostRuntime) -> Result<(), Fail> {
    let alloc = rt.alloc();
    let cut = outcome(alloc, &["verify", "m", "n"], MODULE.to_vec(alloc)?, 3, 1)?;
    assert_eq!(rt; cut.0, Status::WriteFault);
    assert_eq!(rt; cut.1.written(), b"ver".as_slice());
    Ok(())
}

#[test]
fn other_commands(rt: HostRuntime) -> Result<(), Fail> {
    let alloc = rt.alloc();
    let valid = outcome(alloc, &["check", "m"], MODULE.to_vec(alloc)?, 99, 99)?;
    assert_eq!(rt; valid.0, Status::Good);
    assert_eq!(rt; valid.1.written(), b"valid\n".as_slice());
    let listed = outcome(alloc, &["show", "m"], MODULE.to_vec(alloc)?, 999, 99)?;
    assert_eq!(rt; listed.0, Status::Good);
    assert_eq!(rt; listed.1.written(), LISTING);
    Ok(())
}

#[test]
fn sealed_files(rt: HostRuntime) -> Result<(), Fail> {
    let alloc = rt.alloc();
    let notes = NOTHING.to_vec(alloc)?;
    let words = ["seal", "m", "n"];
    let sealed = outcome_with(alloc, &words, EMPTY.to_vec(alloc)?, notes, 99, 99)?;
    assert_eq!(rt; sealed.0, Status::Good);
    assert_eq!(rt; sealed.1.written(), SEALED);
    let refused = outcome(alloc, &words, EIGHT.to_vec(alloc)?, 99, 99)?;
    assert_eq!(rt; refused.0, Status::Negative);
    assert_eq!(rt;
        refused.1.written(),
        b"failed: derivation 0 at 0x0000002a in function 0\n".as_slice()
    );
    Ok(())
}

#[test]
fn unsealed_files(rt: HostRuntime) -> Result<(), Fail> {
    let alloc = rt.alloc();
    let verified = outcome(alloc, &["sealed", "m"], SEALED.to_vec(alloc)?, 99, 99)?;
    assert_eq!(rt; verified.0, Status::Good);
    assert_eq!(rt; verified.1.written(), b"verified\n".as_slice());
    let unsealed = outcome(alloc, &["sealed", "m"], EMPTY.to_vec(alloc)?, 99, 99)?;
    assert_eq!(rt; unsealed.0, Status::Negative);
    assert_eq!(rt; unsealed.1.written(), b"unsealed\n".as_slice());
    let long = vec![in alloc; 0; 20_971_539]?;
    let limit = outcome(alloc, &["sealed", "m"], long, 99, 99)?;
    assert_eq!(rt; limit.0, Status::Limit);
    assert_eq!(rt;
        limit.1.written(),
        b"limit: sealed at 0x01400012\n".as_slice()
    );
    Ok(())
}

#[test]
fn refused_notes(rt: HostRuntime) -> Result<(), Fail> {
    let alloc = rt.alloc();
    for (notes, said) in NOTES {
        let words = ["verify", "m", "n"];
        let module = MODULE.to_vec(alloc)?;
        let refused = outcome_with(alloc, &words, module, notes.to_vec(alloc)?, 99, 99)?;
        assert_eq!(rt; refused.0, Status::Negative);
        assert_eq!(rt; refused.1.written(), *said);
    }
    Ok(())
}

// A module of one function with this type and body.
fn with_body(alloc: Global, ty: u8, body: &[u8]) -> Result<Vec<u8>, Fail> {
    let size = body.len().min(100) as u8;
    let mut module = Vec::from_slice(
        alloc,
        &[
            0, 97, 115, 109, 1, 0, 0, 0, 1, 8, 2, 0x60, 0, 0, 0x60, 0, 1, 0x7f, 3, 2, 1, ty,
        ],
    )?;
    module.extend_from_slice(&[10, size + 3, 1, size + 1, 0])?;
    module.extend_from_slice(body)?;
    Ok(module)
}

#[test]
fn bodies(rt: HostRuntime) -> Result<(), Fail> {
    let alloc = rt.alloc();
    for (ty, body, said) in BODIES {
        let checked = outcome(alloc, &["check", "m"], with_body(alloc, *ty, body)?, 99, 99)?;
        assert_eq!(rt; checked.1.written(), *said);
    }
    Ok(())
}

// The eight bytes that each module begins with, then these, and then so many zeros.
fn with_header(alloc: Global, sections: &[u8], zeros: usize) -> Result<Vec<u8>, Fail> {
    let mut module = Vec::from_slice(alloc, &[0, 97, 115, 109, 1, 0, 0, 0])?;
    module.extend_from_slice(sections)?;
    for _ in 0..zeros {
        module.push(0)?;
    }
    Ok(module)
}

#[test]
fn sections(rt: HostRuntime) -> Result<(), Fail> {
    let alloc = rt.alloc();
    for (sections, said) in SECTIONS {
        let checked = outcome(
            alloc,
            &["check", "m"],
            with_header(alloc, sections, 0)?,
            99,
            99,
        )?;
        assert_eq!(rt; checked.1.written(), *said);
    }
    Ok(())
}

#[test]
fn listings(rt: HostRuntime) -> Result<(), Fail> {
    let alloc = rt.alloc();
    for (sections, listing) in LISTINGS {
        let module = with_header(alloc, sections, 0)?;
        let listed = outcome(alloc, &["show", "m"], module, 999, 99)?;
        assert_eq!(rt; listed.0, Status::Good);
        assert_eq!(rt; listed.1.written(), *listing);
    }
    Ok(())
}

#[test]
fn bounds(rt: HostRuntime) -> Result<(), Fail> {
    let alloc = rt.alloc();
    for (sections, said) in BOUNDS {
        let module = with_header(alloc, sections, 0)?;
        let bounded = outcome(alloc, &["steps", "m"], module, 999, 99)?;
        assert_eq!(rt; bounded.0, Status::Good);
        assert_eq!(rt; bounded.1.written(), *said);
    }
    Ok(())
}

#[test]
fn scripts(rt: HostRuntime) -> Result<(), Fail> {
    let alloc = rt.alloc();
    for (module, script, said) in LINKS {
        let words = ["link", "n"];
        let module = module.to_vec(alloc)?;
        let linked = outcome_with(alloc, &words, module, script.to_vec(alloc)?, 999, 99)?;
        assert_eq!(rt; linked.1.written(), *said);
    }
    Ok(())
}

#[test]
fn scripts_not_run(rt: HostRuntime) -> Result<(), Fail> {
    let alloc = rt.alloc();
    let long = vec![in alloc; 0x20; 1_048_577]?;
    let limit = outcome(alloc, &["link", "m"], long, 99, 99)?;
    assert_eq!(rt; limit.0, Status::Limit);
    assert_eq!(rt;
        limit.1.written(),
        b"limit: script at 0x00100000\n".as_slice()
    );
    let missing = outcome(alloc, &["link", "x"], Vec::new(alloc), 99, 99)?;
    assert_eq!(rt; missing.0, Status::ReadFault);
    assert_eq!(rt; missing.1.written(), b"".as_slice());
    Ok(())
}

// A module of 31 functions, each of which calls the one before it four times.
fn doubling(alloc: Global) -> Result<Vec<u8>, Fail> {
    let mut module = with_header(alloc, &[1, 4, 1, 0x60, 0, 0, 3, 32, 31], 31)?;
    module.extend_from_slice(&[10, 0xce, 2, 31, 2, 0, 0x0b])?;
    for k in 0..30u8 {
        module.extend_from_slice(&[10, 0, 0x10, k, 0x10, k, 0x10, k, 0x10, k, 0x0b])?;
    }
    Ok(module)
}

#[test]
fn great_bounds(rt: HostRuntime) -> Result<(), Fail> {
    let alloc = rt.alloc();
    let bounded = outcome(alloc, &["steps", "m"], doubling(alloc)?, 999, 99)?;
    assert_eq!(rt; bounded.0, Status::Good);
    let last = b"function 29: 768614336404564649\nfunction 30: over\n";
    assert!(rt; bounded.1.written().ends_with(last));
    Ok(())
}

// A module of one function whose body is so many nested blocks, behind these bytes of its code section.
fn nested(alloc: Global, front: &[u8], blocks: usize) -> Result<Vec<u8>, Fail> {
    let mut module = with_header(alloc, &[1, 4, 1, 0x60, 0, 0, 3, 2, 1, 0], 0)?;
    module.extend_from_slice(front)?;
    for _ in 0..blocks {
        module.extend_from_slice(&[0x02, 0x40])?;
    }
    for _ in 0..blocks {
        module.push(0x0b)?;
    }
    module.push(0x0b)?;
    Ok(module)
}

#[test]
fn nesting(rt: HostRuntime) -> Result<(), Fail> {
    let alloc = rt.alloc();
    let most = nested(alloc, &[10, 0xb1, 2, 1, 0xae, 2, 0], 100)?;
    let checked = outcome(alloc, &["check", "m"], most, 99, 99)?;
    assert_eq!(rt; checked.1.written(), b"valid\n".as_slice());
    let deeper = nested(alloc, &[10, 0xb4, 2, 1, 0xb1, 2, 0], 101)?;
    let refused = outcome(alloc, &["check", "m"], deeper, 99, 99)?;
    assert_eq!(rt; refused.0, Status::Limit);
    assert_eq!(rt;
        refused.1.written(),
        b"limit: nesting at 0x000000e1\n".as_slice()
    );
    Ok(())
}

#[test]
fn length(rt: HostRuntime) -> Result<(), Fail> {
    let alloc = rt.alloc();
    // A custom section without a name that fills the longest module.
    let front = [0, 0xf3, 0xff, 0xff, 1, 0];
    let most = with_header(alloc, &front, 4_194_290)?;
    let checked = outcome(alloc, &["check", "m"], most, 99, 99)?;
    assert_eq!(rt; checked.1.written(), b"valid\n".as_slice());
    let longer = with_header(alloc, &front, 4_194_291)?;
    let refused = outcome(alloc, &["check", "m"], longer, 99, 99)?;
    assert_eq!(rt;
        refused.1.written(),
        b"limit: module at 0x00400000\n".as_slice()
    );
    Ok(())
}

// The first bytes of the example.
fn first(alloc: Global, length: usize) -> Result<Vec<u8>, Fail> {
    let mut cut = MODULE.to_vec(alloc)?;
    cut.truncate(length);
    Ok(cut)
}

#[test]
fn prefixes(rt: HostRuntime) -> Result<(), Fail> {
    let alloc = rt.alloc();
    for (from, to, said) in PREFIXES {
        for length in *from..*to {
            let checked = outcome(alloc, &["check", "m"], first(alloc, length)?, 99, 99)?;
            assert_eq!(rt; checked.1.written(), *said);
        }
    }
    Ok(())
}
