//! A script of two modules that share a table.

use crate::{read_script, run_script};
use rw_edge::MemShelf;
use std::alloc::Global;
use std::test::Fail;
use wasm_values::{Bytes, Text};

/// Exports a table of one entry and a function that calls this entry, up to the third time.
const FIRST: [u8; 69] = [
    0, 0x61, 0x73, 0x6d, 1, 0, 0, 0, 1, 4, 1, 0x60, 0, 0, 3, 2, 1, 0, 4, 4, 1, 0x70, 0, 1, 6, 6, 1,
    0x7f, 1, 0x41, 0, 0xb, 7, 9, 2, 1, 0x74, 1, 0, 1, 0x68, 0, 0, 0xa, 0x18, 1, 0x16, 0, 0x23, 0,
    0x41, 1, 0x6a, 0x24, 0, 0x23, 0, 0x41, 3, 0x49, 4, 0x40, 0x41, 0, 0x11, 0, 0, 0xb, 0xb,
];

/// Imports both, puts a function into the table that counts and calls the other, and exports it and its count.
const SECOND: [u8; 99] = [
    0, 0x61, 0x73, 0x6d, 1, 0, 0, 0, 1, 8, 2, 0x60, 0, 0, 0x60, 0, 1, 0x7f, 2, 0xf, 2, 1, 0x65, 1,
    0x74, 1, 0x70, 0, 1, 1, 0x65, 1, 0x68, 0, 0, 3, 3, 2, 0, 1, 6, 0xb, 2, 0x7f, 1, 0x41, 0, 0xb,
    0x7f, 1, 0x41, 0, 0xb, 7, 0xb, 2, 1, 0x66, 0, 1, 3, 0x67, 0x65, 0x74, 0, 2, 9, 7, 1, 0, 0x41,
    0, 0xb, 1, 1, 0xa, 0x16, 2, 0xf, 0, 0x23, 0, 0x41, 1, 0x6a, 0x24, 0, 0x23, 0, 0x24, 1, 0x10, 0,
    0xb, 4, 0, 0x23, 0, 0xb,
];

const SCRIPT: &[u8] = b"(script 1000 (load a \"first\") (load p \"second\") (new x a)
 (new y p (from x \"t\") (from x \"h\")) (call y \"f\") (call y \"get\"))";

const LOG: &[u8] = b"x: made\ny: made\ny \"f\": values\ny \"get\": values i32 3\n";

fn shelf(alloc: Global) -> Result<MemShelf, Fail> {
    let mut files = Vec::new(alloc);
    let first = Bytes::from_vec(FIRST.to_vec(alloc)?);
    files.push((Text::from_str(alloc, "first")?, first))?;
    let second = Bytes::from_vec(SECOND.to_vec(alloc)?);
    files.push((Text::from_str(alloc, "second")?, second))?;
    Ok(MemShelf::new(files, Vec::new(alloc)))
}

/// Whether a script has this log.
fn has_log(alloc: Global, shelf: &mut MemShelf, script: &[u8], log: &[u8]) -> bool {
    match read_script(alloc, script) {
        Ok(script) => match run_script(alloc, shelf, &script) {
            Ok(found) => found.text.as_slice() == log,
            Err(_) => false,
        },
        Err(_) => false,
    }
}

#[test]
fn two_modules_share_a_table(rt: HostRuntime) -> Result<(), Fail> {
    let alloc = rt.alloc();
    let mut shelf = shelf(alloc)?;
    assert!(rt; has_log(alloc, &mut shelf, SCRIPT, LOG));
    Ok(())
}
