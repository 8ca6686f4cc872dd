use std::alloc::Global;
use std::test::Fail;
use wasm_binary::decode;
use wasm_syntax::Module;
use wasm_write::encode;

const HEADER: [u8; 8] = [0, 0x61, 0x73, 0x6d, 1, 0, 0, 0];

fn with_header(alloc: Global, bytes: &[u8]) -> Result<Vec<u8>, Fail> {
    let mut all = Vec::from_slice(alloc, &HEADER)?;
    all.extend_from_slice(bytes)?;
    Ok(all)
}

// The text of the module that the bytes decode to.
fn written(alloc: Global, bytes: &[u8]) -> Result<Vec<u8>, Fail> {
    let found = decode(alloc, bytes)?;
    let text = encode(alloc, &found.module)?;
    Ok(text.into_vec())
}

#[test]
fn shortest_spelling(rt: HostRuntime) -> Result<(), Fail> {
    let long = [
        1, 4, 1, 0x60, 0, 0, 3, 6, 1, 0x80, 0x80, 0x80, 0x80, 0, 0x0a, 4, 1, 2, 0, 0x0b,
    ];
    let short = [1, 4, 1, 0x60, 0, 0, 3, 2, 1, 0, 0x0a, 4, 1, 2, 0, 0x0b];
    let text = written(rt.alloc(), &with_header(rt.alloc(), &long)?)?;
    assert_eq!(rt;
        text.as_slice(),
        with_header(rt.alloc(), &short)?.as_slice()
    );
    Ok(())
}

// A section of each kind, most of them of one entry; custom sections first, in between and last; and runs of locals that
// can be joined.
const SAMPLE: [u8; 172] = [
    0, 3, 1, 0x61, 9, // custom
    1, 7, 1, 0x60, 2, 0x7f, 0x7e, 1, 0x7f, // types
    2, 8, 1, 1, 0x6d, 1, 0x67, 3, 0x7e, 1, // imports
    3, 2, 1, 0, // functions
    4, 5, 1, 0x70, 1, 1, 2, // tables
    5, 3, 1, 0, 1, // memories
    0, 2, 1, 0x62, // custom
    6, 6, 1, 0x7f, 0, 0x41, 0x40, 0x0b, // globals
    7, 5, 1, 1, 0x66, 0, 0, // exports
    8, 1, 0, // start
    9, 7, 1, 0, 0x41, 1, 0x0b, 1, 0, // elements
    10, 85, 1, 83, 3, 1, 0x7f, 2, 0x7f, 1, 0x7e, // code: locals
    0, 1, 2, 0x40, 3, 0x7f, 4, 0x7e, 5, 0x0b, 0x0b, 0x0b, // blocks
    0x0c, 0, 0x0d, 1, 0x0e, 2, 0, 1, 2, 0x0f, 0x10, 0, 0x11, 0, 0, 0x1a, 0x1b, // branches and calls
    0x20, 0, 0x21, 1, 0x22, 2, 0x23, 0, 0x24, 0, // locals and globals
    0x28, 2, 0x80, 1, 0x29, 3, 4, 0x36, 0, 0, 0x3e, 1, 1, 0x3f, 0, 0x40, 0, // memory
    0x41, 0xff, 0, 0x41, 0x80, 0x7f, 0x42, 0x7f, 0x42, 0xc0, 0, // constants
    0x45, 0x50, 0x67, 0x79, 0xa7, 0xac, 0xad, 0x6a, 0x0b, // numeric
    11, 8, 1, 0, 0x41, 0, 0x0b, 2, 5, 6, // data
    0, 2, 1, 0x63, // custom
];

#[test]
fn every_kind(rt: HostRuntime) -> Result<(), Fail> {
    let text = written(rt.alloc(), &with_header(rt.alloc(), &SAMPLE)?)?;
    let again = written(rt.alloc(), &text)?;
    assert_eq!(rt; text.as_slice(), again.as_slice());
    assert_eq!(rt; text.len(), 8 + SAMPLE.len() - 2, "two runs are one");
    Ok(())
}

/// Whether a module's copy is written for readers as the module is.
fn is_like_its_copy(alloc: Global, module: &Module) -> Result<bool, Fail> {
    let copied = module.copy(alloc)?;
    let text = format!(in alloc; "{module:?}")?;
    Ok(text == format!(in alloc; "{copied:?}")?)
}

#[test]
fn a_module_is_copied(rt: HostRuntime) -> Result<(), Fail> {
    let bytes = with_header(rt.alloc(), &SAMPLE)?;
    let found = decode(rt.alloc(), &bytes)?;
    assert!(rt; is_like_its_copy(rt.alloc(), &found.module)?);
    Ok(())
}
