//! Modules made of bytes, and what of them others can reach.

use escape_analysis::{Exposure, Stability, exposure, inner_ok};
use std::alloc::Global;
use std::test::Fail;
use validity_laws::spelled_marks;
use wasm_binary::decode;
use wasm_validate::validate;

/// A private global, a private table that names function 0, and function 1 exported as `f`.
const PRIVATE_TABLE: &[u8] = &[
    0x00, 0x61, 0x73, 0x6d, 0x01, 0x00, 0x00, 0x00, // header
    0x01, 0x04, 0x01, 0x60, 0x00, 0x00, // types
    0x03, 0x03, 0x02, 0x00, 0x00, // functions
    0x04, 0x04, 0x01, 0x70, 0x00, 0x01, // tables
    0x06, 0x06, 0x01, 0x7f, 0x01, 0x41, 0x00, 0x0b, // globals
    0x07, 0x05, 0x01, 0x01, 0x66, 0x00, 0x01, // exports
    0x09, 0x07, 0x01, 0x00, 0x41, 0x00, 0x0b, 0x01, 0x00, // elements
    0x0a, 0x07, 0x02, 0x02, 0x00, 0x0b, 0x02, 0x00, 0x0b, // code
];

/// The same, with the table exported as `t`.
const EXPORTED_TABLE: &[u8] = &[
    0x00, 0x61, 0x73, 0x6d, 0x01, 0x00, 0x00, 0x00, // header
    0x01, 0x04, 0x01, 0x60, 0x00, 0x00, // types
    0x03, 0x03, 0x02, 0x00, 0x00, // functions
    0x04, 0x04, 0x01, 0x70, 0x00, 0x01, // tables
    0x06, 0x06, 0x01, 0x7f, 0x01, 0x41, 0x00, 0x0b, // globals
    0x07, 0x09, 0x02, 0x01, 0x66, 0x00, 0x01, 0x01, 0x74, 0x01, 0x00, // exports
    0x09, 0x07, 0x01, 0x00, 0x41, 0x00, 0x0b, 0x01, 0x00, // elements
    0x0a, 0x07, 0x02, 0x02, 0x00, 0x0b, 0x02, 0x00, 0x0b, // code
];

/// A memory, an immutable global and a mutable one, all exported.
const ALL_EXPORTED: &[u8] = &[
    0x00, 0x61, 0x73, 0x6d, 0x01, 0x00, 0x00, 0x00, // header
    0x05, 0x03, 0x01, 0x00, 0x01, // memories
    0x06, 0x0b, 0x02, 0x7f, 0x00, 0x41, 0x07, 0x0b, 0x7f, 0x01, 0x41, 0x00, 0x0b, // globals
    0x07, 0x0d, 0x03, 0x01, 0x6d, 0x02, 0x00, 0x01, 0x61, 0x03, 0x00, 0x01, 0x62, 0x03, 0x01, // exports
];

/// What others can reach of the module that the bytes spell.
fn reached(alloc: Global, bytes: &[u8]) -> Result<Exposure, Fail> {
    spelled_marks();
    let decoded = decode(alloc, bytes)?;
    let valid = validate(alloc, decoded.module, &decoded.marks)?;
    Ok(exposure(alloc, &valid)?)
}

#[test]
fn a_private_table_hides_its_functions(rt: HostRuntime) -> Result<(), Fail> {
    let e = reached(rt.alloc(), PRIVATE_TABLE)?;
    assert!(rt; e.table);
    assert!(rt; !e.memory);
    assert!(rt; matches!(e.globals.as_slice(), [Stability::Private]));
    assert!(rt; matches!(e.exposed.as_slice(), [false, true]));
    Ok(())
}

#[test]
fn an_exported_table_exposes_its_functions(rt: HostRuntime) -> Result<(), Fail> {
    let e = reached(rt.alloc(), EXPORTED_TABLE)?;
    assert!(rt; !e.table);
    assert!(rt; matches!(e.exposed.as_slice(), [true, true]));
    Ok(())
}

#[test]
fn exported_globals_and_memories_are_reached(rt: HostRuntime) -> Result<(), Fail> {
    let e = reached(rt.alloc(), ALL_EXPORTED)?;
    assert!(rt; !e.memory);
    assert!(rt;
        matches!(
            e.globals.as_slice(),
            [Stability::Immutable, Stability::Unstable]
        )
    );
    Ok(())
}

#[test]
fn an_exported_function_is_not_inner(rt: HostRuntime) -> Result<(), Fail> {
    let e = reached(rt.alloc(), PRIVATE_TABLE)?;
    if e.exposed.len() == 2 {
        assert!(rt; inner_ok(&e, 0));
        assert!(rt; !inner_ok(&e, 1));
    }
    Ok(())
}
