ghost use Rattle.std.specs.Prelude.{◌≡◌, length};
ghost use Rattle.type_safety.specs.Typed.{Typed};
ghost use Rattle.wasm_sessions.specs.Instantiation.{IsAtRest};

use crate::running::{enter, load};
use std::alloc::Global;
use std::test::Fail;
use type_safety::the_first_is_typed;
use wasm_instantiate::add_host;
use wasm_store::{Config, Extern, Outcome};
use wasm_syntax::FuncType;
use wasm_values::List;

/// One function of type `[] -> []` without code, exported as `f`, in a table of two entries at 1; a global of 5; and a page of
/// memory with the bytes 7, 8 and 9 at 4.
const SAMPLE: &[u8] = &[
    0x00, 0x61, 0x73, 0x6d, 0x01, 0x00, 0x00, 0x00, // header
    0x01, 0x04, 0x01, 0x60, 0x00, 0x00, // types
    0x03, 0x02, 0x01, 0x00, // functions
    0x04, 0x04, 0x01, 0x70, 0x00, 0x02, // tables
    0x05, 0x03, 0x01, 0x00, 0x01, // memories
    0x06, 0x06, 0x01, 0x7f, 0x01, 0x41, 0x05, 0x0b, // globals
    0x07, 0x05, 0x01, 0x01, 0x66, 0x00, 0x00, // exports
    0x09, 0x07, 0x01, 0x00, 0x41, 0x01, 0x0b, 0x01, 0x00, // elements
    0x0a, 0x04, 0x01, 0x02, 0x00, 0x0b, // code
    0x0b, 0x09, 0x01, 0x00, 0x41, 0x04, 0x0b, 0x03, 0x07, 0x08, 0x09, // data
];

/// Instantiates the sample and enters its function.
fn enter_sample(alloc: Global, config: &mut Config) -> Result<(), Fail>
    requires typed { Typed config.old }
    requires rests { IsAtRest config.old.outcome }
{
    load(alloc, config, SAMPLE, &Vec::new(alloc))?;
    enter(alloc, config, 0)
}

// Before anything is instantiated nothing is there.
#[test]
fn nothing_at_first(rt: HostRuntime) -> Result<(), Fail> {
    let config = Config::new(rt.alloc());
    assert_eq!(rt; *config.outcome(), Outcome::Done(List::new(rt.alloc())));
    assert_eq!(rt; config.frame_count(), 0);
    assert_eq!(rt; config.top_instance(), None);
    assert_eq!(rt; config.host_top(), None);
    Ok(())
}

#[test]
fn a_function_is_invoked(rt: HostRuntime) -> Result<(), Fail> {
    the_first_is_typed();
    let mut config = Config::new(rt.alloc());
    enter_sample(rt.alloc(), &mut config)?;
    assert_eq!(rt; config.frame_count(), 1);
    assert_eq!(rt; config.top_instance(), Some(0));
    Ok(())
}

/// Adds a host's function of type `[] -> []`, and enters it.
fn enter_host(alloc: Global, config: &mut Config) -> Result<Extern, Fail>
    requires typed { Typed config.old }
    requires rests { IsAtRest config.old.outcome }
    requires empty { length config.old.store.funcs ≡ 0 }
{
    let ty = FuncType {
        params: List::new(alloc),
        results: List::new(alloc),
    };
    let host = add_host(alloc, config, &ty)?;
    enter(alloc, config, 0)?;
    Ok(host)
}

#[test]
fn a_host_is_invoked(rt: HostRuntime) -> Result<(), Fail> {
    the_first_is_typed();
    let mut config = Config::new(rt.alloc());
    assert_eq!(rt; enter_host(rt.alloc(), &mut config)?, Extern::Func(0));
    assert_eq!(rt; config.host_top(), Some(0));
    Ok(())
}

/// Whether the table's entries are none and function 0.
fn has_entries(config: &Config) -> bool {
    match config.store.tables.as_slice() {
        [table] => table.entries.as_slice() == [None, Some(0)].as_slice(),
        _ => false,
    }
}

/// Whether the memory has one page, with the segment's bytes at 4.
fn has_bytes(config: &Config) -> bool {
    match config.store.memories.as_slice() {
        [memory] => {
            let bytes = memory.bytes.as_slice();
            bytes.len() == 65_536 && bytes[..8] == [0, 0, 0, 0, 7, 8, 9, 0]
        }
        _ => false,
    }
}

#[test]
fn segments_are_written(rt: HostRuntime) -> Result<(), Fail> {
    the_first_is_typed();
    let mut config = Config::new(rt.alloc());
    load(rt.alloc(), &mut config, SAMPLE, &Vec::new(rt.alloc()))?;
    assert!(rt; has_entries(&config));
    assert!(rt; has_bytes(&config));
    Ok(())
}
