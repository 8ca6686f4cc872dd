// Hosts and modules in turn: a host is entered again, and goes on after a start function that traps.

ghost use Rattle.std.specs.Prelude.{IsTrue};
ghost use Rattle.type_safety.specs.Typed.{Typed};
ghost use Rattle.wasm_instantiate.specs.declared.acts.HostAct.{HostAct};
ghost use Rattle.wasm_instantiate.specs.HostAnswers.{MayAct};

use crate::hosting::Deed::{Call, Entry, Global, GrowTable, Return, ReturnOne};
use crate::hosting::Seen::{Done, Empty, Given, Value};
use crate::hosting::Turn::{Act, Invoke, See, Step, Steps};
use crate::running::{POLICY, advance, enter, is_at_rest, load_at_rest};
use std::alloc;
use std::test::Fail;
use type_safety::the_first_is_typed;
use wasm_instantiate::{HostAct, HostFault, add_host, host_act};
use wasm_reduce::Moved;
use wasm_store::{Config, Extern, Outcome};
use wasm_syntax::FuncType;
use wasm_values::{List, Val};

/// An act of the host on top: a global set to an i32, an entry made empty, a table grown, a call without arguments, a return of
/// nothing and of an i32.
#[derive(Clone, Copy)]
enum Deed {
    Global(u32, u32),
    Entry(u32, u32),
    GrowTable(u32, u32),
    Call(u32),
    Return,
    ReturnOne,
}

/// What is seen: a global's i32, an empty entry of a table, the i32 that the host on top was given, and the i32 that all came to.
#[derive(Clone, Copy)]
enum Seen {
    Value(u32, u32),
    Empty(u32, usize),
    Given(u32),
    Done(u32),
}

/// One turn: a function is invoked, so many steps go on, a step comes to this, an act of the host is answered so, this is seen.
#[derive(Clone, Copy)]
enum Turn {
    Invoke(u32),
    Steps(u32),
    Step(Moved),
    Act(Deed, Result<Moved, HostFault>),
    See(Seen),
}

fn one(alloc: alloc::Global) -> Result<List<Val>, Fail> {
    let mut values = List::new(alloc);
    values.push(Val::I32(1))?;
    Ok(values)
}

fn act_of(alloc: alloc::Global, deed: Deed) -> Result<HostAct, Fail> {
    let none = List::new(alloc);
    match deed {
        Global(global, value) => Ok(HostAct::Global {
            global,
            value: Val::I32(value),
        }),
        Entry(table, at) => Ok(HostAct::Entry {
            table,
            at,
            func: None,
        }),
        GrowTable(table, entries) => Ok(HostAct::GrowTable { table, entries }),
        Call(func) => Ok(HostAct::Call { func, args: none }),
        Return => Ok(HostAct::Return { values: none }),
        ReturnOne => Ok(HostAct::Return {
            values: one(alloc)?,
        }),
    }
}

/// Whether a host is on top, and may act.
fn has_host(config: &Config) -> bool
    ensures { IsTrue result → (act : HostAct) → MayAct config.now act }
{
    match config.host_top() {
        Some(_) => true,
        None => false,
    }
}

/// What the act of the host on top is answered, or nothing where no host is on top.
fn acted(
    alloc: alloc::Global,
    config: &mut Config,
    deed: Deed,
) -> Result<Option<Result<Moved, HostFault>>, Fail>
    requires { Typed config.old }
    ensures { Typed config.new }
{
    let act = act_of(alloc, deed)?;
    if !has_host(config) {
        return Ok(None);
    }
    Ok(Some(host_act(alloc, config, &act, &POLICY)))
}

fn holds(config: &Config, seen: Seen) -> bool {
    match seen {
        Value(global, value) => {
            (global as usize) < config.store.globals.len()
                && config.global_value(global) == Val::I32(value)
        }
        Empty(table, at) => match config.store.tables.as_slice().get(table as usize) {
            Some(found) => at < found.entries.len() && config.table_entry(table, at).is_none(),
            None => false,
        },
        Given(value) => {
            config.host_top().is_some()
                && config.host_given().as_slice() == [Val::I32(value)].as_slice()
        }
        Done(value) => match config.outcome() {
            Outcome::Done(values) => values.as_slice() == [Val::I32(value)].as_slice(),
            _ => false,
        },
    }
}

/// How many of so many steps go on.
fn steps_on(alloc: alloc::Global, config: &mut Config, count: u32) -> Result<u32, Fail>
    requires { Typed config.old }
    ensures { Typed config.new }
{
    for taken in 0..count {
        if advance(alloc, config)? != Some(Moved::Went) {
            return Ok(taken);
        }
    }
    Ok(count)
}

/// Whether a turn comes to what it says.
fn is_as_said(alloc: alloc::Global, config: &mut Config, turn: Turn) -> Result<bool, Fail>
    requires { Typed config.old }
    ensures { Typed config.new }
{
    match turn {
        Invoke(func) => {
            enter(alloc, config, func)?;
            Ok(config.frame_count() == 1)
        }
        Steps(count) => Ok(steps_on(alloc, config, count)? == count),
        Step(moved) => Ok(advance(alloc, config)? == Some(moved)),
        Act(deed, answer) => Ok(acted(alloc, config, deed)? == Some(answer)),
        See(seen) => Ok(holds(config, seen)),
    }
}

/// The first turn that comes to something else.
fn first_other(
    alloc: alloc::Global,
    config: &mut Config,
    turns: &[Turn],
) -> Result<Option<usize>, Fail>
    requires { Typed config.old }
    ensures { Typed config.new }
{
    for i in 0..turns.len() {
        if !is_as_said(alloc, config, turns[i])? {
            return Ok(Some(i));
        }
    }
    Ok(None)
}

/// Adds a host's function of type `[] -> []`, where nothing runs.
fn add_at_rest(alloc: alloc::Global, config: &mut Config) -> Result<Option<Extern>, Fail>
    requires { Typed config.old }
    ensures { Typed config.new }
{
    let ty = FuncType {
        params: List::new(alloc),
        results: List::new(alloc),
    };
    if !is_at_rest(config.outcome()) || config.store.funcs.len() >= 4_294_967_295 {
        return Ok(None);
    }
    Ok(Some(add_host(alloc, config, &ty)?))
}

/// Exports a table of one entry and function 0, which adds 1 to a global and calls entry 0 while it is below 3.
const CALLER: &[u8] = &[
    0x00, 0x61, 0x73, 0x6d, 0x01, 0x00, 0x00, 0x00, 0x01, 0x04, 0x01, 0x60, 0x00, 0x00, 0x03, 0x02,
    0x01, 0x00, 0x04, 0x04, 0x01, 0x70, 0x00, 0x01, 0x06, 0x06, 0x01, 0x7f, 0x01, 0x41, 0x00, 0x0b,
    0x07, 0x09, 0x02, 0x01, 0x74, 0x01, 0x00, 0x01, 0x68, 0x00, 0x00, 0x0a, 0x18, 0x01, 0x16, 0x00,
    0x23, 0x00, 0x41, 0x01, 0x6a, 0x24, 0x00, 0x23, 0x00, 0x41, 0x03, 0x49, 0x04, 0x40, 0x41, 0x00,
    0x11, 0x00, 0x00, 0x0b, 0x0b,
];

/// Imports a table, whose entry 0 becomes its first function, and a function. Its first function adds 1 to a global, copies it to
/// another, and calls the import; its second gives the first global.
const CALLED: &[u8] = &[
    0x00, 0x61, 0x73, 0x6d, 0x01, 0x00, 0x00, 0x00, 0x01, 0x08, 0x02, 0x60, 0x00, 0x00, 0x60, 0x00,
    0x01, 0x7f, 0x02, 0x0f, 0x02, 0x01, 0x65, 0x01, 0x74, 0x01, 0x70, 0x00, 0x01, 0x01, 0x65, 0x01,
    0x68, 0x00, 0x00, 0x03, 0x03, 0x02, 0x00, 0x01, 0x06, 0x0b, 0x02, 0x7f, 0x01, 0x41, 0x00, 0x0b,
    0x7f, 0x01, 0x41, 0x00, 0x0b, 0x07, 0x0b, 0x02, 0x01, 0x66, 0x00, 0x01, 0x03, 0x67, 0x65, 0x74,
    0x00, 0x02, 0x09, 0x07, 0x01, 0x00, 0x41, 0x00, 0x0b, 0x01, 0x01, 0x0a, 0x16, 0x02, 0x0f, 0x00,
    0x23, 0x00, 0x41, 0x01, 0x6a, 0x24, 0x00, 0x23, 0x00, 0x24, 0x01, 0x10, 0x00, 0x0b, 0x04, 0x00,
    0x23, 0x00, 0x0b,
];

/// A host is called by a module, calls the module's function again, is called once more by it, and both returns go through. What
/// the module doesn't export stays its own.
const REENTRY: &[Turn] = &[
    Invoke(2),
    Steps(7),
    See(Value(1, 1)),
    See(Value(2, 1)),
    Act(Global(1, 9), Err(HostFault::NotExported)),
    Act(Entry(0, 1), Err(HostFault::Bounds)),
    Act(ReturnOne, Err(HostFault::WrongType)),
    Act(Call(2), Ok(Moved::Went)),
    Steps(7),
    Act(Return, Ok(Moved::Went)),
    Steps(1),
    Act(Return, Ok(Moved::Went)),
    Step(Moved::Done),
    Invoke(3),
    Steps(1),
    Step(Moved::Done),
    See(Done(2)),
];

fn reentered(alloc: alloc::Global) -> Result<Option<usize>, Fail> {
    the_first_is_typed();
    let mut config = Config::new(alloc);
    load_at_rest(alloc, &mut config, CALLER, &Vec::new(alloc))?;
    let Some(host) = add_at_rest(alloc, &mut config)? else {
        return Ok(Some(99));
    };
    let externs = Vec::from_slice(alloc, &[Extern::Table(0), host])?;
    load_at_rest(alloc, &mut config, CALLED, &externs)?;
    first_other(alloc, &mut config, REENTRY)
}

#[test]
fn a_host_is_entered_again(rt: HostRuntime) -> Result<(), Fail> {
    assert_eq!(rt; reentered(rt.alloc())?, None);
    Ok(())
}

/// Exports a table of one entry, and function 0, which calls entry 0 and gives its i32.
const SHARING: &[u8] = &[
    0x00, 0x61, 0x73, 0x6d, 0x01, 0x00, 0x00, 0x00, 0x01, 0x05, 0x01, 0x60, 0x00, 0x01, 0x7f, 0x03,
    0x02, 0x01, 0x00, 0x04, 0x04, 0x01, 0x70, 0x00, 0x01, 0x07, 0x0a, 0x02, 0x01, 0x74, 0x01, 0x00,
    0x02, 0x67, 0x6f, 0x00, 0x00, 0x0a, 0x09, 0x01, 0x07, 0x00, 0x41, 0x00, 0x11, 0x00, 0x00, 0x0b,
];

/// Imports a table, whose entry 0 becomes its second function, which gives the i32 9. Its first is its start function, and traps.
const TRAPPING: &[u8] = &[
    0x00, 0x61, 0x73, 0x6d, 0x01, 0x00, 0x00, 0x00, 0x01, 0x08, 0x02, 0x60, 0x00, 0x00, 0x60, 0x00,
    0x01, 0x7f, 0x02, 0x09, 0x01, 0x01, 0x65, 0x01, 0x74, 0x01, 0x70, 0x00, 0x01, 0x03, 0x03, 0x02,
    0x00, 0x01, 0x08, 0x01, 0x00, 0x09, 0x07, 0x01, 0x00, 0x41, 0x00, 0x0b, 0x01, 0x01, 0x0a, 0x0a,
    0x02, 0x03, 0x00, 0x00, 0x0b, 0x04, 0x00, 0x41, 0x09, 0x0b,
];

/// The function that a table once shared stays within a host's reach, also where its instance's start function trapped and its
/// entry is empty by now; the start function itself was never shared.
const AFTER_THE_TRAP: &[Turn] = &[
    Invoke(3),
    Act(Entry(0, 0), Ok(Moved::Went)),
    Act(GrowTable(0, 1), Ok(Moved::Went)),
    See(Empty(0, 1)),
    Act(Call(1), Err(HostFault::NotExported)),
    Act(Call(2), Ok(Moved::Went)),
    Steps(2),
    See(Given(9)),
    Act(Return, Ok(Moved::Done)),
];

fn after_the_trap(alloc: alloc::Global) -> Result<Option<usize>, Fail> {
    the_first_is_typed();
    let mut config = Config::new(alloc);
    load_at_rest(alloc, &mut config, SHARING, &Vec::new(alloc))?;
    let externs = Vec::from_slice(alloc, &[Extern::Table(0)])?;
    load_at_rest(alloc, &mut config, TRAPPING, &externs)?;
    if first_other(alloc, &mut config, &[Step(Moved::Trapped)])?.is_some() {
        return Ok(Some(98));
    }
    if add_at_rest(alloc, &mut config)? != Some(Extern::Func(3)) {
        return Ok(Some(99));
    }
    first_other(alloc, &mut config, AFTER_THE_TRAP)
}

#[test]
fn a_host_goes_on_after_a_trapped_start(rt: HostRuntime) -> Result<(), Fail> {
    assert_eq!(rt; after_the_trap(rt.alloc())?, None);
    Ok(())
}
