// Small bodies over the instructions, run to their end by steps.

ghost use Rattle.std.specs.Prelude.{◌≡◌, length, IfOk};
ghost use Rattle.type_safety.specs.Typed.{Typed};
ghost use Rattle.wasm_sessions.specs.Instantiation.{IsAtRest};

use crate::rows::{COMPARISONS, CONTROL, Ended, OPERATORS_32, OPERATORS_64, Row, STATE};
use crate::running::{enter, load, run_alone, run_out};
use std::alloc::Global;
use std::test::Fail;
use type_safety::the_first_is_typed;
use wasm_instantiate::add_host;
use wasm_reduce::Moved;
use wasm_store::{Config, Outcome};
use wasm_syntax::FuncType;
use wasm_values::{List, Val, ValType};

/// The module of such a function.
fn module_of(alloc: Global, ty: u8, body: &[u8]) -> Result<Vec<u8>, Fail> {
    let size = body.len().min(100) as u8;
    let mut module = Vec::from_slice(
        alloc,
        &[
            0, 97, 115, 109, 1, 0, 0, 0, 1, 18, 4, 0x60, 0, 0, 0x60, 0, 1, 0x7f, 0x60, 0, 1, 0x7e,
            0x60, 2, 0x7f, 0x7f, 1, 0x7f, 3, 5, 4, ty, 1, 3, 0,
        ],
    )?;
    module.extend_from_slice(&[4, 5, 1, 0x70, 1, 2, 2, 5, 4, 1, 1, 1, 2])?;
    module.extend_from_slice(&[6, 6, 1, 0x7f, 1, 0x41, 5, 0x0b])?;
    module.extend_from_slice(&[9, 7, 1, 0, 0x41, 0, 0x0b, 1, 1])?;
    module.extend_from_slice(&[10, size + 24, 4, size + 5, 2, 1, 0x7f, 1, 0x7e])?;
    module.extend_from_slice(body)?;
    module.extend_from_slice(&[4, 0, 0x41, 7, 0x0b])?;
    module.extend_from_slice(&[7, 0, 0x20, 0, 0x20, 1, 0x6b, 0x0b, 3, 0, 0x00, 0x0b])?;
    module.extend_from_slice(&[11, 14, 1, 0, 0x41, 0, 0x0b, 8, 1, 2, 3, 4, 5, 6, 7, 0xf8])?;
    Ok(module)
}

fn end_of_run(outcome: &Outcome) -> Ended {
    match outcome {
        Outcome::Running => Ended::Never,
        Outcome::Trapped => Ended::Trapped,
        Outcome::Done(values) => match values.as_slice() {
            [] => Ended::Nothing,
            [Val::I32(value), ..] => Ended::I32(*value),
            [Val::I64(value), ..] => Ended::I64(*value),
        },
    }
}

/// What the function comes to, and after how many steps.
fn ran(alloc: Global, ty: u8, body: &[u8]) -> Result<(Ended, u32), Fail> {
    the_first_is_typed();
    let module = module_of(alloc, ty, body)?;
    let mut config = Config::new(alloc);
    let (steps, _) = run_alone(alloc, &mut config, module.as_slice())?;
    Ok((end_of_run(config.outcome()), steps))
}

/// Whether a row's function comes to what the row says, after as many steps.
fn is_as_said(alloc: Global, row: &Row) -> Result<bool, Fail> {
    let (end, steps) = ran(alloc, row.0, row.1)?;
    Ok(end == row.2 && steps == row.3)
}

/// The first of these rows that says something else.
fn first_other(alloc: Global, rows: &[Row]) -> Result<Option<usize>, Fail> {
    for i in 0..rows.len() {
        if !is_as_said(alloc, &rows[i])? {
            return Ok(Some(i));
        }
    }
    Ok(None)
}

#[test]
fn state_is_read_and_written(rt: HostRuntime) -> Result<(), Fail> {
    assert_eq!(rt; first_other(rt.alloc(), STATE)?, None);
    Ok(())
}

#[test]
fn control_goes_on(rt: HostRuntime) -> Result<(), Fail> {
    assert_eq!(rt; first_other(rt.alloc(), CONTROL)?, None);
    Ok(())
}

#[test]
fn comparisons_are_run(rt: HostRuntime) -> Result<(), Fail> {
    assert_eq!(rt; first_other(rt.alloc(), COMPARISONS)?, None);
    Ok(())
}

#[test]
fn operators_on_i32_are_run(rt: HostRuntime) -> Result<(), Fail> {
    assert_eq!(rt; first_other(rt.alloc(), OPERATORS_32)?, None);
    Ok(())
}

#[test]
fn operators_on_i64_are_run(rt: HostRuntime) -> Result<(), Fail> {
    assert_eq!(rt; first_other(rt.alloc(), OPERATORS_64)?, None);
    Ok(())
}

/// A function of type `[] -> [i32]`, exported as `f`, that counts an i32 down from 3 in a loop.
const COUNTING: &[u8] = &[
    0x00, 0x61, 0x73, 0x6d, 0x01, 0x00, 0x00, 0x00, 0x01, 0x05, 0x01, 0x60, 0x00, 0x01, 0x7f, 0x03,
    0x02, 0x01, 0x00, 0x07, 0x05, 0x01, 0x01, 0x66, 0x00, 0x00, 0x0a, 0x18, 0x01, 0x16, 0x01, 0x01,
    0x7f, 0x41, 0x03, 0x21, 0x00, 0x03, 0x40, 0x20, 0x00, 0x41, 0x01, 0x6b, 0x22, 0x00, 0x0d, 0x00,
    0x0b, 0x20, 0x00, 0x0b,
];

/// What the function comes to, after how many steps, and what the last step answers.
fn counted(alloc: Global) -> Result<(Ended, u32, Option<Moved>), Fail> {
    the_first_is_typed();
    let mut config = Config::new(alloc);
    let (steps, moved) = run_alone(alloc, &mut config, COUNTING)?;
    Ok((end_of_run(config.outcome()), steps, moved))
}

#[test]
fn the_last_step_is_done(rt: HostRuntime) -> Result<(), Fail> {
    let (end, steps, moved) = counted(rt.alloc())?;
    assert_eq!(rt; end, Ended::I32(0));
    assert_eq!(rt; steps, 21);
    assert_eq!(rt; moved, Some(Moved::Done));
    Ok(())
}

/// A function of type `[] -> []` that calls an imported one of type `[i32] -> []` with 7.
const CALLING: &[u8] = &[
    0x00, 0x61, 0x73, 0x6d, 0x01, 0x00, 0x00, 0x00, 0x01, 0x08, 0x02, 0x60, 0x01, 0x7f, 0x00, 0x60,
    0x00, 0x00, 0x02, 0x07, 0x01, 0x01, 0x65, 0x01, 0x68, 0x00, 0x00, 0x03, 0x02, 0x01, 0x01, 0x0a,
    0x08, 0x01, 0x06, 0x00, 0x41, 0x07, 0x10, 0x00, 0x0b,
];

/// The function type `[i32] -> []`.
fn takes_one(alloc: Global) -> Result<FuncType, Fail>
    ensures { IfOk result (λ ty. length ty.results ≡ 0) }
{
    let mut params = List::new(alloc);
    params.push(ValType::I32)?;
    Ok(FuncType {
        params,
        results: List::new(alloc),
    })
}

/// Adds a host's function, instantiates the module that the bytes spell with it, enters the module's function, and runs it. It
/// answers the number of the last step.
fn run_linked(alloc: Global, config: &mut Config, bytes: &[u8]) -> Result<u32, Fail>
    requires typed { Typed config.old }
    requires rests { IsAtRest config.old.outcome }
    requires empty { length config.old.store.funcs ≡ 0 }
{
    let host = add_host(alloc, config, &takes_one(alloc)?)?;
    load(alloc, config, bytes, &Vec::from_slice(alloc, &[host])?)?;
    enter(alloc, config, 1)?;
    let (steps, _) = run_out(alloc, config)?;
    Ok(steps)
}

/// The first argument of the host's function on top, or none where there is none.
fn first_argument(config: &Config) -> Option<Val> {
    if config.host_top().is_none() {
        return None;
    }
    config.host_args().as_slice().first().copied()
}

/// At which step a host's function is found on top, which one, over how many frames in all, and with which argument.
fn called(alloc: Global) -> Result<(u32, Option<u32>, usize, Option<Val>), Fail> {
    the_first_is_typed();
    let mut config = Config::new(alloc);
    let steps = run_linked(alloc, &mut config, CALLING)?;
    Ok((
        steps,
        config.host_top(),
        config.frame_count(),
        first_argument(&config),
    ))
}

#[test]
fn a_host_is_called(rt: HostRuntime) -> Result<(), Fail> {
    let (steps, host, frames, argument) = called(rt.alloc())?;
    assert_eq!(rt; steps, 3);
    assert_eq!(rt; host, Some(0));
    assert_eq!(rt; frames, 2);
    assert_eq!(rt; argument, Some(Val::I32(7)));
    Ok(())
}
