// Modules made of bytes, instantiated and run by steps.

ghost use Rattle.std.specs.Prelude.{IsTrue};
ghost use Rattle.type_safety.specs.Typed.{Typed};
ghost use Rattle.wasm_sessions.specs.Instantiation.{IsAtRest};

use std::alloc::Global;
use std::test::Fail;
use validity_laws::spelled_marks;
use wasm_binary::decode;
use wasm_instantiate::{instantiate, invoke};
use wasm_reduce::{Moved, Policy, step};
use wasm_store::{Config, Extern, Outcome};
use wasm_validate::{ValidModule, validate};

pub(crate) const POLICY: Policy = Policy {
    pages: 1_024,
    frames: 10_000,
};

pub(crate) fn is_at_rest(outcome: &Outcome) -> bool
    ensures { IsTrue result → IsAtRest outcome.now }
{
    match outcome {
        Outcome::Running => false,
        Outcome::Done(_) => true,
        Outcome::Trapped => true,
    }
}

/// The valid module that the bytes spell.
fn made(alloc: Global, bytes: &[u8]) -> Result<ValidModule, Fail> {
    spelled_marks();
    let decoded = decode(alloc, bytes)?;
    Ok(validate(alloc, decoded.module, &decoded.marks)?)
}

/// Instantiates the module that the bytes spell.
pub(crate) fn load(
    alloc: Global,
    config: &mut Config,
    bytes: &[u8],
    externs: &Vec<Extern>,
) -> Result<(), Fail>
    requires typed { Typed config.old }
    requires rests { IsAtRest config.old.outcome }
    ensures { Typed config.new }
{
    let valid = made(alloc, bytes)?;
    instantiate(alloc, config, &valid, externs, &POLICY)?;
    Ok(())
}

/// Enters a function without parameters, where it is there and nothing runs.
pub(crate) fn enter(alloc: Global, config: &mut Config, func: u32) -> Result<(), Fail>
    requires { Typed config.old }
    ensures { Typed config.new }
{
    if is_at_rest(config.outcome()) && config.store.funcs.len() > func as usize {
        invoke(alloc, config, &Extern::Func(func), &Vec::new(alloc))?;
    }
    Ok(())
}

/// Instantiates the module that the bytes spell, where nothing runs.
pub(crate) fn load_at_rest(
    alloc: Global,
    config: &mut Config,
    bytes: &[u8],
    externs: &Vec<Extern>,
) -> Result<(), Fail>
    requires { Typed config.old }
    ensures { Typed config.new }
{
    if is_at_rest(config.outcome()) {
        load(alloc, config, bytes, externs)?;
    }
    Ok(())
}

/// Takes a step where a module's function is on top.
pub(crate) fn advance(alloc: Global, config: &mut Config) -> Result<Option<Moved>, Fail>
    requires { Typed config.old }
    ensures { Typed config.new }
{
    if config.top_instance().is_none() {
        return Ok(None);
    }
    Ok(Some(step(alloc, config, &POLICY)?))
}

/// Instantiates the module that the bytes spell in an empty configuration, enters a function and runs it. It answers what
/// `run_out` answers.
pub(crate) fn run_alone(
    alloc: Global,
    config: &mut Config,
    bytes: &[u8],
) -> Result<(u32, Option<Moved>), Fail>
    requires typed { Typed config.old }
    requires rests { IsAtRest config.old.outcome }
    ensures { Typed config.new }
{
    load(alloc, config, bytes, &Vec::new(alloc))?;
    enter(alloc, config, 0)?;
    run_out(alloc, config)
}

/// Takes steps until one doesn't go on, at most a hundred. It answers that step's number and what it came to: nothing where
/// there is no step.
pub(crate) fn run_out(alloc: Global, config: &mut Config) -> Result<(u32, Option<Moved>), Fail>
    requires { Typed config.old }
    ensures { Typed config.new }
{
    'steps: for steps in 0..100 {
        let moved = advance(alloc, config)?;
        if moved != Some(Moved::Went) {
            return Ok((steps + 1, moved));
        }
    }
    Ok((100, Some(Moved::Went)))
}
