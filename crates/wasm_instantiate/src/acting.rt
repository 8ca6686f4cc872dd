//! What a host or the embedder, which has control, does to a configuration (section 4.4.7).

ghost use Rattle.std.specs.Prelude.{◌≡◌, ℕ, ◌<◌, List, ◌∷◌, length, Some, IsTrue, false, OnOk, OnErr};
ghost use Rattle.wasm_store.specs.declared.config.Outcome.TheVariants.{Running};
ghost use Rattle.wasm_store.specs.Configuration.{Layer, trapped};
ghost use Rattle.type_safety.specs.Typed.{Typed};
ghost use Rattle.wasm_reduce.specs.declared.policy.Policy.{Policy};
ghost use Rattle.wasm_sessions.specs.Hosts.{HasHostOnTop, HostHasControl};
ghost use Rattle.wasm_instantiate.specs.HostAnswers.{MayAct, HostActAnswers, told_of_return};
ghost use Rattle.wasm_instantiate.specs.words.Writing.{is_write, went_of};
ghost use Rattle.wasm_instantiate.specs.words.Acting.{EntersOver, LeavesWith};

use crate::acts::HostAct;
use crate::faults::HostFault;
use crate::pool::is_in_reach;
use crate::typing::{copy_values, have_types, type_at};
use crate::writing::write;
use std::alloc::Global;
use std::mem;
use wasm_reduce::{Moved, Policy, pass_down};
use wasm_store::{Config, Outcome, make_frame};
use wasm_values::{List, OutOfMemory, Val};

/// Whether an act is a write or a growth.
fn is_write(act: &HostAct) -> bool
    ensures { result ≡ is_write act.now }
{
    !matches!(
        act,
        HostAct::Call { .. } | HostAct::Return { .. } | HostAct::Trap
    )
}

fn went(written: Result<(), HostFault>) -> Result<Moved, HostFault>
    ensures { result ≡ went_of written }
{
    match written {
        Ok(()) => Ok(Moved::Went),
        Err(fault) => Err(fault),
    }
}

/// Makes the write that an act names.
fn write_in(
    alloc: Global,
    config: &mut Config,
    act: &HostAct,
    policy: &Policy,
) -> Result<Moved, HostFault>
    requires typed { Typed config.old }
    requires control { MayAct config.old act.now }
    requires write { IsTrue (is_write act.now) }
    ensures { HostActAnswers policy.now config.old act.now config.new result }
{
    went(write(alloc, &mut config.store, act, policy))
}

/// Enters the function at an address over the frames that are there.
fn enter_over(
    alloc: Global,
    config: &mut Config,
    address: u32,
    args: List<Val>,
) -> Result<(), OutOfMemory>
    requires typed { Typed config.old }
    requires exists { address < length config.old.store.funcs }
    ensures ok { OnOk result (EntersOver config.old address args config.new) }
    ensures err { OnErr result (config.new ≡ config.old) }
{
    let frame = make_frame(alloc, &config.store, address, args)?;
    config.frames.push(frame)
}

/// The host whose frame is on top calls a function.
fn call(
    alloc: Global,
    config: &mut Config,
    func: u32,
    args: &List<Val>,
    policy: &Policy,
) -> Result<Moved, HostFault>
    requires typed { Typed config.old }
    requires host { HasHostOnTop config.old.frames }
    ensures { HostActAnswers policy.now config.old (HostAct.Call func args.now) config.new result }
{
    if !is_in_reach(&config.store, func) {
        return Err(HostFault::NotExported);
    }
    let ty = type_at(&config.store, func);
    if !have_types(args.as_slice(), ty.params.as_slice()) {
        return Err(HostFault::WrongType);
    }
    if config.frames.len() >= policy.frames as usize {
        return Err(HostFault::Limit);
    }
    let args = copy_values(alloc, args)?;
    enter_over(alloc, config, func, args)?;
    Ok(Moved::Went)
}

/// Leaves the top frame with these values.
fn leave(alloc: Global, config: &mut Config, values: List<Val>) -> Result<(), OutOfMemory>
    requires running { config.old.outcome ≡ Running }
    requires host { HasHostOnTop config.old.frames }
    ensures ok { OnOk result (LeavesWith config.old values config.new) }
    ensures err { OnErr result (config.new ≡ config.old) }
{
    let mut frames = mem::replace(&mut config.frames, List::new(alloc)).into_vec();
    let left = pass_down(&mut frames, &mut config.outcome, values);
    config.frames = List::from_vec(frames);
    left
}

/// What a return tells: whether it left the last frame.
fn told_of_return(config: &Config) -> Moved
    ensures { result ≡ told_of_return config.now.frames }
{
    match config.frame_count() {
        0 => Moved::Done,
        _ => Moved::Went,
    }
}

/// The host whose frame is on top leaves it with these values.
fn give_back(alloc: Global, config: &mut Config, values: &List<Val>) -> Result<Moved, HostFault>
    requires typed { Typed config.old }
    requires host { HasHostOnTop config.old.frames }
    ensures { (policy : Policy) → HostActAnswers policy config.old (HostAct.Return values.now) config.new result }
{
    let Some(func) = config.host_top() else {
        unreachable!()
    };
    let ty = type_at(&config.store, func);
    if !have_types(values.as_slice(), ty.results.as_slice()) {
        return Err(HostFault::WrongType);
    }
    let values = copy_values(alloc, values)?;
    leave(alloc, config, values)?;
    Ok(told_of_return(config))
}

/// The host whose frame is on top traps.
fn trap(alloc: Global, config: &mut Config)
    ensures { config.new ≡ trapped config.old.store }
{
    config.frames = List::new(alloc);
    config.outcome = Outcome::Trapped;
}

/// An act on frames: a call, a return or a trap.
fn act_on_frames(
    alloc: Global,
    config: &mut Config,
    act: &HostAct,
    policy: &Policy,
) -> Result<Moved, HostFault>
    requires typed { Typed config.old }
    requires control { MayAct config.old act.now }
    requires frames { is_write act.now ≡ false }
    ensures { HostActAnswers policy.now config.old act.now config.new result }
{
    match act {
        HostAct::Call { func, args } => call(alloc, config, *func, args, policy),
        HostAct::Return { values } => give_back(alloc, config, values),
        HostAct::Trap => {
            trap(alloc, config);
            Ok(Moved::Trapped)
        }
        _ => unreachable!(),
    }
}

/// What a host, whose frame is on top, or the embedder does: a write to what is exported, a growth of it, a call, a return, or a
/// trap. After a refusal the configuration is unchanged.
pub fn host_act(
    alloc: Global,
    config: &mut Config,
    act: &HostAct,
    policy: &Policy,
) -> Result<Moved, HostFault>
    requires typed { Typed config.old }
    requires control { MayAct config.old act.now }
    ensures answers { HostActAnswers policy.now config.old act.now config.new result }
    ensures typed { Typed config.new }
{
    if is_write(act) {
        write_in(alloc, config, act, policy)
    } else {
        act_on_frames(alloc, config, act, policy)
    }
}
