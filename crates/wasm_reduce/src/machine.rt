//! One step of a configuration.

ghost use Rattle.std.specs.Prelude.{◌≡◌, ◌≤◌, ◌↔◌, ℕ, List, [], ◌∷◌, length, All, Err, IfOk, OnOk, OnErr};
ghost use Rattle.wasm_store.specs.declared.config.CodeFrame.{CodeFrame};
ghost use Rattle.wasm_store.specs.declared.config.Frame.{Frame};
ghost use Rattle.wasm_store.specs.Configuration.{Configuration};
ghost use Rattle.wasm_store.specs.Control.{Leaves, Enters};
ghost use Rattle.type_safety.specs.Safety.{HasCodeOnTop};
ghost use Rattle.type_safety.specs.Stores.{MemoryTyped};
ghost use Rattle.type_safety.specs.Typed.{Typed};
ghost use Rattle.wasm_reduce.specs.Policies.{PolicyStep, PassesFrames, Tells};
ghost use Rattle.wasm_reduce.specs.words.Effects.{Can, CameOf, SameCode, seen_in, moved_to, under, moves_of};
ghost use Rattle.wasm_reduce.specs.words.Layers.{BeginsInside, HasTop, layers, stands_for};

use crate::act::act;
use crate::effect::Effect;
use crate::frames::{param_count, pass_down, put_over, result_count, top_func, top_operands};
use crate::laws::{policies_go_on, policy_steps_keep_types};
use crate::moved::{Moved, StepFault};
use crate::policy::Policy;
use std::alloc::Global;
use std::mem;
use wasm_store::{Config, Frame, Outcome, Store, make_frame};
use wasm_values::{List, OutOfMemory};

/// One step of a typed configuration that runs a module's function. More operands than a `u32` counts below a block are
/// want of memory.
pub fn step(alloc: Global, config: &mut Config, policy: &Policy) -> Result<Moved, StepFault>
    requires typed { Typed config.old }
    requires running { config.old.outcome ≡ Outcome.Running }
    requires code_on_top { HasCodeOnTop config.old.frames }
    ensures step { OnOk result (PolicyStep policy.now config.old config.new) }
    ensures typed { Typed config.new }
    ensures tells { IfOk result (Tells config.new.outcome) }
    ensures limit { (result ≡ Err StepFault.Limit) ↔ PassesFrames policy.now config.old }
    ensures err { OnErr result (config.new ≡ config.old) }
{
    policies_go_on();
    policy_steps_keep_types();
    advance(alloc, config, policy)
}

/// One step of a configuration that has one.
fn advance(alloc: Global, config: &mut Config, policy: &Policy) -> Result<Moved, StepFault>
    requires can { (d : Configuration) × PolicyStep policy.now config.old d }
    requires sizes { All MemoryTyped config.old.store.memories }
    ensures step { OnOk result (PolicyStep policy.now config.old config.new) }
    ensures tells { IfOk result (Tells config.new.outcome) }
    ensures limit { (result ≡ Err StepFault.Limit) ↔ PassesFrames policy.now config.old }
    ensures err { OnErr result (config.new ≡ config.old) }
{
    let mut frames = mem::replace(&mut config.frames, List::new(alloc)).into_vec();
    let moved = advance_frames(
        alloc,
        &mut config.store,
        &mut frames,
        &mut config.outcome,
        policy,
    );
    config.frames = List::from_vec(frames);
    moved
}

/// One step of a configuration that has one, by its parts.
fn advance_frames(
    alloc: Global,
    store: &mut Store,
    frames: &mut Vec<Frame>,
    outcome: &mut Outcome,
    policy: &Policy,
) -> Result<Moved, StepFault>
    requires can { (d : Configuration) × PolicyStep policy.now (stands_for store.old frames.old.items outcome.old) d }
    requires sizes { All MemoryTyped store.old.memories }
    ensures step { OnOk result (PolicyStep policy.now (stands_for store.old frames.old.items outcome.old) (stands_for store.new frames.new.items outcome.new)) }
    ensures tells { IfOk result (Tells outcome.new) }
    ensures limit { (result ≡ Err StepFault.Limit) ↔ PassesFrames policy.now (stands_for store.old frames.old.items outcome.old) }
    ensures err { OnErr result (stands_for store.new frames.new.items outcome.new ≡ stands_for store.old frames.old.items outcome.old) }
{
    let Ok(effect) = act_on_top(alloc, store, frames, policy) else {
        return Err(StepFault::OutOfMemory);
    };
    match effect {
        Effect::Went => Ok(Moved::Went),
        Effect::Trap => {
            trap(frames, outcome);
            Ok(Moved::Trapped)
        }
        Effect::Leave { above } => match leave(alloc, store, frames, outcome, above) {
            Ok(()) => Ok(told(outcome)),
            Err(_) => Err(StepFault::OutOfMemory),
        },
        Effect::Enter { func, above, on } => {
            if frames.len() >= policy.frames as usize {
                return Err(StepFault::Limit);
            }
            match enter(alloc, store, frames, func, above, on) {
                Ok(()) => Ok(Moved::Went),
                Err(_) => Err(StepFault::OutOfMemory),
            }
        }
    }
}

/// Drops all frames.
fn trap(frames: &mut Vec<Frame>, outcome: &mut Outcome)
    ensures none { frames.new.items ≡ [] }
    ensures trapped { outcome.new ≡ Outcome.Trapped }
{
    frames.clear();
    *outcome = Outcome::Trapped;
}

/// The word for an outcome.
fn told(outcome: &Outcome) -> Moved
    ensures { Tells outcome.now result }
{
    match outcome {
        Outcome::Running => Moved::Went,
        Outcome::Done(_) => Moved::Done,
        Outcome::Trapped => Moved::Trapped,
    }
}

/// One instruction of the top frame.
fn act_on_top(
    alloc: Global,
    store: &mut Store,
    frames: &mut Vec<Frame>,
    policy: &Policy,
) -> Result<Effect, OutOfMemory>
    requires sizes { All MemoryTyped store.old.memories }
    requires can { (f : CodeFrame) × (below : List Frame) × HasTop frames.old.items f below × Can (moves_of policy.now store.old f) }
    ensures ok { IfOk result (λ effect. (f : CodeFrame) (below : List Frame) → HasTop frames.old.items f below → (g : CodeFrame) × HasTop frames.new.items g below × CameOf (moves_of policy.now store.old f) store.old f store.new g effect) }
    ensures code { SameCode store.old store.new }
    ensures err { OnErr result ((store.new ≡ store.old) × ((f : CodeFrame) (below : List Frame) → HasTop frames.old.items f below → HasTop frames.new.items f below × BeginsInside (seen_in store.old f).rest)) }
{
    let last = frames.len() - 1;
    match &mut frames[last] {
        Frame::Code(frame) => act(alloc, store, frame, policy),
        Frame::Host { .. } => unreachable!(),
    }
}

/// Leaves the top frame, whose results lie below so many operands.
fn leave(
    alloc: Global,
    store: &Store,
    frames: &mut Vec<Frame>,
    outcome: &mut Outcome,
    above: usize,
) -> Result<(), OutOfMemory>
    requires running { outcome.old ≡ Outcome.Running }
    requires can { (f : CodeFrame) × (below : List Frame) × HasTop frames.old.items f below × (above ≤ length f.operands) × Can (λ b d. Leaves store.now (under (seen_in store.now f) above) b d) }
    ensures ok { OnOk result ((f : CodeFrame) (below : List Frame) → HasTop frames.old.items f below → Leaves store.now (under (seen_in store.now f) above) (layers store.now below) (stands_for store.now frames.new.items outcome.new)) }
    ensures err { OnErr result ((outcome.new ≡ outcome.old) × (frames.new.items ≡ frames.old.items)) }
{
    let count = result_count(store, top_func(frames));
    let results = top_operands(alloc, frames, above, count)?;
    pass_down(frames, outcome, results)
}

/// Enters a function over the top frame, which then goes on at a position.
fn enter(
    alloc: Global,
    store: &Store,
    frames: &mut Vec<Frame>,
    func: u32,
    above: usize,
    on: u32,
) -> Result<(), OutOfMemory>
    requires { (f : CodeFrame) × (below : List Frame) × HasTop frames.old.items f below × (above ≤ length f.operands) × Can (λ b d. Enters store.now (under (moved_to store.now f on) above) b d func) }
    ensures ok { OnOk result ((f : CodeFrame) (below : List Frame) → HasTop frames.old.items f below → Enters store.now (under (moved_to store.now f on) above) (layers store.now below) (stands_for store.now frames.new.items Outcome.Running) func) }
    ensures err { OnErr result (frames.new.items ≡ frames.old.items) }
{
    let count = param_count(store, func);
    let args = top_operands(alloc, frames, above, count)?;
    let frame = make_frame(alloc, store, func, args)?;
    put_over(frames, frame, above, count, on)
}
