//! Instructions that work on a frame's operands and locals, and on globals and memories that they only read or write.

ghost use Rattle.std.specs.Prelude.{◌≡◌, OnErr, IfOk, All};
ghost use Rattle.wasm_store.specs.Memory.{LoadStep, StoreStep, SizeStep, GrowStep};
ghost use Rattle.wasm_store.specs.Numeric.{NumStep, GlobalSetStep};
ghost use Rattle.type_safety.specs.Stores.{MemoryTyped};
ghost use Rattle.wasm_reduce.specs.words.Effects.{Can, CameOf, SameCode, seen_in, moved_to, grows_in};

use crate::effect::Effect;
use crate::find::{global, global_address, memory_address};
use crate::memory::{grow_memory, is_within, lets_grow, page_count, value_at, write_number};
use crate::operands::{compute_one, compute_two, pop, pop_number, push, set_top, top_number};
use crate::policy::Policy;
use std::alloc::Global;
use wasm_store::{CodeFrame, GlobalInst, Store};
use wasm_syntax::{LoadOp, StoreOp, bytes_stored};
use wasm_values::{NumOp, OutOfMemory, Val};

/// A numeric instruction.
pub fn compute(store: &Store, frame: &mut CodeFrame, op: NumOp, on: u32) -> Effect
    requires { Can (λ below d. NumStep store.now (moved_to store.now frame.old on) below d op) }
    ensures { CameOf (λ below d. NumStep store.now (moved_to store.now frame.old on) below d op) store.now frame.old store.now frame.new result }
{
    if op.is_unary() {
        compute_one(&mut frame.operands, op);
    } else if !compute_two(&mut frame.operands, op) {
        return Effect::Trap;
    }
    frame.position = on;
    Effect::Went
}

/// A load.
pub fn load(store: &Store, frame: &mut CodeFrame, op: LoadOp, offset: u32, on: u32) -> Effect
    requires { Can (λ below d. LoadStep store.now (moved_to store.now frame.old on) below d op offset) }
    ensures { CameOf (λ below d. LoadStep store.now (moved_to store.now frame.old on) below d op offset) store.now frame.old store.now frame.new result }
{
    let m = memory_address(store, frame.instance);
    let at = top_number(frame.operands.as_slice()) as usize + offset as usize;
    match value_at(&store.memories.as_slice()[m as usize], op, at) {
        Some(value) => {
            set_top(&mut frame.operands, value);
            frame.position = on;
            Effect::Went
        }
        None => Effect::Trap,
    }
}

/// A store.
pub fn store_number(
    alloc: Global,
    store: &mut Store,
    frame: &mut CodeFrame,
    op: StoreOp,
    offset: u32,
    on: u32,
) -> Effect
    requires { Can (λ below d. StoreStep store.old (moved_to store.old frame.old on) below d op offset) }
    ensures ok { CameOf (λ below d. StoreStep store.old (moved_to store.old frame.old on) below d op offset) store.old frame.old store.new frame.new result }
    ensures code { SameCode store.old store.new }
{
    let m = memory_address(store, frame.instance);
    let value = pop(&mut frame.operands).number();
    let at = pop_number(&mut frame.operands) as usize + offset as usize;
    let width = bytes_stored(op);
    if !is_within(
        store.memories.as_slice()[m as usize].bytes.as_slice(),
        at,
        width,
    ) {
        return Effect::Trap;
    }
    write_number(alloc, &mut store.memories, m, at, width, value);
    frame.position = on;
    Effect::Went
}

/// `memory.size`.
pub fn size(store: &Store, frame: &mut CodeFrame, on: u32) -> Result<Effect, OutOfMemory>
    requires sizes { All MemoryTyped store.now.memories }
    requires can { Can (λ below d. SizeStep store.now (moved_to store.now frame.old on) below d) }
    ensures ok { IfOk result (CameOf (λ below d. SizeStep store.now (moved_to store.now frame.old on) below d) store.now frame.old store.now frame.new) }
    ensures err { OnErr result (frame.new ≡ frame.old) }
{
    let m = memory_address(store, frame.instance);
    let pages = page_count(&store.memories.as_slice()[m as usize]);
    push(&mut frame.operands, Val::I32(pages as u32))?;
    frame.position = on;
    Ok(Effect::Went)
}

/// `memory.grow`, which succeeds where the policy lets the memory grow.
pub fn grow(
    alloc: Global,
    store: &mut Store,
    frame: &mut CodeFrame,
    policy: &Policy,
    on: u32,
) -> Result<Effect, OutOfMemory>
    requires { Can (λ below d. GrowStep (grows_in policy.now store.old (seen_in store.old frame.old)) store.old (moved_to store.old frame.old on) below d) }
    ensures ok { IfOk result (CameOf (λ below d. GrowStep (grows_in policy.now store.old (seen_in store.old frame.old)) store.old (moved_to store.old frame.old on) below d) store.old frame.old store.new frame.new) }
    ensures code { SameCode store.old store.new }
    ensures err { OnErr result ((store.new ≡ store.old) × (frame.new ≡ frame.old)) }
{
    let m = memory_address(store, frame.instance);
    let pages = top_number(frame.operands.as_slice());
    let old = page_count(&store.memories.as_slice()[m as usize]);
    if !lets_grow(policy, store.memories.as_slice(), m, pages) {
        set_top(&mut frame.operands, Val::I32(4_294_967_295));
        frame.position = on;
        return Ok(Effect::Went);
    }
    grow_memory(alloc, &mut store.memories, m, pages)?;
    set_top(&mut frame.operands, Val::I32(old as u32));
    frame.position = on;
    Ok(Effect::Went)
}

/// `global.set`.
pub fn set_global(store: &mut Store, frame: &mut CodeFrame, x: u32, on: u32) -> Effect
    requires { Can (λ below d. GlobalSetStep store.old (moved_to store.old frame.old on) below d x) }
    ensures ok { CameOf (λ below d. GlobalSetStep store.old (moved_to store.old frame.old on) below d x) store.old frame.old store.new frame.new result }
    ensures code { SameCode store.old store.new }
{
    let a = global_address(store, frame.instance, x);
    let ty = global(store, a).ty;
    let value = pop(&mut frame.operands);
    store.globals.set(a as usize, GlobalInst { ty, value });
    frame.position = on;
    Effect::Went
}
