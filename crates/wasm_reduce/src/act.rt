//! One instruction of a frame, or the end of its code.

ghost use Rattle.std.specs.Prelude.{◌≡◌, All, IfOk, OnErr};
ghost use Rattle.wasm_store.specs.Step.{PlainStep};
ghost use Rattle.type_safety.specs.Stores.{MemoryTyped};
ghost use Rattle.wasm_reduce.specs.words.Effects.{Can, CameOf, SameCode, seen_in, moved_to, grows_in, moves_of};
ghost use Rattle.wasm_reduce.specs.words.Layers.{BeginsInside};

use crate::control::{choose, close, count_of, open};
use crate::effect::Effect;
use crate::find::next_in;
use crate::operands::{pop, select};
use crate::policy::Policy;
use crate::reading::act_reading;
use crate::values::{grow, set_global, size, store_number};
use std::alloc::Global;
use wasm_store::{CodeFrame, Store};
use wasm_syntax::{Next, Plain, Simple};
use wasm_values::OutOfMemory;

/// An instruction without immediates that is no numeric operator.
fn act_plain(
    alloc: Global,
    store: &mut Store,
    frame: &mut CodeFrame,
    op: Plain,
    policy: &Policy,
    on: u32,
) -> Result<Effect, OutOfMemory>
    requires sizes { All MemoryTyped store.old.memories }
    requires can { Can (λ below d. PlainStep (grows_in policy.now store.old (seen_in store.old frame.old)) store.old (moved_to store.old frame.old on) below d op) }
    ensures ok { IfOk result (CameOf (λ below d. PlainStep (grows_in policy.now store.old (seen_in store.old frame.old)) store.old (moved_to store.old frame.old on) below d op) store.old frame.old store.new frame.new) }
    ensures code { SameCode store.old store.new }
    ensures err { OnErr result ((store.new ≡ store.old) × (frame.new ≡ frame.old)) }
{
    match op {
        Plain::Unreachable => Ok(Effect::Trap),
        Plain::Nop => {
            frame.position = on;
            Ok(Effect::Went)
        }
        Plain::Return => Ok(Effect::Leave { above: 0 }),
        Plain::Drop => {
            let _ = pop(&mut frame.operands);
            frame.position = on;
            Ok(Effect::Went)
        }
        Plain::Select => {
            select(&mut frame.operands);
            frame.position = on;
            Ok(Effect::Went)
        }
        Plain::MemorySize => size(store, frame, on),
        Plain::MemoryGrow => grow(alloc, store, frame, policy, on),
    }
}

/// What comes next in the frame. Want of memory comes only where no frame is entered.
pub fn act(
    alloc: Global,
    store: &mut Store,
    frame: &mut CodeFrame,
    policy: &Policy,
) -> Result<Effect, OutOfMemory>
    requires sizes { All MemoryTyped store.old.memories }
    requires can { Can (moves_of policy.now store.old frame.old) }
    ensures ok { IfOk result (CameOf (moves_of policy.now store.old frame.old) store.old frame.old store.new frame.new) }
    ensures code { SameCode store.old store.new }
    ensures err { OnErr result ((store.new ≡ store.old) × (frame.new ≡ frame.old) × BeginsInside (seen_in store.old frame.old).rest) }
{
    match next_in(store, frame) {
        Next::One(instr) => {
            let on = frame.position + 1;
            match instr {
                Simple::Plain(op) => act_plain(alloc, store, frame, op, policy, on),
                Simple::GlobalSet(x) => Ok(set_global(store, frame, x, on)),
                Simple::Store(op, _, offset) => {
                    Ok(store_number(alloc, store, frame, op, offset, on))
                }
                _ => act_reading(store, frame, instr, on),
            }
        }
        Next::Block { ty, body, after } => {
            open(frame, count_of(ty), None, body as u32, after as u32)?;
            Ok(Effect::Went)
        }
        Next::Loop { body, after, .. } => {
            open(frame, 0, Some(body as u32), body as u32, after as u32)?;
            Ok(Effect::Went)
        }
        Next::If {
            ty,
            first,
            second,
            after,
        } => {
            choose(
                frame,
                count_of(ty),
                first as u32,
                second as u32,
                after as u32,
            )?;
            Ok(Effect::Went)
        }
        Next::Else | Next::End => Ok(close(frame)),
    }
}
