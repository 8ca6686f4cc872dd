//! Instructions that only read the store.

ghost use Rattle.std.specs.Prelude.{◌≡◌, ℕ, ◌∷◌, Bool, List, Some, slice_get, unwrap_or, IsTrue, IfOk, OnOk, OnErr};
ghost use Rattle.wasm_syntax.specs.Items.{instr_seen};
ghost use Rattle.wasm_syntax.specs.Trees.{instruction_of};
ghost use Rattle.wasm_store.specs.Control.{Branches, BrIfStep, BrTableStep};
ghost use Rattle.wasm_reduce.specs.words.Effects.{Can, CameOf, Does, moved_to};
ghost use Rattle.wasm_reduce.specs.words.Kinds.{only_reads, is_variable};
ghost use Rattle.wasm_reduce.specs.words.Layers.{EntersNone};

use crate::calls::{call, call_indirect};
use crate::control::{branch, label_of};
use crate::effect::Effect;
use crate::find::{global, global_address, local};
use crate::operands::{pop, push, top, top_number};
use crate::values::{compute, load};
use wasm_store::{CodeFrame, Store};
use wasm_syntax::Simple;
use wasm_values::{OutOfMemory, Val};

/// `br_if`.
fn br_if(store: &Store, frame: &mut CodeFrame, k: u32, on: u32) -> Effect
    requires { Can (λ below d. BrIfStep store.now (moved_to store.now frame.old on) below d k) }
    ensures { CameOf (λ below d. BrIfStep store.now (moved_to store.now frame.old on) below d k) store.now frame.old store.now frame.new result }
{
    let condition = top_number(frame.operands.as_slice());
    if condition == 0 {
        let _ = pop(&mut frame.operands);
        frame.position = on;
        return Effect::Went;
    }
    branch(store, frame, k, 1)
}

/// An instruction on locals, or one that reads a global.
fn act_variable(
    store: &Store,
    frame: &mut CodeFrame,
    instr: Simple<'_>,
    on: u32,
) -> Result<Effect, OutOfMemory>
    requires kind { IsTrue (is_variable (instr_seen instr)) }
    requires can { (grows : Bool) × Can (Does grows (instruction_of (instr_seen instr)) store.now frame.old on) }
    ensures ok { IfOk result (λ effect. (grows : Bool) → CameOf (Does grows (instruction_of (instr_seen instr.entry)) store.now frame.old on) store.now frame.old store.now frame.new effect) }
    ensures err { OnErr result ((frame.new ≡ frame.old) × EntersNone (instruction_of (instr_seen instr.entry))) }
{
    match instr {
        Simple::LocalGet(x) => {
            let value = local(frame.locals.as_slice(), x);
            push(&mut frame.operands, value)?;
            frame.position = on;
            Ok(Effect::Went)
        }
        Simple::LocalSet(x) => {
            let value = pop(&mut frame.operands);
            frame.locals.set(x as usize, value);
            frame.position = on;
            Ok(Effect::Went)
        }
        Simple::LocalTee(x) => {
            let value = top(frame.operands.as_slice());
            frame.locals.set(x as usize, value);
            frame.position = on;
            Ok(Effect::Went)
        }
        Simple::GlobalGet(x) => {
            let a = global_address(store, frame.instance, x);
            push(&mut frame.operands, global(store, a).value)?;
            frame.position = on;
            Ok(Effect::Went)
        }
        _ => unreachable!(),
    }
}

/// An instruction that only reads the store.
pub fn act_reading(
    store: &Store,
    frame: &mut CodeFrame,
    instr: Simple<'_>,
    on: u32,
) -> Result<Effect, OutOfMemory>
    requires kind { IsTrue (only_reads (instr_seen instr)) }
    requires can { (grows : Bool) × Can (Does grows (instruction_of (instr_seen instr)) store.now frame.old on) }
    ensures ok { IfOk result (λ effect. (grows : Bool) → CameOf (Does grows (instruction_of (instr_seen instr.entry)) store.now frame.old on) store.now frame.old store.now frame.new effect) }
    ensures err { OnErr result ((frame.new ≡ frame.old) × EntersNone (instruction_of (instr_seen instr.entry))) }
{
    match instr {
        Simple::Num(op) => Ok(compute(store, frame, op, on)),
        Simple::Const(value) => {
            push(&mut frame.operands, value)?;
            frame.position = on;
            Ok(Effect::Went)
        }
        Simple::Load(op, _, offset) => Ok(load(store, frame, op, offset, on)),
        Simple::Br(k) => Ok(branch(store, frame, k, 0)),
        Simple::BrIf(k) => Ok(br_if(store, frame, k, on)),
        Simple::BrTable(labels, last) => {
            let chosen = top_number(frame.operands.as_slice());
            let k = label_of(labels, last, chosen);
            Ok(branch(store, frame, k, 1))
        }
        Simple::Call(x) => Ok(call(store, frame, x, on)),
        Simple::CallIndirect(x) => Ok(call_indirect(store, frame, x, on)),
        _ => act_variable(store, frame, instr, on),
    }
}
