ghost use Rattle.std.specs.Prelude.{◌≡◌, ◌≤◌, ◌-◌, ◌<◌, ℕ, List, length, IfOk};
ghost use Rattle.wasm_syntax.specs.Parts.{IsSimpleItem};
ghost use Rattle.wasm_syntax.specs.Opcodes.{kind_of};
ghost use Rattle.binary_grammar.specs.words.Reading.{Gives, place};
ghost use Rattle.binary_grammar.specs.words.CodeReading.{as_items, word32_at, word64_at, index_at, indexed_at, simple_at, head_at, op_at, kind_at, item_at, FitsIn};

use crate::entries::read_list;
use crate::read::{malformed, number_fault, place, read_byte, read_number};
use crate::types::{read_block_type, read_tag};
use binary_grammar::{DecodeFault, DecodeWord};
use binary_numbers::{take_s32, take_s64};
use std::alloc::Global;
use wasm_syntax::{Head, Item, Kind, MAX_ITEMS, Opcode, Plain, opcode};
use wasm_values::{LimitWord, Val, ValType};

#[tactic(auto, unfolding(binary_grammar::specs::words::CodeReading::word32_at, binary_grammar::specs::words::Reading::then_at, binary_grammar::specs::words::Reading::done_at, binary_grammar::specs::words::Reading::of_byte, binary_grammar::specs::words::Reading::tagged_at))]
#[inline(always)]
fn read_word32(bytes: &[u8], end: usize) -> Result<(u32, &[u8]), DecodeFault>
    ensures gives { Gives (λ x. (x.0, x.1.now)) result (word32_at end bytes.now) }
    ensures shorter { IfOk result (λ x. length x.1.now ≤ length bytes.now) }
{
    match take_s32(bytes) {
        Ok((value, rest)) => Ok((value.cast_unsigned(), rest)),
        Err(fault) => Err(number_fault(fault, place(bytes, end), end)),
    }
}

#[tactic(auto, unfolding(binary_grammar::specs::words::CodeReading::word64_at, binary_grammar::specs::words::Reading::then_at, binary_grammar::specs::words::Reading::done_at, binary_grammar::specs::words::Reading::of_byte, binary_grammar::specs::words::Reading::tagged_at))]
#[inline(always)]
fn read_word64(bytes: &[u8], end: usize) -> Result<(u64, &[u8]), DecodeFault>
    ensures gives { Gives (λ x. (x.0, x.1.now)) result (word64_at end bytes.now) }
    ensures shorter { IfOk result (λ x. length x.1.now ≤ length bytes.now) }
{
    match take_s64(bytes) {
        Ok((value, rest)) => Ok((value.cast_unsigned(), rest)),
        Err(fault) => Err(number_fault(fault, place(bytes, end), end)),
    }
}

#[tactic(auto, unfolding(binary_grammar::specs::words::CodeReading::index_at, binary_grammar::specs::words::Reading::then_at, binary_grammar::specs::words::Reading::done_at, binary_grammar::specs::words::Reading::of_byte, binary_grammar::specs::words::Reading::tagged_at))]
#[inline(always)]
fn read_index(at: usize, op: Opcode, bytes: &[u8], end: usize) -> Result<(Item, &[u8]), DecodeFault>
    ensures gives { Gives (λ x. (x.0, x.1.now)) result (as_items (index_at at op) end bytes.now) }
    ensures shorter { IfOk result (λ x. length x.1.now ≤ length bytes.now) }
    ensures simple { IfOk result (λ x. IsSimpleItem x.0) }
{
    match op {
        Opcode::Br => read_number(bytes, end).map(|(x, rest)| (Item::br(x), rest)),
        Opcode::BrIf => read_number(bytes, end).map(|(x, rest)| (Item::br_if(x), rest)),
        Opcode::Call => read_number(bytes, end).map(|(x, rest)| (Item::call(x), rest)),
        Opcode::LocalGet => read_number(bytes, end).map(|(x, rest)| (Item::local_get(x), rest)),
        Opcode::LocalSet => read_number(bytes, end).map(|(x, rest)| (Item::local_set(x), rest)),
        Opcode::LocalTee => read_number(bytes, end).map(|(x, rest)| (Item::local_tee(x), rest)),
        Opcode::GlobalGet => read_number(bytes, end).map(|(x, rest)| (Item::global_get(x), rest)),
        Opcode::GlobalSet => read_number(bytes, end).map(|(x, rest)| (Item::global_set(x), rest)),
        _ => Err(malformed(at, DecodeWord::Byte)),
    }
}

#[tactic(auto, unfolding(binary_grammar::specs::words::CodeReading::indexed_at, binary_grammar::specs::words::Reading::then_at, binary_grammar::specs::words::Reading::done_at, binary_grammar::specs::words::Reading::of_byte, binary_grammar::specs::words::Reading::tagged_at))]
#[inline(always)]
fn read_indexed(
    alloc: Global,
    at: usize,
    op: Opcode,
    bytes: &[u8],
    end: usize,
) -> Result<(Item, &[u8]), DecodeFault>
    requires { length bytes.now ≤ MAX_ITEMS }
    ensures gives { Gives (λ x. (x.0, x.1.now)) result (as_items (indexed_at at op) end bytes.now) }
    ensures shorter { IfOk result (λ x. length x.1.now ≤ length bytes.now) }
    ensures simple { IfOk result (λ x. IsSimpleItem x.0) }
{
    match op {
        Opcode::BrTable => {
            let (labels, rest) = read_list(alloc, bytes, end)?;
            let (last, rest) = read_number(rest, end)?;
            Ok((Item::br_table(alloc, labels, last)?, rest))
        }
        Opcode::CallIndirect => {
            let (ty, rest) = read_number(bytes, end)?;
            let (_, rest) = read_tag(0, rest, end)?;
            Ok((Item::call_indirect(ty), rest))
        }
        Opcode::Load(op) => {
            let (align, rest) = read_number(bytes, end)?;
            let (offset, rest) = read_number(rest, end)?;
            Ok((Item::load(op, align, offset), rest))
        }
        Opcode::Store(op) => {
            let (align, rest) = read_number(bytes, end)?;
            let (offset, rest) = read_number(rest, end)?;
            Ok((Item::store(op, align, offset), rest))
        }
        _ => read_index(at, op, bytes, end),
    }
}

#[tactic(auto, unfolding(binary_grammar::specs::words::CodeReading::simple_at, binary_grammar::specs::words::Reading::then_at, binary_grammar::specs::words::Reading::done_at, binary_grammar::specs::words::Reading::of_byte, binary_grammar::specs::words::Reading::tagged_at))]
#[inline(always)]
fn read_simple(
    alloc: Global,
    at: usize,
    op: Opcode,
    bytes: &[u8],
    end: usize,
) -> Result<(Item, &[u8]), DecodeFault>
    requires { length bytes.now ≤ MAX_ITEMS }
    ensures gives { Gives (λ x. (x.0, x.1.now)) result (as_items (simple_at at op) end bytes.now) }
    ensures shorter { IfOk result (λ x. length x.1.now ≤ length bytes.now) }
    ensures simple { IfOk result (λ x. IsSimpleItem x.0) }
{
    match op {
        Opcode::Unreachable => Ok((Item::plain(Plain::Unreachable), bytes)),
        Opcode::Nop => Ok((Item::plain(Plain::Nop), bytes)),
        Opcode::Return => Ok((Item::plain(Plain::Return), bytes)),
        Opcode::Drop => Ok((Item::plain(Plain::Drop), bytes)),
        Opcode::Select => Ok((Item::plain(Plain::Select), bytes)),
        Opcode::Num(op) => Ok((Item::num(op), bytes)),
        Opcode::MemorySize => read_tag(0, bytes, end).map(|(_, rest)| (
            Item::plain(Plain::MemorySize),
            rest,
        )),
        Opcode::MemoryGrow => read_tag(0, bytes, end).map(|(_, rest)| (
            Item::plain(Plain::MemoryGrow),
            rest,
        )),
        Opcode::I32Const => read_word32(bytes, end).map(|(x, rest)| (
            Item::constant(Val::I32(x)),
            rest,
        )),
        Opcode::I64Const => read_word64(bytes, end).map(|(x, rest)| (
            Item::constant(Val::I64(x)),
            rest,
        )),
        _ => read_indexed(alloc, at, op, bytes, end),
    }
}

#[tactic(auto, unfolding(binary_grammar::specs::words::CodeReading::head_at, binary_grammar::specs::words::Reading::then_at, binary_grammar::specs::words::Reading::done_at, binary_grammar::specs::words::Reading::of_byte, binary_grammar::specs::words::Reading::tagged_at))]
#[inline(always)]
fn read_head(
    full: bool,
    at: usize,
    bytes: &[u8],
    end: usize,
) -> Result<(Option<ValType>, &[u8]), DecodeFault>
    ensures gives { Gives (λ x. (x.0, x.1.now)) result (head_at full at end bytes.now) }
    ensures shorter { IfOk result (λ x. length x.1.now ≤ length bytes.now) }
{
    if full {
        return Err(DecodeFault::Limit {
            at,
            word: LimitWord::Nesting,
        });
    }
    read_block_type(bytes, end)
}

/// The rest of an item behind its opcode. `turn` says whether an `else` may come, `full` whether no block may.
#[tactic(auto, unfolding(binary_grammar::specs::words::CodeReading::op_at, binary_grammar::specs::words::Reading::then_at, binary_grammar::specs::words::Reading::done_at, binary_grammar::specs::words::Reading::of_byte, binary_grammar::specs::words::Reading::tagged_at))]
#[inline(always)]
fn read_op(
    alloc: Global,
    turn: bool,
    full: bool,
    at: usize,
    op: Opcode,
    bytes: &[u8],
    end: usize,
) -> Result<(Item, &[u8]), DecodeFault>
    requires { length bytes.now ≤ MAX_ITEMS }
    ensures gives { Gives (λ x. (x.0, x.1.now)) result (op_at turn full at op end bytes.now) }
    ensures shorter { IfOk result (λ x. length x.1.now ≤ length bytes.now) }
    ensures fits { IfOk result (λ x. FitsIn turn x.0) }
{
    match op {
        Opcode::Block => read_head(full, at, bytes, end).map(|(ty, rest)| (
            Item::head(Head::Block(ty)),
            rest,
        )),
        Opcode::Loop => read_head(full, at, bytes, end).map(|(ty, rest)| (
            Item::head(Head::Loop(ty)),
            rest,
        )),
        Opcode::If => read_head(full, at, bytes, end).map(|(ty, rest)| (
            Item::head(Head::If(ty)),
            rest,
        )),
        Opcode::Else if turn => Ok((Item::turn(), bytes)),
        Opcode::Else => Err(malformed(at, DecodeWord::Byte)),
        Opcode::End => Ok((Item::end(), bytes)),
        _ => read_simple(alloc, at, op, bytes, end),
    }
}

#[tactic(auto, unfolding(binary_grammar::specs::words::CodeReading::kind_at, binary_grammar::specs::words::Reading::then_at, binary_grammar::specs::words::Reading::done_at, binary_grammar::specs::words::Reading::of_byte, binary_grammar::specs::words::Reading::tagged_at))]
#[inline(always)]
fn read_kind(
    alloc: Global,
    turn: bool,
    full: bool,
    at: usize,
    kind: Kind,
    bytes: &[u8],
    end: usize,
) -> Result<(Item, &[u8]), DecodeFault>
    requires { length bytes.now ≤ MAX_ITEMS }
    ensures gives { Gives (λ x. (x.0, x.1.now)) result (kind_at turn full at kind end bytes.now) }
    ensures shorter { IfOk result (λ x. length x.1.now ≤ length bytes.now) }
    ensures fits { IfOk result (λ x. FitsIn turn x.0) }
{
    match kind {
        Kind::Op(op) => read_op(alloc, turn, full, at, op, bytes, end),
        Kind::Float => Err(malformed(at, DecodeWord::Float)),
        Kind::Unused => Err(malformed(at, DecodeWord::Byte)),
    }
}

#[tactic(auto, unfolding(binary_grammar::specs::words::CodeReading::item_at, binary_grammar::specs::words::Reading::then_at, binary_grammar::specs::words::Reading::done_at, binary_grammar::specs::words::Reading::of_byte, binary_grammar::specs::words::Reading::tagged_at))]
#[inline(always)]
pub(crate) fn read_item(
    alloc: Global,
    turn: bool,
    full: bool,
    bytes: &[u8],
    end: usize,
) -> Result<(Item, &[u8]), DecodeFault>
    requires { length bytes.now ≤ MAX_ITEMS }
    ensures gives { Gives (λ x. (x.0, x.1.now)) result (item_at turn full end bytes.now) }
    ensures shorter { IfOk result (λ x. length x.1.now ≤ length bytes.now) }
    ensures fits { IfOk result (λ x. FitsIn turn x.0) }
{
    let (byte, rest) = read_byte(bytes, end)?;
    read_kind(
        alloc,
        turn,
        full,
        place(bytes, end),
        opcode(byte),
        rest,
        end,
    )
}
