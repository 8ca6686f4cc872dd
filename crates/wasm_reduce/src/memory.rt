//! Loads, stores, and the sizes of memories.

ghost use Rattle.std.specs.Prelude.{◌≡◌, ℕ, ◌+◌, ◌*◌, ◌/◌, ◌^◌, ◌<◌, ◌≤◌, ◌&&◌, true, false, nat_le, if◌then◌else◌, List, ◌++◌, length, replicate, slice_get, slice_set, sum_by, Some, None, MatchOption, IsTrue, OnOk, OnErr};
ghost use Rattle.wasm_values.specs.Operators.{width_of, sign_extended, number_of_bytes, bytes_of_number};
ghost use Rattle.wasm_syntax.specs.Accesses.{bytes_loaded, loaded_type};
ghost use Rattle.wasm_store.specs.Memory.{is_signed_load, value_loaded, items_at, overwritten, is_within, pages_of, can_grow, grown_bytes};
ghost use Rattle.wasm_store.specs.declared.store.MemInst.{MemInst};

use crate::policy::Policy;
use std::alloc::Global;
use std::mem;
use wasm_store::MemInst;
use wasm_syntax::{LoadOp, bytes_loaded, loaded_type};
use wasm_values::{Bytes, List, OutOfMemory, Val, ValType, is_at_most, load_le, sext, store_le};

/// Whether a load extends what it reads by its sign.
fn is_signed(op: LoadOp) -> bool
    ensures { result ≡ is_signed_load op }
{
    match op {
        LoadOp::I32Load8S | LoadOp::I32Load16S => true,
        LoadOp::I64Load8S | LoadOp::I64Load16S | LoadOp::I64Load32S => true,
        _ => false,
    }
}

/// The number that a load gives for the bytes that it reads.
fn number_loaded(op: LoadOp, bytes: &[u8]) -> u64
    requires { length bytes.now ≡ bytes_loaded op }
    ensures value { result ≡ (if is_signed_load op then sign_extended (8 * bytes_loaded op) (width_of (loaded_type op)) (number_of_bytes bytes.now) else number_of_bytes bytes.now) }
    ensures fits { result < 2 ^ width_of (loaded_type op) }
{
    let number = load_le(bytes);
    if is_signed(op) {
        sext(8 * bytes_loaded(op) as u32, loaded_type(op).bits(), number)
    } else {
        number
    }
}

/// The value that a load gives for the bytes that it reads.
fn value_loaded(op: LoadOp, bytes: &[u8]) -> Val
    requires { length bytes.now ≡ bytes_loaded op }
    ensures { result ≡ value_loaded op bytes.now }
{
    let number = number_loaded(op, bytes);
    match loaded_type(op) {
        ValType::I32 => Val::I32(number as u32),
        ValType::I64 => Val::I64(number),
    }
}

/// Whether an access of so many bytes lies in the memory.
pub fn is_within(bytes: &[u8], at: usize, width: usize) -> bool
    ensures { result ≡ is_within bytes.now at width }
{
    width <= bytes.len() && at <= bytes.len() - width
}

/// So many bytes from a place on.
fn accessed(bytes: &[u8], at: usize, width: usize) -> &[u8]
    requires { at + width ≤ length bytes.now }
    ensures { result.now ≡ items_at bytes.now at width }
{
    &bytes[at..at + width]
}

/// The value of a load at an address, or `None` where it passes the memory's end.
pub fn value_at(memory: &MemInst, op: LoadOp, at: usize) -> Option<Val>
    ensures { result ≡ (if is_within memory.now.bytes at (bytes_loaded op) then Some (value_loaded op (items_at memory.now.bytes at (bytes_loaded op))) else None) }
{
    let bytes = memory.bytes.as_slice();
    let width = bytes_loaded(op);
    if is_within(bytes, at, width) {
        Some(value_loaded(op, accessed(bytes, at, width)))
    } else {
        None
    }
}

/// Writes bytes over others from a place on.
fn overwrite(bytes: &mut Bytes, at: usize, others: &[u8])
    requires near { at < 2 ^ 34 }
    requires within { at + length others.now ≤ length bytes.old }
    ensures { bytes.new ≡ overwritten bytes.old at others.now }
{
    for i in 0..others.len() {
        bytes.set(at + i, others[i]);
    }
}

/// Writes bytes into a memory.
fn write(alloc: Global, memories: &mut List<MemInst>, m: u32, at: usize, others: &[u8])
    requires near { at < 2 ^ 34 }
    requires within { (mem : MemInst) × (slice_get memories.old m ≡ Some mem) × (at + length others.now ≤ length mem.bytes) }
    ensures { (mem : MemInst) → slice_get memories.old m ≡ Some mem → memories.new ≡ slice_set memories.old m (record mem { bytes = overwritten mem.bytes at others.now }) }
{
    let mut all = mem::replace(memories, List::new(alloc)).into_vec();
    overwrite(&mut all[m as usize].bytes, at, others);
    *memories = List::from_vec(all);
}

/// Writes the lowest bytes of a number into a memory, that of least worth first.
pub fn write_number(
    alloc: Global,
    memories: &mut List<MemInst>,
    m: u32,
    at: usize,
    width: usize,
    value: u64,
)
    requires near { at < 2 ^ 34 }
    requires few { width ≤ 8 }
    requires within { (mem : MemInst) × (slice_get memories.old m ≡ Some mem) × (at + width ≤ length mem.bytes) }
    ensures { (mem : MemInst) → slice_get memories.old m ≡ Some mem → memories.new ≡ slice_set memories.old m (record mem { bytes = overwritten mem.bytes at (bytes_of_number width value) }) }
{
    let mut bytes = [0; 8];
    store_le(value, &mut bytes[..width]);
    write(alloc, memories, m, at, &bytes[..width]);
}

/// How many pages a memory has.
pub fn page_count(memory: &MemInst) -> usize
    ensures value { result ≡ pages_of memory.now }
    ensures few { result < 2 ^ 48 }
{
    memory.bytes.len() / 65_536
}

/// Whether a memory can grow by so many pages.
fn can_grow(memory: &MemInst, pages: u32) -> bool
    ensures { result ≡ can_grow memory.now pages }
{
    let sum = page_count(memory) + pages as usize;
    sum <= 65_536 && is_at_most(sum, memory.max)
}

/// Whether the pages of all memories, with so many more, are at most a limit.
fn stay_within(memories: &[MemInst], pages: u32, limit: u32) -> bool
    ensures { result ≡ nat_le (sum_by pages_of memories.now + pages) limit }
{
    let mut total = pages as usize;
    for memory in memories {
        if total > limit as usize {
            return false;
        }
        total += page_count(memory);
    }
    total <= limit as usize
}

/// Whether a policy lets a memory grow by so many pages.
pub fn lets_grow(policy: &Policy, memories: &[MemInst], m: u32, pages: u32) -> bool
    requires { (mem : MemInst) × (slice_get memories.now m ≡ Some mem) }
    ensures { (mem : MemInst) → slice_get memories.now m ≡ Some mem → result ≡ (can_grow mem pages && nat_le (sum_by pages_of memories.now + pages) policy.now.pages) }
{
    can_grow(&memories[m as usize], pages) && stay_within(memories, pages, policy.pages)
}

/// Adds bytes of zero.
fn add_zero_bytes(bytes: &mut Bytes, count: usize) -> Result<(), OutOfMemory>
    ensures ok { OnOk result (bytes.new ≡ bytes.old ++ replicate count 0) }
    ensures err { OnErr result (bytes.new ≡ bytes.old) }
{
    let old = bytes.len();
    for _ in 0..count {
        if let Err(fault) = bytes.push(0) {
            bytes.truncate(old);
            return Err(fault);
        }
    }
    Ok(())
}

/// Adds pages of zeros to a memory.
pub fn grow_memory(
    alloc: Global,
    memories: &mut List<MemInst>,
    m: u32,
    pages: u32,
) -> Result<(), OutOfMemory>
    requires { (mem : MemInst) × (slice_get memories.old m ≡ Some mem) }
    ensures ok { OnOk result ((mem : MemInst) → slice_get memories.old m ≡ Some mem → memories.new ≡ slice_set memories.old m (record mem { bytes = grown_bytes mem pages })) }
    ensures err { OnErr result (memories.new ≡ memories.old) }
{
    let mut all = mem::replace(memories, List::new(alloc)).into_vec();
    let grown = add_zero_bytes(&mut all[m as usize].bytes, 65_536 * pages as usize);
    *memories = List::from_vec(all);
    grown
}
