ghost use Rattle.std.specs.Prelude.{◌≡◌, ◌≤◌, ◌-◌, ◌+◌, ◌<◌, ◌++◌, ℕ, List, length, IfOk, OnOk, IsTrue, false};
ghost use Rattle.wasm_syntax.specs.Parts.{may_turn, then_item, flat_parts};
ghost use Rattle.binary_grammar.specs.Bounds.{the_bounds, copies};
ghost use Rattle.binary_grammar.specs.words.Reading.{Gives, place};
ghost use Rattle.binary_grammar.specs.words.CodeReading.{FitsIn, is_last, expression_at, instrs_at, run_of_locals_at, runs_at, locals_at, body_at};

use crate::entries::Entry;
use crate::instrs::read_item;
use crate::read::{malformed, place, read_end, read_number, read_region};
use crate::types::read_value_type;
use binary_grammar::{Body, DecodeFault, DecodeWord};
use std::alloc::Global;
use wasm_syntax::{Code, CodeMaker, Head, Instr, Item, MAX_ITEMS, Seen};
use wasm_values::{LimitWord, List, OutOfMemory, ValType};

const MAX_NESTING: usize = 100;

const MAX_LOCALS: usize = 1_000;

// Whether an item closes an expression with so many open parts, its own among them.
#[inline(always)]
fn is_last(parts: usize, item: &Item) -> bool
    ensures { result ≡ is_last parts item.now }
{
    match item.seen() {
        Seen::End => parts <= 1,
        _ => false,
    }
}

#[inline(always)]
fn take_item(maker: &mut CodeMaker, item: Item) -> Result<(), OutOfMemory>
    requires fits { FitsIn (may_turn maker.old) item }
    requires inner { is_last (length maker.old) item ≡ false }
    requires room { length (flat_parts maker.old) + 1 ≤ MAX_ITEMS }
    ensures taken { OnOk result (maker.new ≡ then_item maker.old item) }
    ensures items { OnOk result (length (flat_parts maker.new) ≤ length (flat_parts maker.old) + 1) }
{
    match item.seen() {
        Seen::One(_) => maker.put_item(item),
        Seen::Block(ty) => maker.begin(Head::Block(ty)),
        Seen::Loop(ty) => maker.begin(Head::Loop(ty)),
        Seen::If(ty) => maker.begin(Head::If(ty)),
        Seen::Else => maker.turn(),
        Seen::End => maker.end(),
    }
}

/// An expression, with the place of each of its items.
pub(crate) fn read_expression(
    alloc: Global,
    bytes: &[u8],
    end: usize,
) -> Result<(Code, List<usize>, &[u8]), DecodeFault>
    requires { length bytes.now ≤ MAX_ITEMS }
    ensures gives { Gives (λ x. ((x.0, x.1), x.2.now)) result (expression_at the_bounds.nesting end bytes.now) }
    ensures shorter { IfOk result (λ x. length x.2.now ≤ length bytes.now) }
{
    let mut maker = CodeMaker::new(alloc);
    let mut places = List::new(alloc);
    let mut rest = bytes;
    for _ in 0..bytes.len() {
        places.push(place(rest, end))?;
        let turn = maker.may_turn();
        let parts = maker.parts();
        let (item, after) = read_item(alloc, turn, MAX_NESTING < parts, rest, end)?;
        rest = after;
        if is_last(parts, &item) {
            return Ok((maker.finish()?, places, rest));
        }
        take_item(&mut maker, item)?;
    }
    Err(malformed(end, DecodeWord::End))
}

/// An expression whose places do not matter.
#[tactic(auto, unfolding(binary_grammar::specs::words::CodeReading::instrs_at, binary_grammar::specs::words::Reading::then_at, binary_grammar::specs::words::Reading::done_at))]
pub(crate) fn read_instrs(
    alloc: Global,
    bytes: &[u8],
    end: usize,
) -> Result<(List<Instr>, &[u8]), DecodeFault>
    requires { length bytes.now ≤ MAX_ITEMS }
    ensures gives { Gives (λ x. (x.0, x.1.now)) result (instrs_at the_bounds.nesting end bytes.now) }
    ensures shorter { IfOk result (λ x. length x.1.now ≤ length bytes.now) }
{
    let (code, _, rest) = read_expression(alloc, bytes, end)?;
    Ok((code.tree(alloc)?, rest))
}

fn push_copies(locals: &mut List<ValType>, count: u32, ty: ValType) -> Result<(), OutOfMemory>
    ensures { OnOk result (locals.new ≡ locals.old ++ copies count ty) }
{
    for _ in 0..count {
        locals.push(ty)?;
    }
    Ok(())
}

#[tactic(auto, unfolding(binary_grammar::specs::words::CodeReading::run_of_locals_at, binary_grammar::specs::words::Reading::then_at, binary_grammar::specs::words::Reading::done_at))]
fn read_run_of_locals(
    sum: usize,
    bytes: &[u8],
    end: usize,
) -> Result<(u32, ValType, &[u8]), DecodeFault>
    requires { sum ≤ MAX_LOCALS }
    ensures gives { Gives (λ x. ((x.0, x.1), x.2.now)) result (run_of_locals_at the_bounds.locals sum end bytes.now) }
    ensures shorter { IfOk result (λ x. length x.2.now ≤ length bytes.now) }
    ensures few { IfOk result (λ x. sum + x.0 ≤ MAX_LOCALS) }
{
    let (count, rest) = read_number(bytes, end)?;
    if MAX_LOCALS < sum + count as usize {
        return Err(DecodeFault::Limit {
            at: place(bytes, end),
            word: LimitWord::Locals,
        });
    }
    let (ty, rest) = read_value_type(rest, end)?;
    Ok((count, ty, rest))
}

fn read_runs(
    alloc: Global,
    count: u32,
    bytes: &[u8],
    end: usize,
) -> Result<(List<ValType>, &[u8]), DecodeFault>
    ensures gives { Gives (λ x. (x.0, x.1.now)) result (runs_at the_bounds.locals 0 count end bytes.now) }
    ensures shorter { IfOk result (λ x. length x.1.now ≤ length bytes.now) }
{
    let mut locals = List::new(alloc);
    let mut rest = bytes;
    for _ in 0..count {
        let (number, ty, after) = read_run_of_locals(locals.len(), rest, end)?;
        push_copies(&mut locals, number, ty)?;
        rest = after;
    }
    Ok((locals, rest))
}

#[tactic(auto, unfolding(binary_grammar::specs::words::CodeReading::locals_at, binary_grammar::specs::words::Reading::then_at, binary_grammar::specs::words::Reading::done_at))]
fn read_locals(
    alloc: Global,
    bytes: &[u8],
    end: usize,
) -> Result<(List<ValType>, &[u8]), DecodeFault>
    ensures gives { Gives (λ x. (x.0, x.1.now)) result (locals_at the_bounds.locals end bytes.now) }
    ensures shorter { IfOk result (λ x. length x.1.now ≤ length bytes.now) }
{
    let (count, rest) = read_number(bytes, end)?;
    read_runs(alloc, count, rest, end)
}

#[tactic(auto, unfolding(binary_grammar::specs::words::CodeReading::body_at, binary_grammar::specs::words::CodeReading::body_contents_at, binary_grammar::specs::words::Reading::sized_at, binary_grammar::specs::words::Reading::then_at, binary_grammar::specs::words::Reading::done_at))]
fn read_body(alloc: Global, bytes: &[u8], end: usize) -> Result<(Body, &[u8]), DecodeFault>
    ensures gives { Gives (λ x. (x.0, x.1.now)) result (body_at the_bounds.locals the_bounds.nesting end bytes.now) }
    ensures shorter { IfOk result (λ x. length x.1.now ≤ length bytes.now) }
{
    let (inside, inner_end, after) = read_region(bytes, end)?;
    let (locals, rest) = read_locals(alloc, inside, inner_end)?;
    let (code, places, rest) = read_expression(alloc, rest, inner_end)?;
    read_end(rest, inner_end)?;
    Ok((
        Body {
            locals,
            code,
            places,
        },
        after,
    ))
}

impl Entry for Body {
    ghost reads = { body_at the_bounds.locals the_bounds.nesting };

    fn read(alloc: Global, bytes: &[u8], end: usize) -> Result<(Body, &[u8]), DecodeFault> {
        read_body(alloc, bytes, end)
    }
}
