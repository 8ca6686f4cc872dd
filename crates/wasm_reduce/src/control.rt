//! Blocks and branches.

ghost use Rattle.std.specs.Prelude.{◌≡◌, ℕ, ◌+◌, ◌<◌, ◌≤◌, List, ◌∷◌, Some, drop, length, map, reverse, option_map, slice_get, MatchOption, unwrap_or, OnOk, OnErr};
ghost use Rattle.wasm_syntax.specs.declared.instr.Instr.{Instr};
ghost use Rattle.wasm_syntax.specs.Places.{rest_at};
ghost use Rattle.wasm_store.specs.Configuration.{with_operands};
ghost use Rattle.wasm_store.specs.Control.{count_of, opened, chosen, Branches, jumped};
ghost use Rattle.wasm_store.specs.Seen.{seen_code, seen_label};
ghost use Rattle.wasm_reduce.specs.words.Effects.{Can, CameOf, seen_in, under};

use crate::effect::Effect;
use crate::operands::{drop_top, keep, pop, top_number};
use wasm_store::{CodeFrame, Label, Store};
use wasm_values::{List, OutOfMemory, Val, ValType};

/// How many results a block has.
pub fn count_of(ty: Option<ValType>) -> u32
    ensures { result ≡ count_of ty }
{
    match ty {
        Some(_) => 1,
        None => 0,
    }
}

/// Puts a label on top. More operands than a `u32` counts are want of memory.
fn push_label(
    labels: &mut List<Label>,
    arity: u32,
    height: usize,
    again: Option<u32>,
    after: u32,
) -> Result<(), OutOfMemory>
    ensures ok { OnOk result (reverse labels.new ≡ record { arity = arity; height = height; again = again; after = after } ∷ reverse labels.old) }
    ensures err { OnErr result (labels.new ≡ labels.old) }
{
    if height > 4_294_967_295 {
        return Err(OutOfMemory);
    }
    labels.push(Label {
        arity,
        height: height as u32,
        again,
        after,
    })
}

/// Opens a block.
pub fn open(
    frame: &mut CodeFrame,
    arity: u32,
    again: Option<u32>,
    body: u32,
    after: u32,
) -> Result<(), OutOfMemory>
    ensures ok { OnOk result ((code : List Instr) → seen_code code frame.new ≡ opened (seen_code code frame.old) arity (option_map (rest_at code) again) (rest_at code body) (rest_at code after)) }
    ensures func { frame.new.func ≡ frame.old.func }
    ensures err { OnErr result (frame.new ≡ frame.old) }
{
    let height = frame.operands.len();
    push_label(&mut frame.labels, arity, height, again, after)?;
    frame.position = body;
    Ok(())
}

/// Takes the topmost operand, and opens a block with the side that it chooses.
pub fn choose(
    frame: &mut CodeFrame,
    arity: u32,
    first: u32,
    second: u32,
    after: u32,
) -> Result<(), OutOfMemory>
    requires { (c : ℕ) × (rest : List Val) × (reverse frame.old.operands ≡ Val.I32 c ∷ rest) }
    ensures ok { OnOk result ((c : ℕ) (rest : List Val) → reverse frame.old.operands ≡ Val.I32 c ∷ rest → (code : List Instr) → seen_code code frame.new ≡ opened (with_operands (seen_code code frame.old) rest) arity None (chosen c (rest_at code first) (rest_at code second)) (rest_at code after)) }
    ensures func { frame.new.func ≡ frame.old.func }
    ensures err { OnErr result (frame.new ≡ frame.old) }
{
    let height = frame.operands.len() - 1;
    let side = if top_number(frame.operands.as_slice()) == 0 {
        second
    } else {
        first
    };
    push_label(&mut frame.labels, arity, height, None, after)?;
    let _ = pop(&mut frame.operands);
    frame.position = side;
    Ok(())
}

/// The end of the innermost code closes its block, or leaves the frame.
pub fn close(frame: &mut CodeFrame) -> Effect
    ensures { MatchOption (slice_get (reverse frame.old.labels) 0)
        ((result ≡ Effect.Leave 0) × (frame.new ≡ frame.old))
        (λ l. (result ≡ Effect.Went) × (frame.new.func ≡ frame.old.func) × ((code : List Instr) → seen_code code frame.new ≡ record (seen_code code frame.old) { labels = drop 1 (seen_code code frame.old).labels; rest = rest_at code l.after })) }
{
    match frame.labels.pop() {
        Some(label) => {
            frame.position = label.after;
            Effect::Went
        }
        None => Effect::Leave { above: 0 },
    }
}

/// The open block at a depth.
fn label_at(labels: &[Label], k: u32) -> Label
    requires { k < length labels.now }
    ensures { (outer : List Label) × (drop k (reverse labels.now) ≡ result ∷ outer) }
{
    labels[labels.len() - 1 - k as usize]
}

/// Closes so many blocks.
fn close_blocks(labels: &mut List<Label>, count: usize)
    requires { count ≤ length labels.old }
    ensures { reverse labels.new ≡ drop count (reverse labels.old) }
{
    let rest = labels.len() - count;
    labels.truncate(rest);
}

/// Branches to an open block.
fn jump(frame: &mut CodeFrame, k: u32)
    requires within { k < length frame.old.labels }
    requires wide { (l : Label) (outer : List Label) → drop k (reverse frame.old.labels) ≡ l ∷ outer → l.arity + l.height ≤ length frame.old.operands }
    ensures func { frame.new.func ≡ frame.old.func }
    ensures jumped { (l : Label) (outer : List Label) → drop k (reverse frame.old.labels) ≡ l ∷ outer → (code : List Instr) → seen_code code frame.new ≡ jumped (seen_code code frame.old) (seen_label code l) (map (seen_label code) outer) (option_map (rest_at code) l.again) }
{
    let label = label_at(frame.labels.as_slice(), k);
    keep(
        &mut frame.operands,
        label.arity as usize,
        label.height as usize,
    );
    match label.again {
        Some(body) => {
            close_blocks(&mut frame.labels, k as usize);
            frame.position = body;
        }
        None => {
            close_blocks(&mut frame.labels, k as usize + 1);
            frame.position = label.after;
        }
    }
}

/// A branch to the label at a depth, without so many operands on top. Past all blocks it leaves the frame.
pub fn branch(store: &Store, frame: &mut CodeFrame, k: u32, above: usize) -> Effect
    requires within { above ≤ length frame.old.operands }
    requires can { Can (λ below d. Branches store.now (under (seen_in store.now frame.old) above) below d (seen_in store.now frame.old).labels k) }
    ensures ok { CameOf (λ below d. Branches store.now (under (seen_in store.now frame.old) above) below d (seen_in store.now frame.old).labels k) store.now frame.old store.now frame.new result }
    ensures func { frame.new.func ≡ frame.old.func }
{
    if k as usize == frame.labels.len() {
        return Effect::Leave { above };
    }
    drop_top(&mut frame.operands, above);
    jump(frame, k);
    Effect::Went
}

/// The label that a number chooses among these, or the last.
pub fn label_of(labels: &[u32], last: u32, c: u32) -> u32
    ensures { result ≡ unwrap_or (slice_get labels.now c) last }
{
    match labels.get(c as usize) {
        Some(k) => *k,
        None => last,
    }
}
