//! Frames that are left and entered.

ghost use Rattle.std.specs.Prelude.{◌≡◌, ℕ, ◌+◌, ◌≤◌, List, [], ◌∷◌, ◌++◌, Some, take, drop, length, reverse, slice_get, IfOk, OnOk, OnErr};
ghost use Rattle.wasm_store.specs.declared.config.CodeFrame.{CodeFrame};
ghost use Rattle.wasm_store.specs.declared.config.Frame.{Frame};
ghost use Rattle.wasm_store.specs.declared.store.FuncInst.{FuncInst};
ghost use Rattle.wasm_store.specs.declared.store.Store.{Store};
ghost use Rattle.wasm_store.specs.Configuration.{Layer, OfCode};
ghost use Rattle.wasm_store.specs.Seen.{seen_frame};
ghost use Rattle.wasm_store.specs.Control.{given_to, type_of_inst};
ghost use Rattle.wasm_reduce.specs.words.Effects.{moved_to, under};
ghost use Rattle.wasm_reduce.specs.words.Layers.{HasTop, layers};

use crate::operands::drop_top;
use std::alloc::Global;
use wasm_store::{Frame, Outcome, Store};
use wasm_values::{List, OutOfMemory, Val};

/// The number of results of a function.
pub fn result_count(store: &Store, func: u32) -> usize
    requires { (inst : FuncInst) × (slice_get store.now.funcs func ≡ Some inst) }
    ensures { (inst : FuncInst) → slice_get store.now.funcs func ≡ Some inst → result ≡ length (type_of_inst inst).results }
{
    store.funcs.as_slice()[func as usize].ty().results.len()
}

/// The number of parameters of a function.
pub fn param_count(store: &Store, func: u32) -> usize
    requires { (inst : FuncInst) × (slice_get store.now.funcs func ≡ Some inst) }
    ensures { (inst : FuncInst) → slice_get store.now.funcs func ≡ Some inst → result ≡ length (type_of_inst inst).params }
{
    store.funcs.as_slice()[func as usize].ty().params.len()
}

/// The function of the top frame.
pub fn top_func(frames: &[Frame]) -> u32
    requires { (f : CodeFrame) × (below : List Frame) × HasTop frames.now f below }
    ensures { (f : CodeFrame) (below : List Frame) → HasTop frames.now f below → result ≡ f.func }
{
    match &frames[frames.len() - 1] {
        Frame::Code(frame) => frame.func,
        Frame::Host { .. } => unreachable!(),
    }
}

/// A list of these values.
fn list_of(alloc: Global, values: &[Val]) -> Result<List<Val>, OutOfMemory>
    ensures { IfOk result (λ list. list ≡ values.now) }
{
    match Vec::from_slice(alloc, values) {
        Ok(items) => Ok(List::from_vec(items)),
        Err(_) => Err(OutOfMemory),
    }
}

/// The operands of the top frame that lie below `above` others, `count` of them.
pub fn top_operands(
    alloc: Global,
    frames: &[Frame],
    above: usize,
    count: usize,
) -> Result<List<Val>, OutOfMemory>
    requires { (f : CodeFrame) × (below : List Frame) × HasTop frames.now f below × (above + count ≤ length f.operands) }
    ensures { IfOk result (λ values. (f : CodeFrame) (below : List Frame) → HasTop frames.now f below → reverse values ≡ take count (drop above (reverse f.operands))) }
{
    match &frames[frames.len() - 1] {
        Frame::Code(frame) => {
            let end = frame.operands.len() - above;
            list_of(alloc, &frame.operands.as_slice()[end - count..end])
        }
        Frame::Host { .. } => unreachable!(),
    }
}

/// Puts values on top, the last of them topmost.
fn push_all(operands: &mut List<Val>, values: &[Val]) -> Result<(), OutOfMemory>
    ensures ok { OnOk result (operands.new ≡ operands.old ++ values.now) }
    ensures err { OnErr result (operands.new ≡ operands.old) }
{
    let old = operands.len();
    for value in values {
        if let Err(fault) = operands.push(*value) {
            operands.truncate(old);
            return Err(fault);
        }
    }
    Ok(())
}

/// Gives results to a frame that waits for them.
fn give_to(frame: &mut Frame, results: List<Val>) -> Result<(), OutOfMemory>
    ensures ok { OnOk result ((s : Store) (below : List Layer) → record { store = s; frames = seen_frame s.funcs s.instances frame.new ∷ below; outcome = Outcome.Running } ≡ given_to s (reverse results) (seen_frame s.funcs s.instances frame.old ∷ below)) }
    ensures err { OnErr result (frame.new ≡ frame.old) }
{
    match frame {
        Frame::Code(code) => push_all(&mut code.operands, results.as_slice()),
        Frame::Host { given, .. } => {
            *given = results;
            Ok(())
        }
    }
}

/// Takes the top frame off, and gives its results to the frame below or to the outcome.
pub fn pass_down(
    frames: &mut Vec<Frame>,
    outcome: &mut Outcome,
    results: List<Val>,
) -> Result<(), OutOfMemory>
    requires running { outcome.old ≡ Outcome.Running }
    requires top { (top : Frame) × (below : List Frame) × (reverse frames.old.items ≡ top ∷ below) }
    ensures ok { OnOk result ((s : Store) (top : Frame) (below : List Frame) → reverse frames.old.items ≡ top ∷ below → record { store = s; frames = layers s (reverse frames.new.items); outcome = outcome.new } ≡ given_to s (reverse results) (layers s below)) }
    ensures err { OnErr result ((outcome.new ≡ outcome.old) × (frames.new.items ≡ frames.old.items)) }
{
    if frames.len() == 1 {
        let _ = frames.pop();
        *outcome = Outcome::Done(results);
        return Ok(());
    }
    let waiting = frames.len() - 2;
    give_to(&mut frames[waiting], results)?;
    let _ = frames.pop();
    Ok(())
}

/// Takes operands off, first so many above and then so many more, and goes on at a position.
fn go_on(frame: &mut Frame, above: usize, count: usize, on: u32)
    requires { (f : CodeFrame) × (frame.old ≡ Frame.Code f) × (above + count ≤ length f.operands) }
    ensures { (f : CodeFrame) → frame.old ≡ Frame.Code f → (s : Store) → seen_frame s.funcs s.instances frame.new ≡ OfCode (under (under (moved_to s f on) above) count) }
{
    match frame {
        Frame::Code(code) => {
            drop_top(&mut code.operands, above);
            drop_top(&mut code.operands, count);
            code.position = on;
        }
        Frame::Host { .. } => unreachable!(),
    }
}

/// Puts a frame on top.
fn push_frame(frames: &mut Vec<Frame>, layer: Frame) -> Result<(), OutOfMemory>
    ensures ok { OnOk result (frames.new.items ≡ frames.old.items ++ layer ∷ []) }
    ensures err { OnErr result (frames.new.items ≡ frames.old.items) }
{
    match frames.push(layer) {
        Ok(()) => Ok(()),
        Err(_) => Err(OutOfMemory),
    }
}

/// Puts a frame over the top one, which loses its topmost operands and then goes on at a position.
pub fn put_over(
    frames: &mut Vec<Frame>,
    layer: Frame,
    above: usize,
    count: usize,
    on: u32,
) -> Result<(), OutOfMemory>
    requires { (f : CodeFrame) × (below : List Frame) × HasTop frames.old.items f below × (above + count ≤ length f.operands) }
    ensures ok { OnOk result ((s : Store) (f : CodeFrame) (below : List Frame) → HasTop frames.old.items f below → layers s (reverse frames.new.items) ≡ seen_frame s.funcs s.instances layer ∷ OfCode (under (under (moved_to s f on) above) count) ∷ layers s below) }
    ensures err { OnErr result (frames.new.items ≡ frames.old.items) }
{
    push_frame(frames, layer)?;
    let waiting = frames.len() - 2;
    go_on(&mut frames[waiting], above, count, on);
    Ok(())
}
