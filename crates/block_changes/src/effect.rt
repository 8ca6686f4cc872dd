// What one item of code may change.

ghost use Rattle.wasm_syntax.specs.Items.{instr_seen};
ghost use Rattle.wasm_syntax.specs.declared.flat.Flat.TheVariants as flat;
ghost use Rattle.wasm_syntax.specs.declared.instr.Instr.{Instr};
ghost use Rattle.block_changes.specs.words.Effects.{HasEffect};

use wasm_syntax::{Item, Plain, Seen, Simple};

/// What an instruction may change.
pub(crate) enum Effect {
    /// It sets a local.
    Local(u32),
    /// It sets a global.
    Global(u32),
    Call,
    Growth,
    Nothing,
}

/// What an instruction without immediates may change.
fn effect_of_plain(op: Plain) -> Effect
    ensures { HasEffect (flat.One (Instr.Plain op)) result }
{
    match op {
        Plain::MemoryGrow => Effect::Growth,
        Plain::Unreachable => Effect::Nothing,
        Plain::Nop => Effect::Nothing,
        Plain::Return => Effect::Nothing,
        Plain::Drop => Effect::Nothing,
        Plain::Select => Effect::Nothing,
        Plain::MemorySize => Effect::Nothing,
    }
}

/// What an instruction that holds no others may change.
fn effect_of_simple(instr: Simple<'_>) -> Effect
    ensures { HasEffect (flat.One (instr_seen instr.entry)) result }
{
    match instr {
        Simple::Plain(op) => effect_of_plain(op),
        Simple::LocalSet(x) => Effect::Local(x),
        Simple::LocalTee(x) => Effect::Local(x),
        Simple::GlobalSet(x) => Effect::Global(x),
        Simple::Call(_) => Effect::Call,
        Simple::CallIndirect(_) => Effect::Call,
        Simple::Num(_) => Effect::Nothing,
        Simple::Const(_) => Effect::Nothing,
        Simple::LocalGet(_) => Effect::Nothing,
        Simple::GlobalGet(_) => Effect::Nothing,
        Simple::Load(_, _, _) => Effect::Nothing,
        Simple::Store(_, _, _) => Effect::Nothing,
        Simple::Br(_) => Effect::Nothing,
        Simple::BrIf(_) => Effect::Nothing,
        Simple::BrTable(_, _) => Effect::Nothing,
    }
}

/// What an item may change.
pub(crate) fn effect_of(item: &Item) -> Effect
    ensures { HasEffect item.now result }
{
    match item.seen() {
        Seen::One(instr) => effect_of_simple(instr),
        Seen::Block(_) => Effect::Nothing,
        Seen::Loop(_) => Effect::Nothing,
        Seen::If(_) => Effect::Nothing,
        Seen::Else => Effect::Nothing,
        Seen::End => Effect::Nothing,
    }
}
