// What an instruction needs beside its operands.

ghost use Rattle.std.specs.Prelude.{◌≡◌, ◌≤◌, ◌^◌, [], ◌∷◌, nat_le, nat_lt, is_some, slice_get, length};
ghost use Rattle.std.specs.List.{list_all};
ghost use Rattle.wasm_syntax.specs.Accesses.{bytes_loaded, bytes_stored};
ghost use Rattle.wasm_syntax.specs.Items.{instr_seen};
ghost use Rattle.wasm_values.specs.Types.{are_same_types};
ghost use Rattle.wasm_typing.specs.Typing.{types_of};
ghost use Rattle.wasm_typing.specs.faults.Faults.{condition, first_failing, conditions, are_targets, is_label_of, is_mutable};
ghost use Rattle.body_check.specs.words.Steps.{context_in, AreNames, labels_in};

use crate::names::{self, Names};
use crate::open::{Labels, label_at};
use wasm_syntax::{Plain, Simple, bytes_loaded, bytes_stored};
use wasm_typing::ValidWord;
use wasm_values::ValType;

/// Whether an alignment, by its exponent, is at most an access width.
fn is_aligned(align: u32, width: usize) -> bool
    requires { width ≤ 8 }
    ensures { result ≡ nat_le (2 ^ align) width }
{
    align <= 3 && 1usize << align <= width
}

fn is_same(a: Option<ValType>, b: Option<ValType>) -> bool
    ensures { result ≡ are_same_types (types_of a) (types_of b) }
{
    match (a, b) {
        (None, None)
        | (Some(ValType::I32), Some(ValType::I32))
        | (Some(ValType::I64), Some(ValType::I64)) => true,
        _ => false,
    }
}

/// Whether a branch to a label takes this.
fn is_label(labels: &Labels<'_>, l: u32, wanted: Option<ValType>) -> bool
    ensures { result ≡ is_label_of (slice_get (labels_in labels.now) l) (types_of wanted) }
{
    match label_at(labels, l) {
        Some(label) => is_same(label, wanted),
        None => false,
    }
}

/// Whether a branch to each of these labels takes what one to the last does.
fn have_one_type(labels: &Labels<'_>, targets: &[u32], last: u32) -> bool
    ensures { result ≡ are_targets (labels_in labels.now) targets.now (slice_get (labels_in labels.now) last) }
{
    match label_at(labels, last) {
        Some(wanted) => all_labels(labels, targets, wanted),
        None => false,
    }
}

fn all_labels(labels: &Labels<'_>, targets: &[u32], wanted: Option<ValType>) -> bool
    ensures { result ≡ list_all (λ l. is_label_of (slice_get (labels_in labels.now) l) (types_of wanted)) targets.now }
{
    for l in targets {
        if !is_label(labels, *l, wanted) {
            return false;
        }
    }
    true
}

fn index_unless(is_there: bool) -> Option<ValidWord>
    ensures { result ≡ first_failing (condition is_there ValidWord.Index ∷ []) }
{
    if is_there {
        None
    } else {
        Some(ValidWord::Index)
    }
}

fn align_fault(names: &Names<'_>, align: u32, width: usize) -> Option<ValidWord>
    requires names { AreNames names.now }
    requires small { width ≤ 8 }
    ensures { result ≡ first_failing (condition (nat_lt 0 (length (context_in names.now).memories)) ValidWord.Index ∷ condition (nat_le (2 ^ align) width) ValidWord.Align ∷ []) }
{
    if names.scope.memories == 0 {
        return Some(ValidWord::Index);
    }
    if is_aligned(align, width) {
        None
    } else {
        Some(ValidWord::Align)
    }
}

fn set_fault(names: &Names<'_>, x: u32) -> Option<ValidWord>
    requires { AreNames names.now }
    ensures { result ≡ first_failing (condition (is_some (slice_get (context_in names.now).globals x)) ValidWord.Index ∷ condition (is_mutable (slice_get (context_in names.now).globals x)) ValidWord.WrongType ∷ []) }
{
    match names.scope.globals.get(x as usize) {
        Some(global) => {
            if global.mutable {
                None
            } else {
                Some(ValidWord::WrongType)
            }
        }
        None => Some(ValidWord::Index),
    }
}

/// The first need of an instruction that isn't met, as its word.
pub(crate) fn first_need(
    names: &Names<'_>,
    labels: &Labels<'_>,
    instr: Simple<'_>,
) -> Option<ValidWord>
    requires { AreNames names.now }
    ensures { result ≡ first_failing (conditions (context_in names.now) (labels_in labels.now) (instr_seen instr.entry)) }
{
    match instr {
        Simple::Plain(Plain::MemorySize) | Simple::Plain(Plain::MemoryGrow) => index_unless(
            names.scope.memories > 0,
        ),
        Simple::LocalGet(x) | Simple::LocalSet(x) | Simple::LocalTee(x) => index_unless(
            names::local_type(names, x).is_some(),
        ),
        Simple::GlobalGet(x) => index_unless(names.scope.globals.get(x as usize).is_some()),
        Simple::GlobalSet(x) => set_fault(names, x),
        Simple::Load(op, align, _) => align_fault(names, align, bytes_loaded(op)),
        Simple::Store(op, align, _) => align_fault(names, align, bytes_stored(op)),
        Simple::Br(l) | Simple::BrIf(l) => label_unless(label_at(labels, l).is_some()),
        Simple::BrTable(ls, l) => label_unless(have_one_type(labels, ls, l)),
        Simple::Call(f) => index_unless(names::func_type(names, f).is_some()),
        Simple::CallIndirect(t) => index_unless(
            names.scope.tables > 0 && names.whole.types.as_slice().get(t as usize).is_some(),
        ),
        _ => None,
    }
}

fn label_unless(is_there: bool) -> Option<ValidWord>
    ensures { result ≡ first_failing (condition is_there ValidWord.Label ∷ []) }
{
    if is_there {
        None
    } else {
        Some(ValidWord::Label)
    }
}
