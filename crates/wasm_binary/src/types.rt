ghost use Rattle.std.specs.Prelude.{◌≡◌, ◌≤◌, ◌-◌, ◌<◌, ℕ, List, length, IfOk};
ghost use Rattle.binary_grammar.specs.Bounds.{the_bounds};
ghost use Rattle.binary_grammar.specs.words.Reading.{Gives, place};
ghost use Rattle.binary_grammar.specs.words.TypeReading.{value_type_of, value_type_at, tag_at, flag_at, block_type_of, block_type_at, func_type_at, greatest_at, limits_at, table_type_at, global_type_at, import_kind_of, import_kind_at, import_at, export_kind_of, export_kind_at, export_at};

use crate::entries::{Entry, read_limited, read_list};
use crate::read::{malformed, place, read_byte, read_name, read_number};
use binary_grammar::{DecodeFault, DecodeWord};
use std::alloc::Global;
use wasm_syntax::{
    Export, ExportKind, FuncType, GlobalType, Import, ImportKind, Limits, MAX_ITEMS,
};
use wasm_values::{LimitWord, ValType};

const MAX_PARAMS: u32 = 1_000;

fn value_type(at: usize, byte: u8) -> Result<ValType, DecodeFault>
    ensures { Gives (λ t. t) result (value_type_of at byte) }
{
    match byte {
        0x7f => Ok(ValType::I32),
        0x7e => Ok(ValType::I64),
        0x7d | 0x7c => Err(malformed(at, DecodeWord::Float)),
        _ => Err(malformed(at, DecodeWord::Byte)),
    }
}

#[tactic(auto, unfolding(binary_grammar::specs::words::TypeReading::value_type_at, binary_grammar::specs::words::Reading::then_at, binary_grammar::specs::words::Reading::done_at, binary_grammar::specs::words::Reading::of_byte, binary_grammar::specs::words::Reading::tagged_at))]
pub(crate) fn read_value_type(bytes: &[u8], end: usize) -> Result<(ValType, &[u8]), DecodeFault>
    ensures gives { Gives (λ x. (x.0, x.1.now)) result (value_type_at end bytes.now) }
    ensures shorter { IfOk result (λ x. length x.1.now ≤ length bytes.now) }
{
    let (byte, rest) = read_byte(bytes, end)?;
    let ty = value_type(place(bytes, end), byte)?;
    Ok((ty, rest))
}

impl Entry for ValType {
    ghost reads = { value_type_at };

    fn read(_alloc: Global, bytes: &[u8], end: usize) -> Result<(ValType, &[u8]), DecodeFault> {
        read_value_type(bytes, end)
    }
}

fn block_type(at: usize, byte: u8) -> Result<Option<ValType>, DecodeFault>
    ensures { Gives (λ t. t) result (block_type_of at byte) }
{
    if byte == 0x40 {
        Ok(None)
    } else {
        let ty = value_type(at, byte)?;
        Ok(Some(ty))
    }
}

#[tactic(auto, unfolding(binary_grammar::specs::words::TypeReading::block_type_at, binary_grammar::specs::words::Reading::then_at, binary_grammar::specs::words::Reading::done_at, binary_grammar::specs::words::Reading::of_byte, binary_grammar::specs::words::Reading::tagged_at))]
pub(crate) fn read_block_type(
    bytes: &[u8],
    end: usize,
) -> Result<(Option<ValType>, &[u8]), DecodeFault>
    ensures gives { Gives (λ x. (x.0, x.1.now)) result (block_type_at end bytes.now) }
    ensures shorter { IfOk result (λ x. length x.1.now ≤ length bytes.now) }
{
    let (byte, rest) = read_byte(bytes, end)?;
    let ty = block_type(place(bytes, end), byte)?;
    Ok((ty, rest))
}

/// What follows a byte that must be `tag`.
#[tactic(auto, unfolding(binary_grammar::specs::words::TypeReading::tag_at, binary_grammar::specs::words::Reading::then_at, binary_grammar::specs::words::Reading::done_at, binary_grammar::specs::words::Reading::of_byte, binary_grammar::specs::words::Reading::tagged_at))]
pub(crate) fn read_tag(tag: u8, bytes: &[u8], end: usize) -> Result<(u8, &[u8]), DecodeFault>
    ensures gives { Gives (λ x. (x.0, x.1.now)) result (tag_at tag end bytes.now) }
    ensures shorter { IfOk result (λ x. length x.1.now ≤ length bytes.now) }
{
    let (byte, rest) = read_byte(bytes, end)?;
    if byte == tag {
        Ok((byte, rest))
    } else {
        Err(malformed(place(bytes, end), DecodeWord::Byte))
    }
}

#[tactic(auto, unfolding(binary_grammar::specs::words::TypeReading::flag_at, binary_grammar::specs::words::Reading::then_at, binary_grammar::specs::words::Reading::done_at, binary_grammar::specs::words::Reading::of_byte, binary_grammar::specs::words::Reading::tagged_at))]
fn read_flag(bytes: &[u8], end: usize) -> Result<(bool, &[u8]), DecodeFault>
    ensures gives { Gives (λ x. (x.0, x.1.now)) result (flag_at end bytes.now) }
    ensures shorter { IfOk result (λ x. length x.1.now ≤ length bytes.now) }
{
    let (byte, rest) = read_byte(bytes, end)?;
    match byte {
        0 => Ok((false, rest)),
        1 => Ok((true, rest)),
        _ => Err(malformed(place(bytes, end), DecodeWord::Byte)),
    }
}

#[tactic(auto, unfolding(binary_grammar::specs::words::TypeReading::func_type_at, binary_grammar::specs::words::Reading::then_at, binary_grammar::specs::words::Reading::done_at, binary_grammar::specs::words::Reading::of_byte, binary_grammar::specs::words::Reading::tagged_at))]
fn read_func_type(alloc: Global, bytes: &[u8], end: usize) -> Result<(FuncType, &[u8]), DecodeFault>
    requires { length bytes.now ≤ MAX_ITEMS }
    ensures gives { Gives (λ x. (x.0, x.1.now)) result (func_type_at the_bounds.params end bytes.now) }
    ensures shorter { IfOk result (λ x. length x.1.now ≤ length bytes.now) }
{
    let (_, rest) = read_tag(0x60, bytes, end)?;
    let (params, _, rest) = read_limited(alloc, MAX_PARAMS, LimitWord::Params, rest, end)?;
    let (results, rest) = read_list(alloc, rest, end)?;
    Ok((FuncType { params, results }, rest))
}

impl Entry for FuncType {
    ghost reads = { func_type_at the_bounds.params };

    fn read(alloc: Global, bytes: &[u8], end: usize) -> Result<(FuncType, &[u8]), DecodeFault> {
        read_func_type(alloc, bytes, end)
    }
}

#[tactic(auto, unfolding(binary_grammar::specs::words::Reading::then_at, binary_grammar::specs::words::Reading::done_at, binary_grammar::specs::words::Reading::of_byte, binary_grammar::specs::words::Reading::tagged_at))]
fn read_greatest(there: bool, bytes: &[u8], end: usize) -> Result<(Option<u32>, &[u8]), DecodeFault>
    ensures gives { Gives (λ x. (x.0, x.1.now)) result (greatest_at there end bytes.now) }
    ensures shorter { IfOk result (λ x. length x.1.now ≤ length bytes.now) }
{
    if there {
        let (number, rest) = read_number(bytes, end)?;
        Ok((Some(number), rest))
    } else {
        Ok((None, bytes))
    }
}

#[tactic(auto, unfolding(binary_grammar::specs::words::TypeReading::limits_at, binary_grammar::specs::words::Reading::then_at, binary_grammar::specs::words::Reading::done_at, binary_grammar::specs::words::Reading::of_byte, binary_grammar::specs::words::Reading::tagged_at))]
pub(crate) fn read_limits(bytes: &[u8], end: usize) -> Result<(Limits, &[u8]), DecodeFault>
    ensures gives { Gives (λ x. (x.0, x.1.now)) result (limits_at end bytes.now) }
    ensures shorter { IfOk result (λ x. length x.1.now ≤ length bytes.now) }
{
    let (there, rest) = read_flag(bytes, end)?;
    let (min, rest) = read_number(rest, end)?;
    let (max, rest) = read_greatest(there, rest, end)?;
    Ok((Limits { min, max }, rest))
}

#[tactic(auto, unfolding(binary_grammar::specs::words::TypeReading::table_type_at, binary_grammar::specs::words::Reading::then_at, binary_grammar::specs::words::Reading::done_at, binary_grammar::specs::words::Reading::of_byte, binary_grammar::specs::words::Reading::tagged_at))]
pub(crate) fn read_table_type(bytes: &[u8], end: usize) -> Result<(Limits, &[u8]), DecodeFault>
    ensures gives { Gives (λ x. (x.0, x.1.now)) result (table_type_at end bytes.now) }
    ensures shorter { IfOk result (λ x. length x.1.now ≤ length bytes.now) }
{
    let (_, rest) = read_tag(0x70, bytes, end)?;
    read_limits(rest, end)
}

#[tactic(auto, unfolding(binary_grammar::specs::words::TypeReading::global_type_at, binary_grammar::specs::words::Reading::then_at, binary_grammar::specs::words::Reading::done_at, binary_grammar::specs::words::Reading::of_byte, binary_grammar::specs::words::Reading::tagged_at))]
pub(crate) fn read_global_type(bytes: &[u8], end: usize) -> Result<(GlobalType, &[u8]), DecodeFault>
    ensures gives { Gives (λ x. (x.0, x.1.now)) result (global_type_at end bytes.now) }
    ensures shorter { IfOk result (λ x. length x.1.now ≤ length bytes.now) }
{
    let (value, rest) = read_value_type(bytes, end)?;
    let (mutable, rest) = read_flag(rest, end)?;
    Ok((GlobalType { value, mutable }, rest))
}

#[tactic(auto, unfolding(binary_grammar::specs::words::TypeReading::import_kind_of, binary_grammar::specs::words::Reading::then_at, binary_grammar::specs::words::Reading::done_at, binary_grammar::specs::words::Reading::of_byte, binary_grammar::specs::words::Reading::tagged_at))]
fn import_kind(
    at: usize,
    byte: u8,
    bytes: &[u8],
    end: usize,
) -> Result<(ImportKind, &[u8]), DecodeFault>
    ensures gives { Gives (λ x. (x.0, x.1.now)) result (import_kind_of at byte end bytes.now) }
    ensures shorter { IfOk result (λ x. length x.1.now ≤ length bytes.now) }
{
    match byte {
        0 => {
            let (ty, rest) = read_number(bytes, end)?;
            Ok((ImportKind::Func(ty), rest))
        }
        1 => {
            let (limits, rest) = read_table_type(bytes, end)?;
            Ok((ImportKind::Table(limits), rest))
        }
        2 => {
            let (limits, rest) = read_limits(bytes, end)?;
            Ok((ImportKind::Memory(limits), rest))
        }
        3 => {
            let (ty, rest) = read_global_type(bytes, end)?;
            Ok((ImportKind::Global(ty), rest))
        }
        _ => Err(malformed(at, DecodeWord::Byte)),
    }
}

#[tactic(auto, unfolding(binary_grammar::specs::words::TypeReading::import_kind_at, binary_grammar::specs::words::Reading::then_at, binary_grammar::specs::words::Reading::done_at, binary_grammar::specs::words::Reading::of_byte, binary_grammar::specs::words::Reading::tagged_at))]
fn read_import_kind(bytes: &[u8], end: usize) -> Result<(ImportKind, &[u8]), DecodeFault>
    ensures gives { Gives (λ x. (x.0, x.1.now)) result (import_kind_at end bytes.now) }
    ensures shorter { IfOk result (λ x. length x.1.now ≤ length bytes.now) }
{
    let (byte, rest) = read_byte(bytes, end)?;
    import_kind(place(bytes, end), byte, rest, end)
}

#[tactic(auto, unfolding(binary_grammar::specs::words::TypeReading::import_at, binary_grammar::specs::words::Reading::then_at, binary_grammar::specs::words::Reading::done_at, binary_grammar::specs::words::Reading::of_byte, binary_grammar::specs::words::Reading::tagged_at))]
fn read_import(alloc: Global, bytes: &[u8], end: usize) -> Result<(Import, &[u8]), DecodeFault>
    ensures gives { Gives (λ x. (x.0, x.1.now)) result (import_at end bytes.now) }
    ensures shorter { IfOk result (λ x. length x.1.now ≤ length bytes.now) }
{
    let (module, rest) = read_name(alloc, bytes, end)?;
    let (name, rest) = read_name(alloc, rest, end)?;
    let (kind, rest) = read_import_kind(rest, end)?;
    Ok((Import { module, name, kind }, rest))
}

impl Entry for Import {
    ghost reads = { import_at };

    fn read(alloc: Global, bytes: &[u8], end: usize) -> Result<(Import, &[u8]), DecodeFault> {
        read_import(alloc, bytes, end)
    }
}

#[tactic(auto, unfolding(binary_grammar::specs::words::TypeReading::export_kind_of, binary_grammar::specs::words::Reading::then_at, binary_grammar::specs::words::Reading::done_at, binary_grammar::specs::words::Reading::of_byte, binary_grammar::specs::words::Reading::tagged_at))]
fn export_kind(
    at: usize,
    byte: u8,
    bytes: &[u8],
    end: usize,
) -> Result<(ExportKind, &[u8]), DecodeFault>
    ensures gives { Gives (λ x. (x.0, x.1.now)) result (export_kind_of at byte end bytes.now) }
    ensures shorter { IfOk result (λ x. length x.1.now ≤ length bytes.now) }
{
    match byte {
        0 => {
            let (index, rest) = read_number(bytes, end)?;
            Ok((ExportKind::Func(index), rest))
        }
        1 => {
            let (index, rest) = read_number(bytes, end)?;
            Ok((ExportKind::Table(index), rest))
        }
        2 => {
            let (index, rest) = read_number(bytes, end)?;
            Ok((ExportKind::Memory(index), rest))
        }
        3 => {
            let (index, rest) = read_number(bytes, end)?;
            Ok((ExportKind::Global(index), rest))
        }
        _ => Err(malformed(at, DecodeWord::Byte)),
    }
}

#[tactic(auto, unfolding(binary_grammar::specs::words::TypeReading::export_kind_at, binary_grammar::specs::words::Reading::then_at, binary_grammar::specs::words::Reading::done_at, binary_grammar::specs::words::Reading::of_byte, binary_grammar::specs::words::Reading::tagged_at))]
fn read_export_kind(bytes: &[u8], end: usize) -> Result<(ExportKind, &[u8]), DecodeFault>
    ensures gives { Gives (λ x. (x.0, x.1.now)) result (export_kind_at end bytes.now) }
    ensures shorter { IfOk result (λ x. length x.1.now ≤ length bytes.now) }
{
    let (byte, rest) = read_byte(bytes, end)?;
    export_kind(place(bytes, end), byte, rest, end)
}

#[tactic(auto, unfolding(binary_grammar::specs::words::TypeReading::export_at, binary_grammar::specs::words::Reading::then_at, binary_grammar::specs::words::Reading::done_at, binary_grammar::specs::words::Reading::of_byte, binary_grammar::specs::words::Reading::tagged_at))]
fn read_export(alloc: Global, bytes: &[u8], end: usize) -> Result<(Export, &[u8]), DecodeFault>
    ensures gives { Gives (λ x. (x.0, x.1.now)) result (export_at end bytes.now) }
    ensures shorter { IfOk result (λ x. length x.1.now ≤ length bytes.now) }
{
    let (name, rest) = read_name(alloc, bytes, end)?;
    let (kind, rest) = read_export_kind(rest, end)?;
    Ok((Export { name, kind }, rest))
}

impl Entry for Export {
    ghost reads = { export_at };

    fn read(alloc: Global, bytes: &[u8], end: usize) -> Result<(Export, &[u8]), DecodeFault> {
        read_export(alloc, bytes, end)
    }
}
