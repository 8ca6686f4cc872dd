//! What calls are judged by.

ghost use Rattle.std.specs.Prelude.{◌≡◌, None, flat_map};
ghost use Rattle.std.specs.Option.{option_map};
ghost use Rattle.std.specs.Cmp.Lexicographic.{pointwise};
ghost use Rattle.term_trees.specs.Same.{same_formula};
ghost use Rattle.outline_rules.specs.Chunks.{same_chunk};
ghost use Rattle.wasm_values.specs.Answers.{Gives};
ghost use Rattle.wasm_syntax.specs.declared.module.Elem.{Elem};
ghost use Rattle.outline_rules.specs.Calls.{same_assertion, same_contract, judged};
ghost use Rattle.outline_setting.specs.words.Judging.{judged_next, judged_step, judged_walk, judged_end};
ghost use Rattle.outline_setting.specs.Reasons.{refusal_for};

use crate::formulas::same_formula;
use crate::setting::Setting;
use notes::{Assertion, Chunk, Contract, Reason};
use term_trees::{Formula, same_term};
use wasm_store::is_same_func_type;
use wasm_syntax::{Elem, FuncType};

/// Whether two chunks are the same tree.
fn same_chunk(a: &Chunk, b: &Chunk) -> bool
    ensures { result ≡ same_chunk a.now b.now }
{
    match (a, b) {
        (
            Chunk::Cell { width, at, value },
            Chunk::Cell {
                width: other_width,
                at: other_at,
                value: other_value,
            },
        ) => *width == *other_width && same_term(at, other_at) && same_term(value, other_value),
        (
            Chunk::Region { at, len },
            Chunk::Region {
                at: other_at,
                len: other_len,
            },
        ) => same_term(at, other_at) && same_term(len, other_len),
        (
            Chunk::Row {
                width,
                at,
                count,
                each,
            },
            Chunk::Row {
                width: other_width,
                at: other_at,
                count: other_count,
                each: other_each,
            },
        ) => {
            *width == *other_width
                && same_term(at, other_at)
                && same_term(count, other_count)
                && same_formula(each, other_each)
        }
        _ => false,
    }
}

/// Whether formulas are the same one by one.
fn same_formulas(a: &[Formula], b: &[Formula]) -> bool
    ensures { result ≡ pointwise same_formula a.now b.now }
{
    let mut rest = b;
    for first in a {
        let Some((other, more)) = rest.split_first() else {
            return false;
        };
        if !same_formula(first, other) {
            return false;
        }
        rest = more;
    }
    rest.is_empty()
}

/// Whether chunks are the same one by one.
fn same_chunks(a: &[Chunk], b: &[Chunk]) -> bool
    ensures { result ≡ pointwise same_chunk a.now b.now }
{
    let mut rest = b;
    for first in a {
        let Some((other, more)) = rest.split_first() else {
            return false;
        };
        if !same_chunk(first, other) {
            return false;
        }
        rest = more;
    }
    rest.is_empty()
}

/// Whether two assertions are the same tree.
fn same_assertion(a: &Assertion, b: &Assertion) -> bool
    ensures { result ≡ same_assertion a.now b.now }
{
    a.own == b.own
        && same_formulas(a.formulas.as_slice(), b.formulas.as_slice())
        && same_chunks(a.chunks.as_slice(), b.chunks.as_slice())
}

/// Whether two functions have the same contract, or both none.
pub fn same_contract(a: Option<&Contract>, b: Option<&Contract>) -> bool
    ensures { result ≡ same_contract (option_map (λ c. c.now) a.entry) (option_map (λ c. c.now) b.entry) }
{
    match (a, b) {
        (None, None) => true,
        (Some(a), Some(b)) => same_assertion(&a.pre, &b.pre) && same_assertion(&a.post, &b.post),
        _ => false,
    }
}

/// One more candidate, after the first, where there was one.
fn judged_next(setting: &Setting<'_>, first: Option<u32>, func: u32) -> Result<Option<u32>, Reason>
    ensures { Gives refusal_for (λ f. f) result (judged_next setting.now first func) }
{
    match first {
        None => Ok(Some(func)),
        Some(f) => {
            if same_contract(setting.contract_of(func), setting.contract_of(f)) {
                Ok(Some(f))
            } else {
                Err(Reason::Target)
            }
        }
    }
}

/// One more function, which is a candidate where its type is the wanted one.
fn judged_step(
    setting: &Setting<'_>,
    ty: &FuncType,
    first: Option<u32>,
    func: u32,
) -> Result<Option<u32>, Reason>
    ensures { Gives refusal_for (λ f. f) result (judged_step setting.now ty.now first func) }
{
    if is_same_func_type(setting.func_type(func), ty) {
        judged_next(setting, first, func)
    } else {
        Ok(first)
    }
}

/// The functions of one segment, one after another.
fn judged_segment(
    setting: &Setting<'_>,
    ty: &FuncType,
    first: Option<u32>,
    funcs: &[u32],
) -> Result<Option<u32>, Reason>
    ensures { Gives refusal_for (λ f. f) result (judged_walk setting.now ty.now first funcs.now) }
{
    let mut known = first;
    for func in funcs {
        match judged_step(setting, ty, known, *func) {
            Ok(next) => known = next,
            Err(why) => return Err(why),
        }
    }
    Ok(known)
}

/// The first candidate of all segments, where all candidates have its contract.
fn judged_segments(
    setting: &Setting<'_>,
    ty: &FuncType,
    elems: &[Elem],
) -> Result<Option<u32>, Reason>
    ensures { Gives refusal_for (λ f. f) result (judged_walk setting.now ty.now None (flat_map (λ (e : Elem). e.funcs) elems.now)) }
{
    let mut known = None;
    for elem in elems {
        match judged_segment(setting, ty, known, elem.funcs.as_slice()) {
            Ok(next) => known = next,
            Err(why) => return Err(why),
        }
    }
    Ok(known)
}

/// What all candidates are judged by, from the first.
fn judged_end<'a>(setting: &Setting<'a>, first: Option<u32>) -> Result<Option<&'a Contract>, Reason>
    ensures { Gives refusal_for (λ found. option_map (λ c. c.now) found) result (judged_end setting.now first) }
{
    match first {
        Some(first) => Ok(setting.contract_of(first)),
        None => Err(Reason::Target),
    }
}

/// What an indirect call is judged by: the contract of all its candidates, if they have one, where the table is private.
pub fn judged<'a>(setting: &Setting<'a>, ty: &FuncType) -> Result<Option<&'a Contract>, Reason>
    ensures { Gives refusal_for (λ found. option_map (λ c. c.now) found) result (judged setting.now ty.now) }
{
    if !setting.has_private_table() {
        return Ok(None);
    }
    match judged_segments(setting, ty, setting.module().elems.as_slice()) {
        Ok(first) => judged_end(setting, first),
        Err(why) => Err(why),
    }
}
