// Reading one more byte.

ghost use Rattle.std.specs.Prelude.{◌≡◌, ℕ, ◌+◌, ◌<◌, ◌^◌, IfOk};
ghost use Rattle.sexp_text.specs.Reading.{Gives, between, begun, in_string, first_digit, second_digit, step, finish};
ghost use Rattle.sexp_text.specs.Items.{items_of};
ghost use Rattle.sexp_text.specs.words.Fronts.{front_of, seen, Stands};

use crate::bytes::{begins_escape, hex_value, is_hex, is_plain, is_run, is_white};
use crate::fault::{TextFault, TextWord};
use crate::reader::{Mode, Progress};
use crate::run::{run_part, string_part};
use crate::sexp::Sexp;
use std::alloc::Global;
use wasm_values::Bytes;

// A run or a string begins, which stands only in a list.
#[tactic(auto, unfolding(crate::specs::Reading::begun, crate::specs::words::Fronts::front_of))]
fn begin(at: usize, mode: Mode, progress: Progress) -> Result<(Progress, Mode), TextFault>
    ensures next { Gives seen result (begun at mode (front_of progress)) }
    ensures mode { IfOk result (λ r. r.1 ≡ mode) }
{
    match progress {
        Progress::Before => Err(TextFault::Refused {
            at,
            word: TextWord::Byte,
        }),
        Progress::Inside { outer, inner } => Ok((Progress::Inside { outer, inner }, mode)),
        Progress::After(_) => Err(TextFault::Refused {
            at,
            word: TextWord::Rest,
        }),
    }
}

// A byte between the parts.
#[tactic(auto, unfolding(crate::specs::Reading::between))]
fn step_between(
    alloc: Global,
    at: usize,
    b: u8,
    progress: Progress,
) -> Result<(Progress, Mode), TextFault>
    ensures next { Gives seen result (between at b (front_of progress)) }
    ensures stands { IfOk result (λ r. Stands (at + 1) r.1) }
{
    if is_white(b) {
        return Ok((progress, Mode::Between));
    }
    match b {
        b';' => Ok((progress, Mode::Comment)),
        b'(' => Ok((progress.open(alloc, at)?, Mode::Between)),
        b')' => Ok((progress.close(at)?, Mode::Between)),
        b'"' => begin(
            at,
            Mode::Quoted {
                from: at,
                bytes: Bytes::new(alloc),
            },
            progress,
        ),
        _ => {
            if !is_run(b) {
                return Err(TextFault::Refused {
                    at,
                    word: TextWord::Byte,
                });
            }
            let mut run = Bytes::new(alloc);
            run.push(b)?;
            begin(at, Mode::Run { from: at, run }, progress)
        }
    }
}

// A byte of a string.
#[tactic(auto, unfolding(crate::specs::Reading::in_string))]
fn step_in_string(
    alloc: Global,
    b: u8,
    from: usize,
    mut bytes: Bytes,
    progress: Progress,
) -> Result<(Progress, Mode), TextFault>
    ensures next { Gives seen result (in_string b from bytes (front_of progress)) }
    ensures stands { IfOk result (λ r. (at : ℕ) → Stands at r.1) }
{
    if b == b'"' {
        let part = string_part(alloc, from, bytes.as_slice())?;
        return Ok((progress.add(part)?, Mode::Between));
    }
    if b == b'\\' {
        return Ok((progress, Mode::Escape { from, bytes }));
    }
    if is_plain(b) {
        bytes.push(b)?;
        return Ok((progress, Mode::Quoted { from, bytes }));
    }
    Err(TextFault::Refused {
        at: from,
        word: TextWord::String,
    })
}

// The first digit of an escape.
#[tactic(auto, unfolding(crate::specs::Reading::first_digit), using(crate::proofs::ByteLemmas::escapes))]
fn step_first_digit(
    b: u8,
    from: usize,
    bytes: Bytes,
    progress: Progress,
) -> Result<(Progress, Mode), TextFault>
    ensures next { Gives seen result (first_digit b from bytes (front_of progress)) }
    ensures stands { IfOk result (λ r. (at : ℕ) → Stands at r.1) }
{
    if begins_escape(b) {
        let high = hex_value(b);
        return Ok((progress, Mode::Digit { from, bytes, high }));
    }
    Err(TextFault::Refused {
        at: from,
        word: TextWord::String,
    })
}

// The second digit of an escape.
#[tactic(auto, unfolding(crate::specs::Reading::second_digit))]
fn step_second_digit(
    b: u8,
    from: usize,
    mut bytes: Bytes,
    high: u8,
    progress: Progress,
) -> Result<(Progress, Mode), TextFault>
    requires { high < 16 }
    ensures next { Gives seen result (second_digit b from bytes high (front_of progress)) }
    ensures stands { IfOk result (λ r. (at : ℕ) → Stands at r.1) }
{
    if is_hex(b) {
        let escaped = 16 * high + hex_value(b);
        if !is_plain(escaped) {
            bytes.push(escaped)?;
            return Ok((progress, Mode::Quoted { from, bytes }));
        }
    }
    Err(TextFault::Refused {
        at: from,
        word: TextWord::String,
    })
}

/// Reads one more byte, at this place.
#[tactic(auto, unfolding(crate::specs::Reading::step))]
pub(crate) fn step(
    alloc: Global,
    at: usize,
    b: u8,
    progress: Progress,
    mode: Mode,
) -> Result<(Progress, Mode), TextFault>
    requires stands { Stands at mode }
    requires small { at < 2 ^ 63 }
    ensures next { Gives seen result (step at b (front_of progress) mode) }
    ensures stands { IfOk result (λ r. Stands (at + 1) r.1) }
{
    match mode {
        Mode::Between => step_between(alloc, at, b, progress),
        Mode::Comment => {
            if b == b'\n' {
                Ok((progress, Mode::Between))
            } else {
                Ok((progress, Mode::Comment))
            }
        }
        Mode::Run { from, mut run } => {
            if is_run(b) {
                run.push(b)?;
                return Ok((progress, Mode::Run { from, run }));
            }
            let part = run_part(alloc, from, run.as_slice())?;
            step_between(alloc, at, b, progress.add(part)?)
        }
        Mode::Quoted { from, bytes } => step_in_string(alloc, b, from, bytes, progress),
        Mode::Escape { from, bytes } => step_first_digit(b, from, bytes, progress),
        Mode::Digit { from, bytes, high } => step_second_digit(b, from, bytes, high, progress),
    }
}

/// The text ends, at this place.
#[tactic(auto, unfolding(crate::specs::Reading::finish, crate::specs::words::Fronts::front_of))]
pub(crate) fn finish(
    alloc: Global,
    at: usize,
    progress: Progress,
    mode: Mode,
) -> Result<Sexp, TextFault>
    requires stands { Stands at mode }
    requires small { at < 2 ^ 63 }
    ensures { Gives items_of result (finish at (front_of progress) mode) }
{
    let end = TextFault::Refused {
        at,
        word: TextWord::End,
    };
    match mode {
        Mode::Between | Mode::Comment => match progress {
            Progress::After(whole) => Ok(whole),
            _ => Err(end),
        },
        Mode::Run { from, run } => {
            let _part = run_part(alloc, from, run.as_slice())?;
            Err(end)
        }
        _ => Err(end),
    }
}
