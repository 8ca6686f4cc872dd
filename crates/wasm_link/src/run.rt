//! A script that is being run.

ghost use Rattle.std.specs.Prelude.{◌≡◌, false, OnOk};
ghost use Rattle.script_text.specs.Names.{is_among};
ghost use Rattle.wasm_link.specs.Lines.{line};
ghost use Rattle.wasm_link.specs.words.{IsStarted, Named, Settled};

use crate::text::say;
use script_text::NameTable;
use std::alloc::Global;
use wasm_store::{Config, Extern};
use wasm_values::{List, OutOfMemory};

/// What a run has come to.
#[derive(Drop)]
pub(crate) struct Run {
    pub(crate) config: Config,
    /// How many steps may still be taken, and how many were.
    pub(crate) left: u32,
    pub(crate) steps: u64,
    /// The names of instances that were made or refused, and the number of each, or nothing where it isn't live.
    pub(crate) names: NameTable,
    pub(crate) numbers: List<Option<u32>>,
    /// The log.
    pub(crate) text: Vec<u8>,
}

/// Why an action goes on no more.
#[derive(Clone, Copy)]
pub(crate) enum Ending {
    /// Nothing runs.
    Over,
    /// All steps are taken.
    Stopped,
    /// A step would make too many frames.
    Limit,
    /// The observer stopped it.
    Seen(u8),
}

/// What exports stand for, or the place of a name that its instance lacks.
#[derive(Drop)]
pub(crate) enum Found {
    Externs(Vec<Extern>),
    Lacking(usize),
}

/// What comes after an action.
#[derive(Clone, Copy)]
pub(crate) enum Turn {
    /// The next action.
    Next,
    /// The script's end.
    Ended,
    /// The observer stopped the script.
    Seen(u8),
    /// The action names, at this place, an export that a live instance lacks.
    Lacks(usize),
}

/// Nothing was done yet.
pub(crate) fn started(alloc: Global, steps: u32) -> Run
    ensures { IsStarted steps result }
{
    Run {
        config: Config::new(alloc),
        left: steps,
        steps: 0,
        names: NameTable::new(alloc),
        numbers: List::new(alloc),
        text: Vec::new(alloc),
    }
}

// Tells the number of an instance's name, or that it isn't live.
fn name(run: &mut Run, name: &str, number: Option<u32>) -> Result<(), OutOfMemory>
    requires { is_among run.old.names name.now ≡ false }
    ensures { OnOk result (Named run.old run.new name.now number) }
{
    run.names.push(name)?;
    run.numbers.push(number)
}

/// Says what became of a `new`.
pub(crate) fn settle(
    run: &mut Run,
    instance: &str,
    number: Option<u32>,
    word: &[u8],
) -> Result<(), OutOfMemory>
    requires { is_among run.old.names instance.now ≡ false }
    ensures { OnOk result (Settled run.old run.new (line instance.now word.now) instance.now number) }
{
    say(run, instance.as_bytes(), word)?;
    name(run, instance, number)
}
