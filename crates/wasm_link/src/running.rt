//! Scripts that are run.

ghost use Rattle.std.specs.Prelude.{◌≡◌, ◌≤◌, ◌⊎◌, [], length, Result, IsErrOf, IfSome, IsSomeAnd};
ghost use Rattle.wasm_link.specs.declared.fault.LinkFault.{LinkFault as Fault};
ghost use Rattle.wasm_link.specs.declared.log.Log.{Log as LogOf};
ghost use Rattle.rw_edge.specs.Count.{Faulted};
ghost use Rattle.wasm_link.specs.Loading.{IsFirstRefused};
ghost use Rattle.wasm_link.specs.Answers.{IsSpelled, SeenAnswers, RunAnswers, ScriptAnswers};
ghost use Rattle.wasm_link.specs.words.{AreKnown, EndAnswers, LoadedAnswers};
ghost use Rattle.wasm_link.specs.words.Loads.{modules_loaded};

use crate::actions::act_all;
use crate::blind::Blind;
use crate::fault::LinkFault;
use crate::loading::{Loaded, load_all};
use crate::log::{Log, SeenLog};
use crate::run::{Run, Turn, started};
use rw_edge::Shelf;
use script_text::{Action, Script};
use std::alloc::Global;
use wasm_instantiate::Observer;
use wasm_values::{Bytes, OutOfMemory};

// What was written in a run.
fn written(run: Run, stopped: Option<u8>) -> SeenLog
    ensures text { result.log.text ≡ run.text.items }
    ensures steps { result.steps ≡ run.steps }
    ensures stopped { result.stopped ≡ stopped }
{
    let Run { text, steps, .. } = run;
    SeenLog {
        log: Log {
            text: Bytes::from_vec(text),
        },
        steps,
        stopped,
    }
}

// The log alone.
fn log_of(seen: SeenLog) -> Log
    ensures { result ≡ seen.log }
{
    let SeenLog { log, .. } = seen;
    log
}

// What a run that has come so far answers.
fn ended(run: Run, turn: Turn) -> Result<SeenLog, LinkFault>
    ensures { EndAnswers run turn result }
{
    match turn {
        Turn::Next => Ok(written(run, None)),
        Turn::Ended => Ok(written(run, None)),
        Turn::Seen(n) => Ok(written(run, Some(n))),
        Turn::Lacks(at) => Err(LinkFault::UnknownName(at)),
    }
}

// Runs the actions of a script whose modules are loaded.
fn run_loaded<O: Observer>(
    alloc: Global,
    loaded: &Loaded,
    steps: u32,
    actions: &[Action],
    observer: &mut O,
) -> Result<SeenLog, LinkFault>
    requires few { steps ≤ 100000000 }
    requires known { AreKnown loaded.now.names [] actions.now }
    requires beside { length loaded.now.modules ≡ length loaded.now.names }
    ensures { LoadedAnswers O.eyes (modules_loaded loaded.now) steps actions.now observer.old observer.new result }
{
    let mut run = started(alloc, steps);
    match act_all(alloc, &mut run, loaded, actions, observer) {
        Ok(turn) => ended(run, turn),
        Err(OutOfMemory) => Err(LinkFault::OutOfMemory),
    }
}

/// Runs a script while an observer looks on: reads its modules from a shelf, links instances of them and calls their functions. After
/// each instance that is made the observer is told of it and sees the configuration; it sees the one after each call that is
/// entered and after each step. Where it stops, the script stops.
pub fn run_script_seen<S: Shelf, O: Observer>(
    alloc: Global,
    shelf: &mut S,
    script: &Script,
    observer: &mut O,
) -> Result<SeenLog, LinkFault>
    requires { IsSpelled script.now }
    ensures files { S.files shelf.new ≡ S.files shelf.old }
    ensures no_lower { S.faults shelf.old ≤ S.faults shelf.new }

    // The log, the steps and the observer's notes are those of the script; or it is refused for the first reason.
    ensures answers { SeenAnswers O.eyes (S.files shelf.old) script.now observer.old observer.new result }

    // The shelf failed, or lacks the file of the first load that is refused.
    ensures shelf { IsErrOf result LinkFault.Shelf → Faulted (S.faults shelf.old) (S.faults shelf.new)
        ⊎ IsSomeAnd (S.files shelf.old) (λ files. IsFirstRefused files script.now.loads LinkFault.Shelf) }
{
    match load_all(alloc, shelf, script.loads.as_slice()) {
        Ok(loaded) => run_loaded(
            alloc,
            &loaded,
            script.steps,
            script.actions.as_slice(),
            observer,
        ),
        Err(fault) => Err(fault),
    }
}

// Runs a script on which nobody looks.
fn run_unseen<S: Shelf>(alloc: Global, shelf: &mut S, script: &Script) -> Result<Log, LinkFault>
    requires { IsSpelled script.now }
    ensures files { S.files shelf.new ≡ S.files shelf.old }
    ensures no_lower { S.faults shelf.old ≤ S.faults shelf.new }
    ensures answers { IfSome (S.files shelf.old) (λ files. RunAnswers files script.now result) }
    ensures shelf { IsErrOf result LinkFault.Shelf → Faulted (S.faults shelf.old) (S.faults shelf.new)
        ⊎ IsSomeAnd (S.files shelf.old) (λ files. IsFirstRefused files script.now.loads LinkFault.Shelf) }
{
    let mut observer = Blind::new();
    match run_script_seen(alloc, shelf, script, &mut observer) {
        Ok(seen) => Ok(log_of(seen)),
        Err(fault) => Err(fault),
    }
}

/// Runs a script, and answers its log.
pub fn run_script<S: Shelf>(alloc: Global, shelf: &mut S, script: &Script) -> Result<Log, LinkFault>
    requires { IsSpelled script.now }
    ensures files { S.files shelf.new ≡ S.files shelf.old }
    ensures no_lower { S.faults shelf.old ≤ S.faults shelf.new }

    // The log is that of the script over the files that the shelf tells; or it is refused for the first reason.
    ensures answers { IfSome (S.files shelf.old) (λ files. RunAnswers files script.now result) }

    // What the script comes to is answered, unless the shelf fails or memory is wanting.
    ensures exact { IfSome (S.files shelf.old) (λ files. (said : Result LogOf Fault) → ScriptAnswers files script.now said
        → (result ≡ said) ⊎ (IsErrOf result LinkFault.OutOfMemory ⊎ (IsErrOf result LinkFault.Shelf × Faulted (S.faults shelf.old) (S.faults shelf.new)))) }

    // The shelf failed, or lacks the file of the first load that is refused.
    ensures shelf { IsErrOf result LinkFault.Shelf → Faulted (S.faults shelf.old) (S.faults shelf.new)
        ⊎ IsSomeAnd (S.files shelf.old) (λ files. IsFirstRefused files script.now.loads LinkFault.Shelf) }
{
    run_unseen(alloc, shelf, script)
}
