//! The steps of an action.

ghost use Rattle.std.specs.Prelude.{◌≡◌, ◌<◌, None, Some, IfOk, OnErr, IsTrue};
ghost use Rattle.std.specs.Prelude.{◌↔◌};
ghost use Rattle.script_text.specs.declared.script.Action.{Action};
ghost use Rattle.wasm_link.specs.Lines.{Doing};
ghost use Rattle.wasm_link.specs.Stages.{Modules};
ghost use Rattle.std.specs.Prelude.{List};
ghost use Rattle.wasm_link.specs.words.{Ready, Kept, Reaches, IsTaken, EndsAs, stage_of, watch_of, stop_at};

use crate::run::{Ending, Run};
use std::alloc::Global;
use wasm_instantiate::{Observer, Sight};
use wasm_reduce::{Policy, StepFault, step};
use wasm_store::{Config, Outcome};
use wasm_values::OutOfMemory;

/// How far runs may go.
pub(crate) const POLICY: Policy = Policy {
    pages: 1024,
    frames: 10000,
};

// Whether a run goes on.
fn is_running(config: &Config) -> bool
    ensures { IsTrue result ↔ (config.now.outcome ≡ Outcome.Running) }
{
    matches!(config.outcome(), Outcome::Running)
}

// Takes a step, or answers no where it would make too many frames.
fn take_step(alloc: Global, run: &mut Run) -> Result<bool, OutOfMemory>
    requires ready { Ready run.old }
    requires running { run.old.config.outcome ≡ Outcome.Running }
    requires left { 0 < run.old.left }
    ensures taken { IfOk result (IsTaken run.old run.new) }
    ensures ready { Ready run.new }
    ensures kept { Kept run.old run.new }
    ensures err { OnErr result (run.new ≡ run.old) }
{
    match step(alloc, &mut run.config, &POLICY) {
        Ok(_) => {
            run.left -= 1;
            run.steps += 1;
            Ok(true)
        }
        Err(StepFault::Limit) => Ok(false),
        Err(StepFault::OutOfMemory) => Err(OutOfMemory),
    }
}

/// Takes steps while the action runs.
pub(crate) fn run_on<O: Observer>(
    alloc: Global,
    run: &mut Run,
    observer: &mut O,
) -> Result<Ending, OutOfMemory>
    requires { Ready run.old }
    ensures ready { Ready run.new }
    ensures kept { Kept run.old run.new }
    ensures ends { IfOk result (EndsAs run.new) }
    ensures reaches { (ms : Modules) (doing : Doing) (rest : List Action) → Reaches O.eyes ms
        (stage_of run.old (Some doing) rest) (watch_of observer.old run.old None None)
        (stage_of run.new (Some doing) rest) (watch_of observer.new run.new (stop_at result) None) }
{
    'steps: while is_running(&run.config) {
        if run.left == 0 {
            return Ok(Ending::Stopped);
        }
        let taken = take_step(alloc, run)?;
        if taken {
            match observer.see(&run.config) {
                Sight::Stop(n) => return Ok(Ending::Seen(n)),
                Sight::GoOn => {}
            }
        } else {
            return Ok(Ending::Limit);
        }
    }
    Ok(Ending::Over)
}
