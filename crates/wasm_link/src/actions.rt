//! The actions of a script.

ghost use Rattle.std.specs.Prelude.{◌≡◌, ◌<◌, ◌∷◌, [], ◌++◌, ℕ, List, length, true, false, None, Some, Ok, OnOk, IfOk, codes};
ghost use Rattle.type_safety.specs.Shapes.{shape_of, ExternExists};
ghost use Rattle.wasm_sessions.specs.Instantiation.{IsAtRest};
ghost use Rattle.script_text.specs.declared.script.Action.{Action};
ghost use Rattle.script_text.specs.declared.script.Action.TheVariants as action;
ghost use Rattle.script_text.specs.declared.script.Origin.{Origin};
ghost use Rattle.script_text.specs.Grammar.{made_by};
ghost use Rattle.script_text.specs.Names.{is_among};
ghost use Rattle.wasm_link.specs.Lines.{Doing, Making, Calling, line, call_head, end_word};
ghost use Rattle.wasm_link.specs.Stages.{Modules, Stage, Next, Says, Makes, Enters, are_live, externs_from, module_named, export_named_by};
ghost use Rattle.wasm_link.specs.words.{Ready, Said, Settled, number_after, RefusedSo, IsKnownAction, AreKnown, stage_of, watch_of, live_of, TurnAnswers, AllAnswers};
ghost use Rattle.wasm_link.specs.words.Loads.{modules_loaded};

use crate::loading::{Loaded, module_of};
use crate::look::{are_live, externs_of, look_up, number_of};
use crate::run::{Ending, Found, Run, Turn, settle};
use crate::steps::{POLICY, run_on};
use crate::text::{call_head, refusal_word, say, values_text};
use script_text::{Action, Origin};
use std::alloc::Global;
use wasm_instantiate::{InstFault, InvFault, Observer, Sight, instantiate, invoke};
use wasm_store::{Extern, Outcome};
use wasm_validate::ValidModule;
use wasm_values::{OutOfMemory, Text, Val};

// Says the last line of a script.
fn end(run: &mut Run, head: &[u8], word: &[u8]) -> Result<Turn, OutOfMemory>
    ensures said { OnOk result (Said run.old run.new (line head.now word.now)) }
    ensures ended { IfOk result (λ turn. turn ≡ Turn.Ended) }
{
    say(run, head, word)?;
    Ok(Turn::Ended)
}

// Says what became of a call that wasn't begun.
fn next(run: &mut Run, head: &[u8], word: &[u8]) -> Result<Turn, OutOfMemory>
    ensures said { OnOk result (Said run.old run.new (line head.now word.now)) }
    ensures next { IfOk result (λ turn. turn ≡ Turn.Next) }
{
    say(run, head, word)?;
    Ok(Turn::Next)
}

// Says why an instance isn't made.
fn skip(run: &mut Run, instance: &str, word: &[u8]) -> Result<Turn, OutOfMemory>
    requires { is_among run.old.names instance.now ≡ false }
    ensures said { OnOk result (Settled run.old run.new (line instance.now word.now) instance.now None) }
    ensures next { IfOk result (λ turn. turn ≡ Turn.Next) }
{
    settle(run, instance, None, word)?;
    Ok(Turn::Next)
}

// Says how the start function of a new instance has ended.
fn end_start(run: &mut Run, instance: &str, number: u32) -> Result<Turn, OutOfMemory>
    requires rest { IsAtRest run.old.config.outcome }
    requires new { is_among run.old.names instance.now ≡ false }
    ensures said { OnOk result (Settled run.old run.new (line instance.now (end_word (Making instance.now number) run.old.config.outcome)) instance.now (number_after run.old.config.outcome number)) }
    ensures next { IfOk result (λ turn. turn ≡ Turn.Next) }
{
    match run.config.outcome() {
        Outcome::Done(_) => settle(run, instance, Some(number), b"made")?,
        _ => settle(run, instance, None, b"trap")?,
    }
    Ok(Turn::Next)
}

// Says how a call has ended.
fn end_call(alloc: Global, run: &mut Run, head: &[u8]) -> Result<Turn, OutOfMemory>
    requires { IsAtRest run.old.config.outcome }
    ensures said { (instance export : List ℕ) → OnOk result (Said run.old run.new (line head.now (end_word (Calling instance export) run.old.config.outcome))) }
    ensures next { IfOk result (λ turn. turn ≡ Turn.Next) }
{
    match run.config.outcome() {
        Outcome::Done(values) => {
            let word = values_text(alloc, values.as_slice())?;
            say(run, head, word.as_slice())?;
        }
        _ => say(run, head, b"trap")?,
    }
    Ok(Turn::Next)
}

// Runs the start function of a new instance.
fn run_start<O: Observer>(
    alloc: Global,
    run: &mut Run,
    instance: &str,
    number: u32,
    observer: &mut O,
) -> Result<Turn, OutOfMemory>
    requires ready { Ready run.old }
    requires new { is_among run.old.names instance.now ≡ false }
    requires there { number < length run.old.config.store.instances }
    ensures { (ms : Modules) (rest : List Action) → TurnAnswers O.eyes ms
        (stage_of run.old (Some (Making instance.now number)) rest) (watch_of observer.old run.old None None)
        (run.old.names ++ instance.now ∷ []) run.new observer.new rest result }
{
    match run_on(alloc, run, observer) {
        Ok(Ending::Over) => end_start(run, instance, number),
        Ok(Ending::Stopped) => end(run, instance.as_bytes(), b"stopped"),
        Ok(Ending::Limit) => end(run, instance.as_bytes(), b"limit"),
        Ok(Ending::Seen(n)) => Ok(Turn::Seen(n)),
        Err(OutOfMemory) => Err(OutOfMemory),
    }
}

// Runs a function that was called.
fn run_call<O: Observer>(
    alloc: Global,
    run: &mut Run,
    head: &[u8],
    observer: &mut O,
) -> Result<Turn, OutOfMemory>
    requires { Ready run.old }
    ensures { (ms : Modules) (rest : List Action) (instance export : List ℕ) → head.now ≡ call_head instance export → TurnAnswers O.eyes ms
        (stage_of run.old (Some (Calling instance export)) rest) (watch_of observer.old run.old None None)
        run.old.names run.new observer.new rest result }
{
    match run_on(alloc, run, observer) {
        Ok(Ending::Over) => end_call(alloc, run, head),
        Ok(Ending::Stopped) => end(run, head, b"stopped"),
        Ok(Ending::Limit) => end(run, head, b"limit"),
        Ok(Ending::Seen(n)) => Ok(Turn::Seen(n)),
        Err(OutOfMemory) => Err(OutOfMemory),
    }
}

// Lets the observer see a configuration.
fn show<O: Observer>(run: &Run, observer: &mut O) -> Sight
    ensures noted { observer.new ≡ O.eyes.noted_seen observer.old run.now.config }
    ensures told { result ≡ O.eyes.told_seen observer.old run.now.config }
{
    observer.see(&run.config)
}

// Tells the observer of a new instance, and runs its start function.
fn tell_made<O: Observer>(
    alloc: Global,
    run: &mut Run,
    instance: &str,
    number: u32,
    module: &ValidModule,
    observer: &mut O,
) -> Result<Turn, OutOfMemory>
    requires ready { Ready run.old }
    requires new { is_among run.old.names instance.now ≡ false }
    requires there { number < length run.old.config.store.instances }
    ensures { (ms : Modules) (s : Stage) (rest : List Action) → Next ms s (Makes instance.now number «module».now run.old.config) (stage_of run.old (Some (Making instance.now number)) rest) →
        TurnAnswers O.eyes ms s (watch_of observer.old run.old None None) (run.old.names ++ instance.now ∷ []) run.new observer.new rest result }
{
    match observer.made(alloc, instance, number, module) {
        Ok(Sight::Stop(n)) => Ok(Turn::Seen(n)),
        Ok(Sight::GoOn) => match show(run, observer) {
            Sight::Stop(n) => Ok(Turn::Seen(n)),
            Sight::GoOn => run_start(alloc, run, instance, number, observer),
        },
        Err(OutOfMemory) => Err(OutOfMemory),
    }
}

// Says that an instantiation was refused.
fn refuse(
    alloc: Global,
    run: &mut Run,
    instance: &str,
    fault: InstFault,
) -> Result<Turn, OutOfMemory>
    requires { is_among run.old.names instance.now ≡ false }
    ensures { IfOk result (RefusedSo run.old run.new instance.now fault) }
{
    match fault {
        InstFault::OutOfMemory => Err(OutOfMemory),
        InstFault::Limit => end(run, instance.as_bytes(), b"limit"),
        _ => {
            let word = refusal_word(alloc, fault)?;
            skip(run, instance, word.as_slice())
        }
    }
}

// Makes an instance of a module with these externs for its imports.
fn make<O: Observer>(
    alloc: Global,
    run: &mut Run,
    instance: &str,
    module: &ValidModule,
    externs: &Vec<Extern>,
    observer: &mut O,
) -> Result<Turn, OutOfMemory>
    requires ready { Ready run.old }
    requires rest { IsAtRest run.old.config.outcome }
    requires new { is_among run.old.names instance.now ≡ false }
    ensures { (ms : Modules) (m : List ℕ) (from : List Origin) (rest : List Action) →
        are_live (live_of run.old) from ≡ true → externs_from run.old.config.store (live_of run.old) [] from ≡ Ok externs.now.items → module_named ms m ≡ Some «module».now →
        TurnAnswers O.eyes ms (stage_of run.old None (action.New instance.now m from ∷ rest)) (watch_of observer.old run.old None None)
        (run.old.names ++ instance.now ∷ []) run.new observer.new rest result }
{
    match instantiate(alloc, &mut run.config, module, externs, &POLICY) {
        Ok(number) => tell_made(alloc, run, instance, number as u32, module, observer),
        Err(fault) => refuse(alloc, run, instance, fault),
    }
}

// `new`: makes an instance, whose imports are exports of live instances.
fn begin_new<O: Observer>(
    alloc: Global,
    run: &mut Run,
    instance: &str,
    module: &ValidModule,
    from: &[Origin],
    observer: &mut O,
) -> Result<Turn, OutOfMemory>
    requires ready { Ready run.old }
    requires rest { IsAtRest run.old.config.outcome }
    requires new { is_among run.old.names instance.now ≡ false }
    ensures { (ms : Modules) (m : List ℕ) (rest : List Action) → module_named ms m ≡ Some «module».now →
        TurnAnswers O.eyes ms (stage_of run.old None (action.New instance.now m from.now ∷ rest)) (watch_of observer.old run.old None None)
        (run.old.names ++ instance.now ∷ []) run.new observer.new rest result }
{
    if !are_live(run, from) {
        return skip(run, instance, b"absent");
    }
    match externs_of(alloc, run, from) {
        Ok(Found::Lacking(at)) => Ok(Turn::Lacks(at)),
        Ok(Found::Externs(externs)) => make(alloc, run, instance, module, &externs, observer),
        Err(OutOfMemory) => Err(OutOfMemory),
    }
}

// Enters a function that is called.
fn enter<O: Observer>(
    alloc: Global,
    run: &mut Run,
    head: &[u8],
    target: Extern,
    args: &Vec<Val>,
    observer: &mut O,
) -> Result<Turn, OutOfMemory>
    requires ready { Ready run.old }
    requires rest { IsAtRest run.old.config.outcome }
    requires exists { ExternExists (shape_of run.old.config.store) target }
    ensures { (ms : Modules) (rest : List Action) (instance export : List ℕ) (at : ℕ) → head.now ≡ call_head instance export →
        export_named_by run.old.config.store (live_of run.old) instance export ≡ Some target →
        TurnAnswers O.eyes ms (stage_of run.old None (action.Call instance export at args.now.items ∷ rest)) (watch_of observer.old run.old None None)
        run.old.names run.new observer.new rest result }
{
    match invoke(alloc, &mut run.config, &target, args) {
        Ok(()) => match show(run, observer) {
            Sight::Stop(n) => Ok(Turn::Seen(n)),
            Sight::GoOn => run_call(alloc, run, head, observer),
        },
        Err(InvFault::NotFunction) => next(run, head, b"function"),
        Err(InvFault::Arguments) => next(run, head, b"arguments"),
        Err(InvFault::OutOfMemory) => Err(OutOfMemory),
    }
}

// Copies the arguments of a call, and enters its function.
fn enter_with<O: Observer>(
    alloc: Global,
    run: &mut Run,
    head: &[u8],
    target: Extern,
    args: &[Val],
    observer: &mut O,
) -> Result<Turn, OutOfMemory>
    requires ready { Ready run.old }
    requires rest { IsAtRest run.old.config.outcome }
    requires exists { ExternExists (shape_of run.old.config.store) target }
    ensures { (ms : Modules) (rest : List Action) (instance export : List ℕ) (at : ℕ) → head.now ≡ call_head instance export →
        export_named_by run.old.config.store (live_of run.old) instance export ≡ Some target →
        TurnAnswers O.eyes ms (stage_of run.old None (action.Call instance export at args.now ∷ rest)) (watch_of observer.old run.old None None)
        run.old.names run.new observer.new rest result }
{
    match Vec::from_slice(alloc, args) {
        Ok(args) => enter(alloc, run, head, target, &args, observer),
        Err(_) => Err(OutOfMemory),
    }
}

// Calls an export that is there.
fn call<O: Observer>(
    alloc: Global,
    run: &mut Run,
    instance: &str,
    export: &Text,
    target: Extern,
    args: &[Val],
    observer: &mut O,
) -> Result<Turn, OutOfMemory>
    requires ready { Ready run.old }
    requires rest { IsAtRest run.old.config.outcome }
    requires there { export_named_by run.old.config.store (live_of run.old) instance.now export.now ≡ Some target }
    ensures { (ms : Modules) (rest : List Action) (at : ℕ) →
        TurnAnswers O.eyes ms (stage_of run.old None (action.Call instance.now export.now at args.now ∷ rest)) (watch_of observer.old run.old None None)
        run.old.names run.new observer.new rest result }
{
    match call_head(alloc, instance, export) {
        Ok(head) => enter_with(alloc, run, head.as_slice(), target, args, observer),
        Err(OutOfMemory) => Err(OutOfMemory),
    }
}

// Says that the instance of a call isn't live.
fn miss(alloc: Global, run: &mut Run, instance: &str, export: &Text) -> Result<Turn, OutOfMemory>
    ensures said { OnOk result (Said run.old run.new (line (call_head instance.now export.now) (codes "absent"))) }
    ensures next { IfOk result (λ turn. turn ≡ Turn.Next) }
{
    let head = call_head(alloc, instance, export)?;
    next(run, head.as_slice(), b"absent")
}

// `call`: calls an export of a live instance.
fn begin_call<O: Observer>(
    alloc: Global,
    run: &mut Run,
    instance: &str,
    export: &Text,
    at: usize,
    args: &[Val],
    observer: &mut O,
) -> Result<Turn, OutOfMemory>
    requires ready { Ready run.old }
    requires rest { IsAtRest run.old.config.outcome }
    ensures { (ms : Modules) (rest : List Action) →
        TurnAnswers O.eyes ms (stage_of run.old None (action.Call instance.now export.now at args.now ∷ rest)) (watch_of observer.old run.old None None)
        run.old.names run.new observer.new rest result }
{
    match number_of(run, instance) {
        None => miss(alloc, run, instance, export),
        Some(_) => match look_up(run, instance, export) {
            None => Ok(Turn::Lacks(at)),
            Some(target) => call(alloc, run, instance, export, target, args, observer),
        },
    }
}

// One action.
fn act<O: Observer>(
    alloc: Global,
    run: &mut Run,
    loaded: &Loaded,
    action: &Action,
    observer: &mut O,
) -> Result<Turn, OutOfMemory>
    requires ready { Ready run.old }
    requires rest { IsAtRest run.old.config.outcome }
    requires known { IsKnownAction loaded.now.names run.old.names action.now }
    requires beside { length loaded.now.modules ≡ length loaded.now.names }
    ensures { (rest : List Action) →
        TurnAnswers O.eyes (modules_loaded loaded.now) (stage_of run.old None (action.now ∷ rest)) (watch_of observer.old run.old None None)
        (run.old.names ++ made_by action.now) run.new observer.new rest result }
{
    match action {
        Action::New {
            instance,
            module,
            from,
        } => {
            let module = module_of(loaded, module.as_str());
            begin_new(
                alloc,
                run,
                instance.as_str(),
                module,
                from.as_slice(),
                observer,
            )
        }
        Action::Call {
            instance,
            export,
            at,
            args,
        } => begin_call(
            alloc,
            run,
            instance.as_str(),
            export,
            *at,
            args.as_slice(),
            observer,
        ),
    }
}

/// All actions, one after another.
pub(crate) fn act_all<O: Observer>(
    alloc: Global,
    run: &mut Run,
    loaded: &Loaded,
    actions: &[Action],
    observer: &mut O,
) -> Result<Turn, OutOfMemory>
    requires ready { Ready run.old }
    requires rest { IsAtRest run.old.config.outcome }
    requires known { AreKnown loaded.now.names run.old.names actions.now }
    requires beside { length loaded.now.modules ≡ length loaded.now.names }
    ensures { AllAnswers O.eyes (modules_loaded loaded.now) (stage_of run.old None actions.now) (watch_of observer.old run.old None None) run.new observer.new result }
{
    for action in actions {
        match act(alloc, run, loaded, action, observer) {
            Ok(Turn::Next) => {}
            Ok(Turn::Ended) => return Ok(Turn::Ended),
            Ok(Turn::Seen(n)) => return Ok(Turn::Seen(n)),
            Ok(Turn::Lacks(at)) => return Ok(Turn::Lacks(at)),
            Err(OutOfMemory) => return Err(OutOfMemory),
        }
    }
    Ok(Turn::Next)
}
