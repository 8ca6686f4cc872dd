ghost use Rattle.std.specs.Prelude.{◌≡◌, ◌<◌, ◌++◌, length, option_map, slice_index, IfSome, OnOk, OnErr, All, IsTrue};
ghost use Rattle.wasm_typing.specs.Valid.{ElemValid, SegmentValid};
ghost use Rattle.type_safety.specs.Stores.{StoreTyped};
ghost use Rattle.type_safety.specs.Typed.{Typed};
ghost use Rattle.wasm_sessions.specs.Instantiation.{IsAtRest, segments_fit, initialized, Starts};
ghost use Rattle.module_instances.specs.Answers.{InstantiateAnswers};
ghost use Rattle.module_instances.specs.words.Putting.{with_parts, first_outcome};

use crate::faults::InstFault;
use crate::preparing::prepare;
use crate::storing::{Parts, extend};
use std::alloc;
use wasm_reduce::Policy;
use wasm_sessions::laws::instantiations_keep_types;
use wasm_store::{Config, Extern, Outcome};
use wasm_syntax::Module;
use wasm_validate::ValidModule;
use wasm_values::{List, OutOfMemory};

/// What a run comes to before it begins: where there is no start function it is done.
fn first_outcome(alloc: alloc::Global, start: Option<u32>) -> Outcome
    ensures { result ≡ first_outcome start }
{
    match start {
        Some(_) => Outcome::Running,
        None => Outcome::Done(List::new(alloc)),
    }
}

/// Puts prepared parts into a configuration, writes the segments, and enters the start function.
fn put_in(
    alloc: alloc::Global,
    config: &mut Config,
    parts: Parts,
    module: &Module,
) -> Result<(), OutOfMemory>
    requires typed { StoreTyped (with_parts config.old.store parts) }
    requires exists { IfSome parts.start (λ a. a < length (config.old.store.funcs ++ parts.funcs)) }
    requires start { parts.start ≡ option_map (slice_index parts.instance.funcs) «module».now.start }
    requires elems { All (ElemValid «module».now) «module».now.elems }
    requires segments { All (SegmentValid «module».now) «module».now.segments }
    requires fits { IsTrue (segments_fit (with_parts config.old.store parts) parts.instance «module».now) }
    ensures ok { OnOk result (Starts (initialized (with_parts config.old.store parts) parts.instance «module».now) parts.instance «module».now.start config.new) }
    ensures err { OnErr result (config.new ≡ config.old) }
{
    let outcome = first_outcome(alloc, parts.start);
    let frames = extend(alloc, &mut config.store, parts, module)?;
    config.outcome = outcome;
    config.frames = frames;
    Ok(())
}

/// Instantiates a valid module with these externs for its imports (section 4.5.4), and answers the number of the new
/// instance. Where there is a start function it is entered, and the configuration then runs.
pub fn instantiate(
    alloc: alloc::Global,
    config: &mut Config,
    module: &ValidModule,
    externs: &Vec<Extern>,
    policy: &Policy,
) -> Result<usize, InstFault>
    requires typed { Typed config.old }
    requires at_rest { IsAtRest config.old.outcome }
    ensures answers { InstantiateAnswers policy.now config.old «module».now externs.now.items config.new result }
    ensures typed { Typed config.new }
{
    instantiations_keep_types();
    let module = module.module();
    let number = config.store.instances.len();
    let parts = prepare(alloc, &config.store, module, externs.as_slice(), policy)?;
    put_in(alloc, config, parts, module)?;
    Ok(number)
}
