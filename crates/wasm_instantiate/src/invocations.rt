ghost use Rattle.std.specs.Prelude.{◌≡◌, ℕ, ◌<◌, ◌∷◌, [], length, map, slice_get, Some, IfOk, OnOk, OnErr};
ghost use Rattle.wasm_store.specs.declared.store.FuncInst.{FuncInst};
ghost use Rattle.wasm_store.specs.Configuration.{Layer};
ghost use Rattle.type_safety.specs.Shapes.{shape_of, ExternExists};
ghost use Rattle.type_safety.specs.Typed.{Typed};
ghost use Rattle.wasm_store.specs.Control.{IsFrameOf};
ghost use Rattle.wasm_sessions.specs.Instantiation.{IsAtRest, alone};
ghost use Rattle.wasm_instantiate.specs.Answers.{InvokeAnswers, EntersAlone};

use crate::faults::InvFault;
use crate::typing::{have_types, type_at};
use std::alloc::Global;
use wasm_sessions::laws::invocations_keep_types;
use wasm_store::{Config, Extern, Outcome, make_frame};
use wasm_values::{List, OutOfMemory, Val};

/// Enters the function at an address with these arguments, as the only frame.
fn enter_alone(
    alloc: Global,
    config: &mut Config,
    address: u32,
    args: List<Val>,
) -> Result<(), OutOfMemory>
    requires typed { Typed config.old }
    requires exists { address < length config.old.store.funcs }
    ensures ok { OnOk result (EntersAlone config.old address args config.new) }
    ensures err { OnErr result (config.new ≡ config.old) }
{
    let frame = make_frame(alloc, &config.store, address, args)?;
    let mut frames = List::new(alloc);
    frames.push(frame)?;
    config.frames = frames;
    config.outcome = Outcome::Running;
    Ok(())
}

/// Enters the function that an extern names, with these arguments, as the only frame (section 4.5.5). For a host's function
/// this is a host's frame.
pub fn invoke(
    alloc: Global,
    config: &mut Config,
    target: &Extern,
    args: &Vec<Val>,
) -> Result<(), InvFault>
    requires typed { Typed config.old }
    requires at_rest { IsAtRest config.old.outcome }
    requires exists { ExternExists (shape_of config.old.store) target.now }
    ensures answers { InvokeAnswers config.old target.now args.now.items config.new result }
    ensures typed { Typed config.new }
{
    invocations_keep_types();
    match target {
        Extern::Func(address) => {
            let ty = type_at(&config.store, *address);
            if !have_types(args.as_slice(), ty.params.as_slice()) {
                return Err(InvFault::Arguments);
            }
            let args = List::from_vec(Vec::from_slice(alloc, args.as_slice())?);
            enter_alone(alloc, config, *address, args)?;
            Ok(())
        }
        _ => Err(InvFault::NotFunction),
    }
}
