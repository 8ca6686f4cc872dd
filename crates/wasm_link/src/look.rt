//! Names that a script looks up.

ghost use Rattle.std.specs.Prelude.{◌≡◌, [], IfOk, IfSome, ◌<◌, length};
ghost use Rattle.wasm_link.specs.Stages.{live_number, are_live, export_at, export_named_by, externs_from};
ghost use Rattle.wasm_link.specs.words.{Ready, IsFound, live_of};

use crate::run::{Found, Run};
use script_text::Origin;
use std::alloc::Global;
use wasm_store::Extern;
use wasm_values::{OutOfMemory, Text};

/// The number of the live instance of a name.
pub(crate) fn number_of(run: &Run, name: &str) -> Option<u32>
    ensures { result ≡ live_number (live_of run.now) name.now }
{
    match run.names.place_of(name) {
        Some(place) => match run.numbers.as_slice().get(place) {
            Some(number) => *number,
            None => None,
        },
        None => None,
    }
}

/// Whether the instances that all these name are live.
pub(crate) fn are_live(run: &Run, from: &[Origin]) -> bool
    ensures { result ≡ are_live (live_of run.now) from.now }
{
    from.iter().all(|origin| number_of(run, origin.instance.as_str()).is_some())
}

/// What the live instance of a name exports under another.
pub(crate) fn look_up(run: &Run, instance: &str, export: &Text) -> Option<Extern>
    requires { Ready run.now }
    ensures { result ≡ export_named_by run.now.config.store (live_of run.now) instance.now export.now }
{
    match number_of(run, instance) {
        Some(number) => run.config.export_of(number, export),
        None => None,
    }
}

/// What exports stand for, or the place of the first name that its instance lacks.
pub(crate) fn externs_of(alloc: Global, run: &Run, from: &[Origin]) -> Result<Found, OutOfMemory>
    requires { Ready run.now }
    ensures { IfOk result (λ found. IsFound found (externs_from run.now.config.store (live_of run.now) [] from.now)) }
{
    let mut externs = Vec::new(alloc);
    for origin in from {
        match look_up(run, origin.instance.as_str(), &origin.export) {
            Some(extern_) => externs.push(extern_)?,
            None => return Ok(Found::Lacking(origin.at)),
        }
    }
    Ok(Found::Externs(externs))
}
