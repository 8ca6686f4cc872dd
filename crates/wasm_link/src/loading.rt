//! The modules that a script loads.

ghost use Rattle.std.specs.Prelude.{◌≡◌, ◌≤◌, ◌++◌, ◌∷◌, true, false, [], length, Some, OnOk};
ghost use Rattle.rw_edge.specs.Count.{NeverFalls, Faulted};
ghost use Rattle.wasm_typing.specs.faults.Faults.{Marked};
ghost use Rattle.script_text.specs.Names.{is_among};
ghost use Rattle.wasm_link.specs.Stages.{module_named};
ghost use Rattle.wasm_link.specs.words.Loads.{LongTold, DecodeTold, InvalidTold, FileOf, CheckedOf, ModuleOf, LoadOf, MoreOf, LoadsOf, AreNew, modules_loaded};

use crate::fault::LinkFault;
use binary_grammar::{DecodeFault, Decoded};
use rw_edge::{ReadFault, Shelf, read_file};
use script_text::{Load, NameTable};
use std::alloc::Global;
use wasm_binary::decode;
use wasm_syntax::{Marks, Module};
use wasm_validate::{ValidFault, ValidModule, validate};
use wasm_values::{Bytes, List, OutOfMemory};

/// The most bytes of a module file.
const MODULE_LIMIT: usize = 4_194_304;

/// Modules that are loaded, with their names.
#[derive(Drop)]
pub(crate) struct Loaded {
    pub(crate) names: NameTable,
    pub(crate) modules: List<ValidModule>,
}

/// The module of a name.
pub(crate) fn module_of<'a>(loaded: &'a Loaded, name: &str) -> &'a ValidModule
    requires among { is_among loaded.now.names name.now ≡ true }
    requires beside { length loaded.now.modules ≡ length loaded.now.names }
    ensures { module_named (modules_loaded loaded.now) name.now ≡ Some result.now }
{
    let place = loaded.names.place_of(name).unwrap();
    &loaded.modules.as_slice()[place]
}

// A file that is too long.
fn too_long(alloc: Global, load: &Load) -> LinkFault
    ensures { LongTold load.now result }
{
    match load.name.copy(alloc) {
        Ok(name) => LinkFault::TooLong(name),
        Err(_) => LinkFault::OutOfMemory,
    }
}

// Bytes that have a fault.
fn undecoded(alloc: Global, load: &Load, fault: DecodeFault) -> LinkFault
    ensures { DecodeTold load.now fault result }
{
    match fault {
        DecodeFault::OutOfMemory => LinkFault::OutOfMemory,
        _ => match load.name.copy(alloc) {
            Ok(name) => LinkFault::Decode(name, fault),
            Err(_) => LinkFault::OutOfMemory,
        },
    }
}

// A module that isn't valid.
fn invalid(alloc: Global, load: &Load, fault: ValidFault) -> LinkFault
    ensures { InvalidTold load.now fault result }
{
    match fault {
        ValidFault::OutOfMemory => LinkFault::OutOfMemory,
        _ => match load.name.copy(alloc) {
            Ok(name) => LinkFault::Invalid(name, fault),
            Err(_) => LinkFault::OutOfMemory,
        },
    }
}

// The bytes of a load's file.
fn read_load<S: Shelf>(alloc: Global, shelf: &mut S, load: &Load) -> Result<Bytes, LinkFault>
    ensures files { S.files shelf.new ≡ S.files shelf.old }
    ensures count { NeverFalls (S.faults shelf.old) (S.faults shelf.new) }
    ensures answers { FileOf (S.files shelf.old) (Faulted (S.faults shelf.old) (S.faults shelf.new)) load.now result }
{
    match read_file(alloc, shelf, load.file.as_str(), MODULE_LIMIT) {
        Ok(bytes) => Ok(bytes),
        Err(ReadFault::Failed) => Err(LinkFault::Shelf),
        Err(ReadFault::TooLong) => Err(too_long(alloc, load)),
        Err(ReadFault::OutOfMemory) => Err(LinkFault::OutOfMemory),
    }
}

// Whether a module is valid.
fn checked(
    alloc: Global,
    load: &Load,
    module: Module,
    marks: &Marks,
) -> Result<ValidModule, LinkFault>
    requires { Marked «module» marks.now }
    ensures { CheckedOf load.now «module» marks.now result }
{
    match validate(alloc, module, marks) {
        Ok(valid) => Ok(valid),
        Err(fault) => Err(invalid(alloc, load, fault)),
    }
}

// The same of a module with its marks.
fn checked_parts(alloc: Global, load: &Load, decoded: Decoded) -> Result<ValidModule, LinkFault>
    requires { Marked decoded.module decoded.marks }
    ensures { CheckedOf load.now decoded.module decoded.marks result }
{
    let Decoded { module, marks } = decoded;
    checked(alloc, load, module, &marks)
}

// The valid module that bytes spell.
fn decoded(alloc: Global, load: &Load, bytes: &[u8]) -> Result<ValidModule, LinkFault>
    ensures { ModuleOf load.now bytes.now result }
{
    match decode(alloc, bytes) {
        Ok(decoded) => checked_parts(alloc, load, decoded),
        Err(fault) => Err(undecoded(alloc, load, fault)),
    }
}

// The module of a load.
fn load_module<S: Shelf>(
    alloc: Global,
    shelf: &mut S,
    load: &Load,
) -> Result<ValidModule, LinkFault>
    ensures files { S.files shelf.new ≡ S.files shelf.old }
    ensures count { NeverFalls (S.faults shelf.old) (S.faults shelf.new) }
    ensures answers { LoadOf (S.files shelf.old) (Faulted (S.faults shelf.old) (S.faults shelf.new)) load.now result }
{
    match read_load(alloc, shelf, load) {
        Ok(bytes) => decoded(alloc, load, bytes.as_slice()),
        Err(fault) => Err(fault),
    }
}

// Adds a module with its name.
fn put(loaded: &mut Loaded, name: &str, module: ValidModule) -> Result<(), OutOfMemory>
    requires { is_among loaded.old.names name.now ≡ false }
    ensures names { OnOk result (loaded.new.names ≡ loaded.old.names ++ name.now ∷ []) }
    ensures modules { OnOk result (loaded.new.modules ≡ loaded.old.modules ++ «module» ∷ []) }
{
    loaded.modules.push(module)?;
    loaded.names.push(name)
}

// Loads one more module.
fn load_more<S: Shelf>(
    alloc: Global,
    shelf: &mut S,
    load: &Load,
    loaded: &mut Loaded,
) -> Result<(), LinkFault>
    requires { is_among loaded.old.names load.now.name ≡ false }
    ensures files { S.files shelf.new ≡ S.files shelf.old }
    ensures count { NeverFalls (S.faults shelf.old) (S.faults shelf.new) }
    ensures answers { MoreOf (S.files shelf.old) (Faulted (S.faults shelf.old) (S.faults shelf.new)) load.now loaded.old loaded.new result }
{
    match load_module(alloc, shelf, load) {
        Ok(module) => Ok(put(loaded, load.name.as_str(), module)?),
        Err(fault) => Err(fault),
    }
}

/// The modules of all loads, in their order.
pub(crate) fn load_all<S: Shelf>(
    alloc: Global,
    shelf: &mut S,
    loads: &[Load],
) -> Result<Loaded, LinkFault>
    requires { AreNew [] loads.now }
    ensures files { S.files shelf.new ≡ S.files shelf.old }
    ensures no_lower { S.faults shelf.old ≤ S.faults shelf.new }
    ensures answers { LoadsOf (S.files shelf.old) (Faulted (S.faults shelf.old) (S.faults shelf.new)) loads.now result }
{
    let mut loaded = Loaded {
        names: NameTable::new(alloc),
        modules: List::new(alloc),
    };
    for load in loads {
        match load_more(alloc, shelf, load, &mut loaded) {
            Ok(()) => {}
            Err(fault) => return Err(fault),
        }
    }
    Ok(loaded)
}
