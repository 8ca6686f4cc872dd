// What each command reports.

ghost use Rattle.std.specs.Prelude.{◌≡◌, ◌≤◌, ◌⊎◌, length, Some, None, IfOk, IfSome, IsErrOf, IsSomeAnd, option_map};
ghost use Rattle.rw_edge.specs.Count.{Faulted};
ghost use Rattle.rw_edge.specs.Files.{contents_of};
ghost use Rattle.report_lines.specs.Lines.{limit_line};
ghost use Rattle.report_lines.specs.Reports.{nothing_read, seen, IsSpoken};
ghost use Rattle.verify_report.specs.Reports.{OfCheck, OfShow, OfNotes, OfVerify, OfSealedNotes, OfSeal, OfSealed, sealed_too_long, OfCommand, IsReport, command_of, OfSteps};
ghost use Rattle.verify_report.specs.Outcomes.{IsVerify, AskVerdict, texts, verified_text};
ghost use Rattle.verify_report.specs.words.Commands.{command_in};

use crate::bounds::bounded;
use crate::judge::judged;
use crate::sealed::{judged_file, sealing};
use crate::stages::{checked, shown};
use link_report::link;
use report_lines::{Report, Status, Stop, unread, word_line};
use rw_edge::{ReadFault, Shelf, read_file};
use std::alloc::Global;
use wasm_values::LimitWord;

/// The most bytes of a module file.
pub(crate) const MODULE_LIMIT: usize = 4_194_304;

/// The most bytes of a notes file.
pub(crate) const NOTES_LIMIT: usize = 16_777_216;

/// The most bytes of a sealed file.
const SEALED_LIMIT: usize = 20_971_538;

// `check MODULE`: the module file and its length, and what it says.
fn check<S: Shelf>(alloc: Global, module: &str, shelf: &mut S) -> Result<Report, Stop>
    ensures files { S.files shelf.new ≡ S.files shelf.old }
    ensures no_lower { S.faults shelf.old ≤ S.faults shelf.new }
    ensures made { IfOk result (λ r. IfSome (S.files shelf.old) (λ files. OfCheck files «module».now (seen r))) }
    ensures read { IsErrOf result Stop.Read → Faulted (S.faults shelf.old) (S.faults shelf.new)
        ⊎ IsSomeAnd (S.files shelf.old) (λ files. OfCheck files «module».now nothing_read) }
    ensures listed { IsErrOf result Stop.Words → ⊥ }
    ensures spoken { IfOk result (λ r. IsSpoken r.status) }
{
    match read_file(alloc, shelf, module, MODULE_LIMIT) {
        Ok(bytes) => Ok(checked(alloc, bytes.as_slice())?),
        Err(fault) => unread(alloc, fault, LimitWord::Module, MODULE_LIMIT),
    }
}

// `show MODULE`: the module file and its length, and its listing.
fn show<S: Shelf>(alloc: Global, module: &str, shelf: &mut S) -> Result<Report, Stop>
    ensures files { S.files shelf.new ≡ S.files shelf.old }
    ensures no_lower { S.faults shelf.old ≤ S.faults shelf.new }
    ensures made { IfOk result (λ r. IfSome (S.files shelf.old) (λ files. OfShow files «module».now (seen r))) }
    ensures read { IsErrOf result Stop.Read → Faulted (S.faults shelf.old) (S.faults shelf.new)
        ⊎ IsSomeAnd (S.files shelf.old) (λ files. OfShow files «module».now nothing_read) }
    ensures listed { IsErrOf result Stop.Words → ⊥ }
    ensures spoken { IfOk result (λ r. IsSpoken r.status) }
{
    match read_file(alloc, shelf, module, MODULE_LIMIT) {
        Ok(bytes) => Ok(shown(alloc, bytes.as_slice())?),
        Err(fault) => unread(alloc, fault, LimitWord::Module, MODULE_LIMIT),
    }
}

// `steps MODULE`: the module file and its length, and the bounds of its functions.
fn steps<S: Shelf>(alloc: Global, module: &str, shelf: &mut S) -> Result<Report, Stop>
    ensures files { S.files shelf.new ≡ S.files shelf.old }
    ensures no_lower { S.faults shelf.old ≤ S.faults shelf.new }
    ensures made { IfOk result (λ r. IfSome (S.files shelf.old) (λ files. OfSteps files «module».now (seen r))) }
    ensures read { IsErrOf result Stop.Read → Faulted (S.faults shelf.old) (S.faults shelf.new)
        ⊎ IsSomeAnd (S.files shelf.old) (λ files. OfSteps files «module».now nothing_read) }
    ensures listed { IsErrOf result Stop.Words → ⊥ }
    ensures spoken { IfOk result (λ r. IsSpoken r.status) }
{
    match read_file(alloc, shelf, module, MODULE_LIMIT) {
        Ok(bytes) => Ok(bounded(alloc, bytes.as_slice())?),
        Err(fault) => unread(alloc, fault, LimitWord::Module, MODULE_LIMIT),
    }
}

// The notes file and its length, and what it says of a module that was read.
fn with_notes<S: Shelf>(
    alloc: Global,
    bytes: &[u8],
    notes: &str,
    shelf: &mut S,
) -> Result<Report, Stop>
    ensures files { S.files shelf.new ≡ S.files shelf.old }
    ensures no_lower { S.faults shelf.old ≤ S.faults shelf.new }
    ensures made { IfOk result (λ r. IfSome (S.files shelf.old) (λ files. OfNotes bytes.now (contents_of files notes.now) (seen r))) }
    ensures verified { IfOk result (λ r. r.status ≡ Status.Good → r.text.items ≡ verified_text) }
    ensures read { IsErrOf result Stop.Read → Faulted (S.faults shelf.old) (S.faults shelf.new)
        ⊎ IsSomeAnd (S.files shelf.old) (λ files. OfNotes bytes.now (contents_of files notes.now) nothing_read) }
    ensures listed { IsErrOf result Stop.Words → ⊥ }
    ensures spoken { IfOk result (λ r. IsSpoken r.status) }
{
    match read_file(alloc, shelf, notes, NOTES_LIMIT) {
        Ok(notes) => Ok(judged(alloc, bytes, notes.as_slice())?),
        Err(fault) => unread(alloc, fault, LimitWord::Notes, NOTES_LIMIT),
    }
}

// `verify MODULE NOTES`: the module file and its length, and then the notes.
fn verify<S: Shelf>(alloc: Global, module: &str, notes: &str, shelf: &mut S) -> Result<Report, Stop>
    ensures files { S.files shelf.new ≡ S.files shelf.old }
    ensures no_lower { S.faults shelf.old ≤ S.faults shelf.new }
    ensures made { IfOk result (λ r. IfSome (S.files shelf.old) (λ files. OfVerify files «module».now notes.now (seen r))) }
    ensures verified { IfOk result (λ r. r.status ≡ Status.Good → r.text.items ≡ verified_text) }
    ensures read { IsErrOf result Stop.Read → Faulted (S.faults shelf.old) (S.faults shelf.new)
        ⊎ IsSomeAnd (S.files shelf.old) (λ files. OfVerify files «module».now notes.now nothing_read) }
    ensures listed { IsErrOf result Stop.Words → ⊥ }
    ensures spoken { IfOk result (λ r. IsSpoken r.status) }
{
    match read_file(alloc, shelf, module, MODULE_LIMIT) {
        Ok(bytes) => with_notes(alloc, bytes.as_slice(), notes, shelf),
        Err(fault) => unread(alloc, fault, LimitWord::Module, MODULE_LIMIT),
    }
}

// The notes file and its length, and a module that was read sealed with it.
fn sealed_notes<S: Shelf>(
    alloc: Global,
    bytes: &[u8],
    notes: &str,
    shelf: &mut S,
) -> Result<Report, Stop>
    requires { length bytes.now ≤ MODULE_LIMIT }
    ensures files { S.files shelf.new ≡ S.files shelf.old }
    ensures no_lower { S.faults shelf.old ≤ S.faults shelf.new }
    ensures made { IfOk result (λ r. IfSome (S.files shelf.old) (λ files. OfSealedNotes bytes.now (contents_of files notes.now) (seen r))) }
    ensures read { IsErrOf result Stop.Read → Faulted (S.faults shelf.old) (S.faults shelf.new)
        ⊎ IsSomeAnd (S.files shelf.old) (λ files. OfSealedNotes bytes.now (contents_of files notes.now) nothing_read) }
    ensures listed { IsErrOf result Stop.Words → ⊥ }
    ensures spoken { IfOk result (λ r. IsSpoken r.status) }
{
    match read_file(alloc, shelf, notes, NOTES_LIMIT) {
        Ok(notes) => Ok(sealing(alloc, bytes, notes.as_slice())?),
        Err(fault) => unread(alloc, fault, LimitWord::Notes, NOTES_LIMIT),
    }
}

// `seal MODULE NOTES`: the module file and its length, and then the notes.
fn seal<S: Shelf>(alloc: Global, module: &str, notes: &str, shelf: &mut S) -> Result<Report, Stop>
    ensures files { S.files shelf.new ≡ S.files shelf.old }
    ensures no_lower { S.faults shelf.old ≤ S.faults shelf.new }
    ensures made { IfOk result (λ r. IfSome (S.files shelf.old) (λ files. OfSeal files «module».now notes.now (seen r))) }
    ensures read { IsErrOf result Stop.Read → Faulted (S.faults shelf.old) (S.faults shelf.new)
        ⊎ IsSomeAnd (S.files shelf.old) (λ files. OfSeal files «module».now notes.now nothing_read) }
    ensures listed { IsErrOf result Stop.Words → ⊥ }
    ensures spoken { IfOk result (λ r. IsSpoken r.status) }
{
    match read_file(alloc, shelf, module, MODULE_LIMIT) {
        Ok(bytes) => sealed_notes(alloc, bytes.as_slice(), notes, shelf),
        Err(fault) => unread(alloc, fault, LimitWord::Module, MODULE_LIMIT),
    }
}

// A sealed file that was not read: too long, or another cause.
fn unread_sealed(alloc: Global, fault: ReadFault) -> Result<Report, Stop>
    ensures made { IfOk result (λ r. (fault ≡ ReadFault.TooLong) × (seen r ≡ sealed_too_long)) }
    ensures read { IsErrOf result Stop.Read → fault ≡ ReadFault.Failed }
    ensures listed { IsErrOf result Stop.Words → ⊥ }
{
    match fault {
        ReadFault::TooLong => Ok(Report {
            text: word_line(alloc, b"limit", b"sealed", SEALED_LIMIT)?,
            status: Status::Limit,
        }),
        ReadFault::Failed => Err(Stop::Read),
        ReadFault::OutOfMemory => Err(Stop::Memory),
    }
}

// `sealed FILE`: the file and its length, and what its parts say.
fn sealed<S: Shelf>(alloc: Global, file: &str, shelf: &mut S) -> Result<Report, Stop>
    ensures files { S.files shelf.new ≡ S.files shelf.old }
    ensures no_lower { S.faults shelf.old ≤ S.faults shelf.new }
    ensures made { IfOk result (λ r. IfSome (S.files shelf.old) (λ files. OfSealed files file.now (seen r))) }
    ensures verified { IfOk result (λ r. r.status ≡ Status.Good → r.text.items ≡ verified_text) }
    ensures read { IsErrOf result Stop.Read → Faulted (S.faults shelf.old) (S.faults shelf.new)
        ⊎ IsSomeAnd (S.files shelf.old) (λ files. OfSealed files file.now nothing_read) }
    ensures listed { IsErrOf result Stop.Words → ⊥ }
    ensures spoken { IfOk result (λ r. IsSpoken r.status) }
{
    match read_file(alloc, shelf, file, SEALED_LIMIT) {
        Ok(bytes) => Ok(judged_file(alloc, bytes.as_slice())?),
        Err(fault) => unread_sealed(alloc, fault),
    }
}

// What words of a listed form ask for.
#[derive(Clone, Copy)]
enum Asked<'a> {
    Check(&'a str),
    Show(&'a str),
    Steps(&'a str),
    Verify(&'a str, &'a str),
    Seal(&'a str, &'a str),
    Sealed(&'a str),
    Link(&'a str),
}

// The command that words are, if they have a listed form.
fn asked_by(words: &[String]) -> Option<Asked<'_>>
    ensures { option_map command_in result ≡ command_of (texts words.now) }
{
    match words {
        [word, module] if word.as_str() == "check" => Some(Asked::Check(module.as_str())),
        [word, module] if word.as_str() == "show" => Some(Asked::Show(module.as_str())),
        [word, module] if word.as_str() == "steps" => Some(Asked::Steps(module.as_str())),
        [word, file] if word.as_str() == "sealed" => Some(Asked::Sealed(file.as_str())),
        [word, script] if word.as_str() == "link" => Some(Asked::Link(script.as_str())),
        [word, module, notes] if word.as_str() == "verify" => {
            Some(Asked::Verify(module.as_str(), notes.as_str()))
        }
        [word, module, notes] if word.as_str() == "seal" => {
            Some(Asked::Seal(module.as_str(), notes.as_str()))
        }
        _ => None,
    }
}

// The report that a command asks for.
fn done<S: Shelf>(alloc: Global, command: Asked<'_>, shelf: &mut S) -> Result<Report, Stop>
    ensures files { S.files shelf.new ≡ S.files shelf.old }
    ensures no_lower { S.faults shelf.old ≤ S.faults shelf.new }
    ensures made { IfOk result (λ r. IfSome (S.files shelf.old) (λ files. OfCommand files (Some (command_in command.entry)) (seen r))) }
    ensures verified { IfOk result (λ r. IsVerify (command_in command.entry) → r.status ≡ Status.Good → r.text.items ≡ verified_text) }
    ensures read { IsErrOf result Stop.Read → Faulted (S.faults shelf.old) (S.faults shelf.new)
        ⊎ IsSomeAnd (S.files shelf.old) (λ files. OfCommand files (Some (command_in command.entry)) nothing_read) }
    ensures listed { IsErrOf result Stop.Words → ⊥ }
    ensures spoken { IfOk result (λ r. IsSpoken r.status) }
{
    match command {
        Asked::Check(module) => check(alloc, module, shelf),
        Asked::Show(module) => show(alloc, module, shelf),
        Asked::Steps(module) => steps(alloc, module, shelf),
        Asked::Verify(module, notes) => verify(alloc, module, notes, shelf),
        Asked::Seal(module, notes) => seal(alloc, module, notes, shelf),
        Asked::Sealed(file) => sealed(alloc, file, shelf),
        Asked::Link(script) => link(alloc, script, shelf),
    }
}

/// The report that the words ask for. It takes no memory where they have no listed form.
pub fn reported<S: Shelf>(alloc: Global, words: &Vec<String>, shelf: &mut S) -> Result<Report, Stop>
    ensures files { S.files shelf.new ≡ S.files shelf.old }
    ensures no_lower { S.faults shelf.old ≤ S.faults shelf.new }
    ensures refused { command_of (texts words.now.items) ≡ None → IsErrOf result Stop.Words }
    ensures words { IsErrOf result Stop.Words → command_of (texts words.now.items) ≡ None }
    ensures made { IfOk result (λ r. IfSome (S.files shelf.old) (λ files. IsReport (texts words.now.items) files (seen r))) }
    ensures verified { AskVerdict (texts words.now.items) → IfOk result (λ r. r.status ≡ Status.Good → r.text.items ≡ verified_text) }
    ensures read { IsErrOf result Stop.Read → Faulted (S.faults shelf.old) (S.faults shelf.new)
        ⊎ IsSomeAnd (S.files shelf.old) (λ files. IsReport (texts words.now.items) files nothing_read) }
    ensures spoken { IfOk result (λ r. IsSpoken r.status) }
{
    match asked_by(words.as_slice()) {
        Some(command) => done(alloc, command, shelf),
        None => Err(Stop::Words),
    }
}
