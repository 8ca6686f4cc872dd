// What `link` reports.

ghost use Rattle.std.specs.Prelude.{◌≡◌, ◌≤◌, ◌⊎◌, IfOk, IfSome, IsErrOf, IsSomeAnd};
ghost use Rattle.rw_edge.specs.Count.{Faulted};
ghost use Rattle.wasm_link.specs.Answers.{IsSpelled};
ghost use Rattle.report_lines.specs.Reports.{IsSpoken, nothing_read, seen};
ghost use Rattle.link_report.specs.Links.{OfRun, OfScript, OfLink, log_report};

use crate::said::{refused, unread_script};
use report_lines::{Report, Status, Stop, unread};
use rw_edge::{Shelf, read_file};
use std::alloc::Global;
use wasm_link::{Log, Script, read_script, run_script};
use wasm_values::LimitWord;

/// The most bytes of a script file.
const SCRIPT_LIMIT: usize = 1_048_576;

// The log of a script.
fn logged(log: Log) -> Report
    ensures { seen result ≡ log_report log.text }
{
    Report {
        text: log.text.into_vec(),
        status: Status::Good,
    }
}

// What a script comes to.
fn run<S: Shelf>(alloc: Global, script: &Script, shelf: &mut S) -> Result<Report, Stop>
    requires { IsSpelled script.now }
    ensures files { S.files shelf.new ≡ S.files shelf.old }
    ensures no_lower { S.faults shelf.old ≤ S.faults shelf.new }
    ensures made { IfOk result (λ r. IfSome (S.files shelf.old) (λ files. OfRun files script.now (seen r))) }
    ensures read { IsErrOf result Stop.Read → Faulted (S.faults shelf.old) (S.faults shelf.new)
        ⊎ IsSomeAnd (S.files shelf.old) (λ files. OfRun files script.now nothing_read) }
    ensures listed { IsErrOf result Stop.Words → ⊥ }
    ensures spoken { IfOk result (λ r. IsSpoken r.status) }
{
    match run_script(alloc, shelf, script) {
        Ok(log) => Ok(logged(log)),
        Err(fault) => refused(alloc, fault),
    }
}

// What the script that a text spells comes to, or the text's fault.
fn scripted<S: Shelf>(alloc: Global, text: &[u8], shelf: &mut S) -> Result<Report, Stop>
    ensures files { S.files shelf.new ≡ S.files shelf.old }
    ensures no_lower { S.faults shelf.old ≤ S.faults shelf.new }
    ensures made { IfOk result (λ r. IfSome (S.files shelf.old) (λ files. OfScript files text.now (seen r))) }
    ensures read { IsErrOf result Stop.Read → Faulted (S.faults shelf.old) (S.faults shelf.new)
        ⊎ IsSomeAnd (S.files shelf.old) (λ files. OfScript files text.now nothing_read) }
    ensures listed { IsErrOf result Stop.Words → ⊥ }
    ensures spoken { IfOk result (λ r. IsSpoken r.status) }
{
    match read_script(alloc, text) {
        Ok(script) => run(alloc, &script, shelf),
        Err(fault) => unread_script(alloc, fault),
    }
}

/// `link SCRIPT`: the script file and its length, what it says, and then its log, or why there is none.
pub fn link<S: Shelf>(alloc: Global, script: &str, shelf: &mut S) -> Result<Report, Stop>
    ensures files { S.files shelf.new ≡ S.files shelf.old }
    ensures no_lower { S.faults shelf.old ≤ S.faults shelf.new }
    ensures made { IfOk result (λ r. IfSome (S.files shelf.old) (λ files. OfLink files script.now (seen r))) }
    ensures read { IsErrOf result Stop.Read → Faulted (S.faults shelf.old) (S.faults shelf.new)
        ⊎ IsSomeAnd (S.files shelf.old) (λ files. OfLink files script.now nothing_read) }
    ensures listed { IsErrOf result Stop.Words → ⊥ }
    ensures spoken { IfOk result (λ r. IsSpoken r.status) }
{
    match read_file(alloc, shelf, script, SCRIPT_LIMIT) {
        Ok(text) => scripted(alloc, text.as_slice(), shelf),
        Err(fault) => unread(alloc, fault, LimitWord::Script, SCRIPT_LIMIT),
    }
}
