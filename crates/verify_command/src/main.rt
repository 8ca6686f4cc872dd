//! The verifier: `verify MODULE NOTES` says whether the notes are an accepted proof outline of the module, `check MODULE`
//! whether a module is valid, `show MODULE` lists it, and `steps MODULE` bounds the steps of its functions. `seal MODULE NOTES`
//! writes one file of the two where they verify, and `sealed FILE` verifies such a file. `link SCRIPT` links modules and runs them.
#![tactic(auto)]

#[cfg(test)]
mod cases;
mod run;
#[cfg(test)]
mod tests;

use rw_edge::{DirShelf, StdSink};
use std::process::ExitCode;
use std::{env, io};

/// What the program ends with where its arguments can't be had.
fn without_arguments(error: io::Error) -> ExitCode {
    if error.kind() == io::ErrorKind::OutOfMemory {
        ExitCode::from(5)
    } else {
        ExitCode::from(7)
    }
}

fn main(rt: HostRuntime) -> ExitCode {
    let mut words = Vec::new(rt.alloc());
    let arguments = match env::args(&rt) {
        Ok(arguments) => arguments,
        Err(error) => return without_arguments(error),
    };
    for word in arguments.skip(1) {
        if words.push(word).is_err() {
            return ExitCode::from(5);
        }
    }
    let mut shelf = DirShelf::new(&rt);
    let mut sink = StdSink::new(&rt);
    let status = run::run(rt.alloc(), &words, &mut shelf, &mut sink);
    ExitCode::from(status.code())
}
