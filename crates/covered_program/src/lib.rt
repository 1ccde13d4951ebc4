//! The program over the system: [`run`] is all that the main of a program crate does.
//!
//! It passes the words of the command line and the system to [`covered_cli::covered`], whose clauses say what it does, and ends with the status
//! that this gives. The crates `covered` and `covered_refusal` run it.
#![tactic(auto)]

ghost use Rattle.std.specs.Prelude.{◌≡◌, ◌↔◌};
ghost use Rattle.std.specs.IoError.{error_kind};

use cov_host::Words;
use covered_cli::{Status, covered};
use file_host::FileHost;
use std::env;
use std::io::{self, ErrorKind, Print};
use std::process::ExitCode;
use std::rt::Runtime;

/// Does what the words of the command line say, and ends with the status of that. Warnings go to the second stream.
pub fn run<R: Runtime + AllocGlobal, E: Print + Drop>(rt: R, warnings: E) -> ExitCode {
    let alloc = rt.alloc();
    let mut words = Words::new(alloc);
    let arguments = match env::args(&rt) {
        Ok(arguments) => arguments,
        Err(error) => return ExitCode::from(refused(&error).code()),
    };
    for argument in arguments.skip(1) {
        if words.push(argument.as_str()).is_err() {
            return ExitCode::from(Status::Memory.code());
        }
    }
    let mut host = FileHost::new(rt, warnings, alloc);
    ExitCode::from(covered(alloc, &words, &mut host).code())
}

/// How the program ends where its arguments cannot be read: one is not UTF-8, or there is no memory for them.
fn refused(error: &io::Error) -> Status
    ensures { (result ≡ Status.Memory) ↔ (error_kind error.now ≡ ErrorKind.OutOfMemory) }
{
    if error.kind() == ErrorKind::OutOfMemory {
        Status::Memory
    } else {
        Status::Files
    }
}
