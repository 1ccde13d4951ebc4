//! A stored run of the program that ends with a status above 0, whose line goes to the standard error alone.
#![tactic(auto)]

use covered_program::run;
use std::process::ExitCode;

fn main(rt: HostRuntime) -> ExitCode {
    let warnings = rt.stderr();
    run(rt, warnings)
}
