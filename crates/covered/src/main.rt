//! `covered`: verified code coverage for Verilog from value change dumps.
//!
//! What it does is in [`covered_program::run`]. Its stored run makes a design and a dump,
//! scores them and prints the counts.
#![tactic(auto)]

use covered_program::run;
use std::process::ExitCode;

fn main(rt: HostRuntime) -> ExitCode {
    let warnings = rt.stderr();
    run(rt, warnings)
}
