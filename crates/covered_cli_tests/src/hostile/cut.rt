//! Files that are cut short: each front of a dump, of a source and of a database.
use crate::hostile::runs::{host_that_fails, status_of};
use crate::hostile::texts::{CONTROLLER, FIRST, SENT};
use cov_host::NoMemory;
use covered_cli::Status;
use std::alloc::Global;

const SCORE: &[&str] = &[
    "score", "-t", "ctl", "-i", "tb.dut", "-v", "ctl.v", "-vcd", "D", "-o", "B",
];

/// The status of a score of this source and dump.
fn scored(alloc: Global, source: &[u8], dump: &[u8]) -> Result<Status, NoMemory> {
    let mut host = host_that_fails(alloc, 0)?;
    host.put("ctl.v", source)?;
    host.put("D", dump)?;
    status_of(alloc, SCORE, &mut host)
}

/// The status of a report of this database.
fn reported(alloc: Global, database: &[u8]) -> Result<Status, NoMemory> {
    let mut host = host_that_fails(alloc, 0)?;
    host.put("t.db", database)?;
    status_of(alloc, &["report", "t.db"], &mut host)
}

/// A front of a dump that some run shows is shown by that run, or is no dump.
#[test]
fn no_front_of_a_dump_is_a_contradiction(rt: HostRuntime) {
    let dump = SENT.as_bytes();
    for end in 0..dump.len() {
        let status = scored(rt.alloc(), CONTROLLER.as_bytes(), &dump[..end]);
        assert!(rt;
            matches!(status, Ok(Status::Done | Status::Dump)),
            "{end} bytes"
        );
    }
}

/// The source of the module ends with `endmodule` and a line feed.
#[test]
fn each_front_of_a_source_is_refused(rt: HostRuntime) {
    let source = CONTROLLER.as_bytes();
    for end in 0..source.len().saturating_sub(1) {
        let status = scored(rt.alloc(), &source[..end], SENT.as_bytes());
        assert!(rt; matches!(status, Ok(Status::Source)), "{end} bytes");
    }
}

#[test]
fn each_front_of_a_database_is_refused(rt: HostRuntime) {
    let database = FIRST.as_bytes();
    for end in 0..database.len() {
        let status = reported(rt.alloc(), &database[..end]);
        assert!(rt; matches!(status, Ok(Status::Database)), "{end} bytes");
    }
}
