//! Points excluded and restored in files in memory, and what is reported where one is refused.
use crate::words::words_of;
use command_line::{Command, read_command};
use cov_host::{Calls, NoMemory, Words};
use coverage_db::DbKind;
use database_commands::{CommandFault, run_exclude, run_report, run_restore};
use db_tools::ToolFault;
use memory_hosts::MemoryHost;
use std::alloc::Global;

/// A table of a register.
const PLAIN: &[u8] =
    b"covered-db 2\ntop ff\nsource 1 ff.v\ninstance ff ff\npoints 4\nl ff 1 1:3 if = hit\nl ff 10 1:3 assign = missed\nt ff a - 10 = missed\nt ff clk - 10 = hit\nwindows 0\nend\n";

/// The table in a text of version 1.
const OLDER: &[u8] =
    b"covered-db 1\ntop ff\nsource 1 ff.v\ninstance ff ff\npoints 4\nl ff 1 1:3 if = hit\nl ff 10 1:3 assign = missed\nt ff a - 10 = missed\nt ff clk - 10 = hit\nend\n";

/// The table with two points excluded.
const TWO: &[u8] =
    b"covered-ex 1\nexcluded 2\nl ff 10 1:3 assign\nt ff clk - 10\ncovered-db 2\ntop ff\nsource 1 ff.v\ninstance ff ff\npoints 4\nl ff 1 1:3 if = hit\nl ff 10 1:3 assign = missed\nt ff a - 10 = missed\nt ff clk - 10 = hit\nwindows 0\nend\n";

/// The report of the points that are left.
const REPORT: &[u8] =
    b"covered report 1\ntop ff\nmodule ff\nmetric       hit  missed   undet   pct\nline           1       0       0  100%\ntoggle         0       1       0    0%\nall            1       1       0   50%\n";

/// A host with the tables.
fn host_with_tables(alloc: Global) -> Result<MemoryHost, NoMemory> {
    let mut host = MemoryHost::new(alloc, Calls::new(alloc))?;
    host.put("plain.db", PLAIN)?;
    host.put("older.db", OLDER)?;
    host.put("two.db", TWO)?;
    host.put(
        "inner.db",
        b"covered-ex 1\nexcluded 1\nt ff clk - 10\ncovered-db 1\ntop ff\n",
    )?;
    Ok(host)
}

/// How a command ends.
#[derive(Clone, Copy)]
enum End {
    /// The output is this text.
    Written(&'static [u8]),
    /// This text is printed.
    Printed(&'static [u8]),
    /// This point of the file is refused.
    Refused(ToolFault, &'static str),
    /// The line with this number does not fit.
    Bad(u32),
}

/// Whether the command ended so, with these bytes of the output and these printed.
fn is_end(
    ended: Result<(), CommandFault<'_>>,
    output: Option<&[u8]>,
    printed: &[u8],
    end: End,
) -> bool {
    match (ended, end) {
        (Ok(()), End::Written(text)) => output.unwrap_or(b"") == text && printed.is_empty(),
        (Ok(()), End::Printed(text)) => output.is_none() && printed == text,
        (
            Err(
                CommandFault::Point {
                    file: _,
                    fault,
                    address,
                },
            ),
            End::Refused(wanted, name),
        ) => fault == wanted && address == name && output.is_none() && printed.is_empty(),
        (
            Err(
                CommandFault::NoDatabase {
                    file: _,
                    kind,
                    line,
                },
            ),
            End::Bad(number),
        ) => {
            kind == DbKind::BadLine
                && line == Some(number)
                && output.is_none()
                && printed.is_empty()
        }
        _ => false,
    }
}

/// Whether the command that the words ask for ends so.
fn ends_so(alloc: Global, words: &Words, end: End) -> bool {
    let (Ok(command), Ok(mut host)) = (read_command(words), host_with_tables(alloc)) else {
        return false;
    };
    let ended = match command {
        Command::Exclude(points) => run_exclude(alloc, &points, &mut host),
        Command::Restore(points) => run_restore(alloc, &points, &mut host),
        Command::Report(report) => run_report(alloc, &report, &mut host),
        _ => return false,
    };
    is_end(ended, host.file("e.db"), host.printed(), end)
}

fn ends(alloc: Global, texts: &[&str], end: End) -> bool {
    match words_of(alloc, texts) {
        Ok(words) => ends_so(alloc, &words, end),
        Err(NoMemory) => false,
    }
}

#[test]
fn points_are_excluded_in_any_order(rt: HostRuntime) {
    let (line, toggle) = ("l ff 10 1:3 assign", "t ff clk - 10");
    let plain = [
        "exclude", "-o", "e.db", "-point", toggle, "-point", line, "plain.db",
    ];
    assert!(rt; ends(rt.alloc(), &plain, End::Written(TWO)));
    let older = [
        "exclude", "-point", line, "-point", toggle, "older.db", "-o", "e.db",
    ];
    assert!(rt; ends(rt.alloc(), &older, End::Written(TWO)));
}

#[test]
fn points_are_restored_in_any_order(rt: HostRuntime) {
    let (line, toggle) = ("l ff 10 1:3 assign", "t ff clk - 10");
    let both = [
        "restore", "-o", "e.db", "-point", toggle, "-point", line, "two.db",
    ];
    assert!(rt; ends(rt.alloc(), &both, End::Written(PLAIN)));
}

#[test]
fn excluded_points_are_not_reported(rt: HostRuntime) {
    let words = ["report", "-m", "lt", "two.db"];
    assert!(rt; ends(rt.alloc(), &words, End::Printed(REPORT)));
}

#[test]
fn refused_points_are_named(rt: HostRuntime) {
    let none = ["exclude", "-o", "e.db", "-point", "t ff z - 01", "plain.db"];
    assert!(rt;
        ends(
            rt.alloc(),
            &none,
            End::Refused(ToolFault::NoPoint, "t ff z - 01")
        )
    );
    let out = ["exclude", "-o", "e.db", "-point", "t ff clk - 10", "two.db"];
    assert!(rt;
        ends(
            rt.alloc(),
            &out,
            End::Refused(ToolFault::AlreadyOut, "t ff clk - 10")
        )
    );
    let not_out = ["restore", "-o", "e.db", "-point", "t ff a - 10", "two.db"];
    assert!(rt;
        ends(
            rt.alloc(),
            &not_out,
            End::Refused(ToolFault::NotOut, "t ff a - 10")
        )
    );
    let inner = [
        "restore",
        "-o",
        "e.db",
        "-point",
        "t ff clk - 10",
        "inner.db",
    ];
    assert!(rt; ends(rt.alloc(), &inner, End::Bad(4)));
}
