//! Each call of a command on the host fails in turn, up to the first number that no call of it has.
use crate::hostile::runs::{host_that_fails, status_of};
use crate::hostile::texts::{FIRST, MERGED, REGISTER, REPORT, RISES, SECOND, STAYS};
use cov_host::NoMemory;
use covered_cli::Status;
use memory_hosts::MemoryHost;
use std::alloc::Global;

/// A command over files, and the text that it writes to the file `output`, or prints where that is `None`.
struct Command {
    words: &'static [&'static str],
    files: &'static [(&'static str, &'static str)],
    output: Option<&'static str>,
    text: &'static str,
}

/// What the file `B` contains before each command.
const OLD: &str = "old";

/// No command here makes as many calls.
const MOST_CALLS: u64 = 100;

const SCORE: &[&str] = &[
    "score", "-t", "ff", "-i", "tb.dut", "-v", "ff.v", "-vcd", "D", "-o", "B",
];

const SCORED: Command = Command {
    words: SCORE,
    files: &[("ff.v", REGISTER), ("D", RISES), ("B", OLD)],
    output: Some("B"),
    text: FIRST,
};

const JOINED: Command = Command {
    words: &["merge", "-o", "B", "t2.db", "t1.db"],
    files: &[("t1.db", FIRST), ("t2.db", SECOND), ("B", OLD)],
    output: Some("B"),
    text: MERGED,
};

const REPORTED: Command = Command {
    words: &["report", "-m", "ltcfm", "t1.db"],
    files: &[("t1.db", FIRST), ("B", OLD)],
    output: None,
    text: REPORT,
};

const REFUTED: Command = Command {
    words: SCORE,
    files: &[("ff.v", REGISTER), ("D", STAYS), ("B", OLD)],
    output: Some("B"),
    text: FIRST,
};

/// A host with the files of a command, of which the call with this number fails.
fn host_of(alloc: Global, command: &Command, call: u64) -> Result<MemoryHost, NoMemory> {
    let mut host = host_that_fails(alloc, call)?;
    for (name, text) in command.files {
        host.put(name, text.as_bytes())?;
    }
    Ok(host)
}

/// A command after the call with this number failed.
#[derive(Drop)]
struct Outcome {
    status: Status,
    host: MemoryHost,
}

fn ended(alloc: Global, command: &Command, call: u64) -> Result<Outcome, NoMemory> {
    let mut host = host_of(alloc, command, call)?;
    let status = status_of(alloc, command.words, &mut host)?;
    Ok(Outcome { status, host })
}

/// The content of a file, or nothing where there is no such file.
fn content<'a>(host: &'a MemoryHost, name: &str) -> &'a [u8] {
    host.file(name).unwrap_or(b"")
}

/// Whether the files are as they were, except that the output may contain a front of the text of the command; or a front of it
/// was printed, where the command prints it.
fn is_left(command: &Command, host: &MemoryHost) -> bool {
    let text = command.text.as_bytes();
    let is_old = content(host, "B") == OLD.as_bytes();
    match command.output {
        Some(name) => host.printed().is_empty()
            && (is_old || text.starts_with(content(host, name))),
        None => is_old && text.starts_with(host.printed()),
    }
}

/// Whether the command has written its whole text.
fn is_whole(command: &Command, host: &MemoryHost) -> bool {
    match command.output {
        Some(name) => content(host, name) == command.text.as_bytes(),
        None => host.printed() == command.text.as_bytes(),
    }
}

/// How many calls of a command fail with status 5 and with the files as they may be, up to the first number that no call has, with
/// which the command writes its whole text; `None` where a call ends otherwise. `named` is the line that is counted.
fn failures(alloc: Global, command: &Command, named: &str) -> Option<(u64, u64)> {
    let mut lines = 0;
    for call in 1..MOST_CALLS {
        let Ok(end) = ended(alloc, command, call) else {
            return None;
        };
        if end.status == Status::Done {
            return if is_whole(command, &end.host) {
                Some((call - 1, lines))
            } else {
                None
            };
        }
        if end.status != Status::Files || !is_left(command, &end.host) {
            return None;
        }
        if end.host.warned() == named.as_bytes() {
            lines = lines.saturating_add(1);
        }
    }
    None
}

#[test]
fn each_failing_call_of_a_score_ends_it(rt: HostRuntime) {
    let found = failures(rt.alloc(), &SCORED, "covered: files: open_read D\n");
    assert!(rt; found.is_some_and(|(calls, lines)| calls > 6 && lines == 1));
}

#[test]
fn each_failing_call_of_a_merge_ends_it(rt: HostRuntime) {
    let found = failures(rt.alloc(), &JOINED, "covered: files: open_read t1.db\n");
    assert!(rt; found.is_some_and(|(calls, lines)| calls > 6 && lines == 1));
}

#[test]
fn each_failing_call_of_a_report_ends_it(rt: HostRuntime) {
    let found = failures(rt.alloc(), &REPORTED, "covered: files: print -\n");
    assert!(rt; found.is_some_and(|(calls, lines)| calls > 3 && lines > 0));
}

/// The line of the dump that no run shows.
const CONTRADICTION: &str = "covered: contradiction: ff.q at 5: dumped 0, computed 1\n";

/// Whether the output is as it was, and a front of the line was warned.
fn is_refuted(host: &MemoryHost) -> bool {
    CONTRADICTION.as_bytes().starts_with(host.warned()) && content(host, "B") == OLD.as_bytes()
}

/// How many calls of a refuted score fail, the last of which is one that warns; `None` where a call ends otherwise.
fn failures_of_refuted(alloc: Global) -> Option<u64> {
    for call in 1..MOST_CALLS {
        let Ok(end) = ended(alloc, &REFUTED, call) else {
            return None;
        };
        if end.status == Status::Contradiction && end.host.warned() == CONTRADICTION.as_bytes() {
            return Some(call - 1);
        }
        let is_warning = end.status == Status::Contradiction && is_refuted(&end.host);
        if !is_warning && end.status != Status::Files {
            return None;
        }
    }
    None
}

/// Where the warning fails, the status is 4 as well.
#[test]
fn a_refused_warning_leaves_the_status(rt: HostRuntime) {
    let calls = failures_of_refuted(rt.alloc()).unwrap_or(0);
    let last = ended(rt.alloc(), &REFUTED, calls);
    assert!(rt; calls > 6);
    assert!(rt; last.is_ok_and(|end| end.status == Status::Contradiction && is_refuted(&end.host)));
}
