//! The commands over files in memory.
use crate::words::{merge_of, report_of, words_of};
use cov_host::{Calls, NoMemory, Words};
use coverage_db::DbKind;
use database_commands::{CommandFault, run_merge, run_report};
use memory_hosts::MemoryHost;
use std::alloc::Global;

/// A table of a register.
const FIRST: &[u8] =
    b"covered-db 2\ntop ff\nsource 1 ff.v\ninstance ff ff\npoints 4\nl ff 1 1:3 if = hit\nl ff 2 1:3 assign = hit\nl ff 3 1:3 assign = missed\nt ff a - 10 = missed\nwindows 1\nwindow 0 10\nend\n";

/// The same of another run.
const SECOND: &[u8] =
    b"covered-db 2\ntop ff\nsource 1 ff.v\ninstance ff ff\npoints 4\nl ff 1 1:3 if = hit\nl ff 2 1:3 assign = ? 5 ff.a\nl ff 3 1:3 assign = ? 5 ff.a\nt ff a - 10 = hit\nwindows 1\nwindow 20 30\nend\n";

/// Their merge.
const MERGED: &[u8] =
    b"covered-db 2\ntop ff\nsource 1 ff.v\ninstance ff ff\npoints 4\nl ff 1 1:3 if = hit\nl ff 2 1:3 assign = hit\nl ff 3 1:3 assign = ? 5 ff.a\nt ff a - 10 = hit\nwindows 2\nwindow 0 10\nwindow 20 30\nend\n";

/// A table of another design.
const OTHER: &[u8] = b"covered-db 1\ntop ffr\nsource 1 ffr.v\ninstance ffr ffr\npoints 0\nend\n";

/// The report of the first table, with the points that are not hit.
const REPORT: &[u8] =
    b"covered report 1\ntop ff\nmodule ff\nmetric       hit  missed   undet   pct\nline           2       1       0   66%\ntoggle         0       1       0    0%\nmissed: l 3 1:3 assign\nmissed: t a - 10\nall            2       2       0   50%\n";

/// A host with the tables.
fn host_with_tables(alloc: Global) -> Result<MemoryHost, NoMemory> {
    let mut host = MemoryHost::new(alloc, Calls::new(alloc))?;
    host.put("first.db", FIRST)?;
    host.put("second.db", SECOND)?;
    host.put("other.db", OTHER)?;
    host.put("cut.db", b"covered-db 1\ntop ff\n")?;
    Ok(host)
}

/// Whether the file is this text.
fn is_file(host: &MemoryHost, name: &str, text: &[u8]) -> bool {
    match host.file(name) {
        Some(bytes) => bytes == text,
        None => false,
    }
}

/// Merges what the words name, and says whether it was done.
fn is_merged(alloc: Global, words: &Words, host: &mut MemoryHost) -> bool {
    match merge_of(words) {
        Some(merge) => run_merge(alloc, &merge, host).is_ok(),
        None => false,
    }
}

/// Reports what the words name, and says whether it was done.
fn is_reported(alloc: Global, words: &Words, host: &mut MemoryHost) -> bool {
    match report_of(words) {
        Some(report) => run_report(alloc, &report, host).is_ok(),
        None => false,
    }
}

fn merges(alloc: Global, texts: &[&str]) -> bool {
    match (words_of(alloc, texts), host_with_tables(alloc)) {
        (Ok(words), Ok(mut host)) => {
            is_merged(alloc, &words, &mut host)
                && is_file(&host, "m.db", MERGED)
                && host.printed().is_empty()
        }
        _ => false,
    }
}

#[test]
fn merges_in_any_order(rt: HostRuntime) {
    assert!(rt;
        merges(
            rt.alloc(),
            &["merge", "-o", "m.db", "first.db", "second.db"]
        )
    );
    assert!(rt;
        merges(
            rt.alloc(),
            &["merge", "second.db", "first.db", "-o", "m.db"]
        )
    );
}

/// A report is printed, or written to a file and not printed.
fn reports(alloc: Global, texts: &[&str], printed: &[u8], written: &[u8]) -> bool {
    match (words_of(alloc, texts), host_with_tables(alloc)) {
        (Ok(words), Ok(mut host)) => {
            is_reported(alloc, &words, &mut host)
                && host.printed() == printed
                && host.file("R").unwrap_or(b"") == written
        }
        _ => false,
    }
}

#[test]
fn prints_a_report_or_writes_it(rt: HostRuntime) {
    let printed = ["report", "-m", "tl", "-d", "d", "first.db"];
    assert!(rt; reports(rt.alloc(), &printed, REPORT, b""));
    let written = ["report", "-o", "R", "-m", "tl", "-d", "d", "first.db"];
    assert!(rt; reports(rt.alloc(), &written, b"", REPORT));
}

/// Whether the second file is another design.
fn is_difference(fault: CommandFault<'_>) -> bool {
    match fault {
        CommandFault::DesignsDiffer {
            file,
            line,
            first,
            other,
        } => {
            file == "other.db"
                && line == 2
                && first.as_slice() == b"top ff".as_slice()
                && other.as_slice() == b"top ffr".as_slice()
        }
        _ => false,
    }
}

/// Whether the second file is no database from its third line on.
fn is_cut(fault: CommandFault<'_>) -> bool {
    match fault {
        CommandFault::NoDatabase { file, kind, line } => {
            file == "cut.db" && kind == DbKind::BadLine && line == Some(3)
        }
        _ => false,
    }
}

/// Whether the merge that the words ask for has a fault of this kind.
fn refuses(alloc: Global, words: &Words, cut: bool) -> bool {
    let (Some(merge), Ok(mut host)) = (merge_of(words), host_with_tables(alloc)) else {
        return false;
    };
    match run_merge(alloc, &merge, &mut host) {
        Ok(()) => false,
        Err(fault) => if cut {
            is_cut(fault)
        } else {
            is_difference(fault)
        },
    }
}

/// Whether these words are refused so.
fn refuses_words(alloc: Global, texts: &[&str], cut: bool) -> bool {
    match words_of(alloc, texts) {
        Ok(words) => refuses(alloc, &words, cut),
        Err(_) => false,
    }
}

#[test]
fn the_first_fault_is_reported(rt: HostRuntime) {
    let other = ["merge", "-o", "m.db", "first.db", "other.db", "cut.db"];
    assert!(rt; refuses_words(rt.alloc(), &other, false));
    let cut = ["merge", "-o", "m.db", "first.db", "cut.db", "other.db"];
    assert!(rt; refuses_words(rt.alloc(), &cut, true));
}
