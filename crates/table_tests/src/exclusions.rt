//! Tests of tables of which some points are excluded: what is read and written of them, and each refusal.

use coverage_db::{DbFault, DbKind, write_db};
use db_tools::{Excluded, ToolFault, read_excluded, visible, write_excluded};
use std::alloc::Global;

/// A table of seven points.
const PLAIN: &[u8] =
    b"covered-db 2\ntop ff\nsource 1 ff.v\ninstance ff ff\npoints 7\nl ff 2 1:3 assign = hit\nl ff 10 1:3 assign = missed\nc ff 1 1:3 value 1 = ? 5 ff.a\nt ff a - 01 = missed\nt ff clk - 01 = hit\nt ff clk - 10 = missed\nm ff r 3 w = hit\nwindows 1\nwindow 0 40\nend\n";

/// The table in a text of version 1, which has no windows.
const OLDER: &[u8] =
    b"covered-db 1\ntop ff\nsource 1 ff.v\ninstance ff ff\npoints 7\nl ff 2 1:3 assign = hit\nl ff 10 1:3 assign = missed\nc ff 1 1:3 value 1 = ? 5 ff.a\nt ff a - 01 = missed\nt ff clk - 01 = hit\nt ff clk - 10 = missed\nm ff r 3 w = hit\nend\n";

/// The table of the older text in one of the newest version.
const NEWER: &[u8] =
    b"covered-db 2\ntop ff\nsource 1 ff.v\ninstance ff ff\npoints 7\nl ff 2 1:3 assign = hit\nl ff 10 1:3 assign = missed\nc ff 1 1:3 value 1 = ? 5 ff.a\nt ff a - 01 = missed\nt ff clk - 01 = hit\nt ff clk - 10 = missed\nm ff r 3 w = hit\nwindows 0\nend\n";

/// The table with one point excluded.
const ONE: &[u8] =
    b"covered-ex 1\nexcluded 1\nt ff clk - 10\ncovered-db 2\ntop ff\nsource 1 ff.v\ninstance ff ff\npoints 7\nl ff 2 1:3 assign = hit\nl ff 10 1:3 assign = missed\nc ff 1 1:3 value 1 = ? 5 ff.a\nt ff a - 01 = missed\nt ff clk - 01 = hit\nt ff clk - 10 = missed\nm ff r 3 w = hit\nwindows 1\nwindow 0 40\nend\n";

/// The table with two points excluded.
const TWO: &[u8] =
    b"covered-ex 1\nexcluded 2\nl ff 10 1:3 assign\nt ff clk - 10\ncovered-db 2\ntop ff\nsource 1 ff.v\ninstance ff ff\npoints 7\nl ff 2 1:3 assign = hit\nl ff 10 1:3 assign = missed\nc ff 1 1:3 value 1 = ? 5 ff.a\nt ff a - 01 = missed\nt ff clk - 01 = hit\nt ff clk - 10 = missed\nm ff r 3 w = hit\nwindows 1\nwindow 0 40\nend\n";

/// The table without the two points.
const SEEN: &[u8] =
    b"covered-db 2\ntop ff\nsource 1 ff.v\ninstance ff ff\npoints 5\nl ff 2 1:3 assign = hit\nc ff 1 1:3 value 1 = ? 5 ff.a\nt ff a - 01 = missed\nt ff clk - 01 = hit\nm ff r 3 w = hit\nwindows 1\nwindow 0 40\nend\n";

fn is_written(alloc: Global, excluded: &Excluded, wanted: &[u8]) -> bool {
    match write_excluded(alloc, excluded) {
        Ok(text) => text.as_slice() == wanted,
        Err(_) => false,
    }
}

/// Whether the text is read and written so.
fn is_read_as(alloc: Global, text: &[u8], wanted: &[u8]) -> bool {
    match read_excluded(alloc, text) {
        Ok(excluded) => is_written(alloc, &excluded, wanted),
        Err(_) => false,
    }
}

/// Whether the text is read and written again.
fn is_kept(alloc: Global, text: &[u8]) -> bool {
    is_read_as(alloc, text, text)
}

/// Whether the text is refused, with this fault in this line.
fn is_refused(alloc: Global, text: &[u8], kind: DbKind, line: u32) -> bool {
    match read_excluded(alloc, text) {
        Ok(_) => false,
        Err(fault) => {
            fault
                == DbFault::At {
                    kind,
                    line: Some(line),
                }
        }
    }
}

#[test]
fn texts_are_kept(rt: HostRuntime) {
    assert!(rt; is_kept(rt.alloc(), PLAIN));
    assert!(rt; is_kept(rt.alloc(), ONE));
    assert!(rt; is_kept(rt.alloc(), TWO));
}

#[test]
fn plain_texts_of_version_one_are_read(rt: HostRuntime) {
    assert!(rt; is_read_as(rt.alloc(), OLDER, NEWER));
}

/// Excludes two points, the later one first, and restores them.
fn excluded_and_restored(alloc: Global) -> Result<bool, DbFault> {
    let mut excluded = read_excluded(alloc, PLAIN)?;
    let first = excluded.exclude("t ff clk - 10").is_ok();
    let one = is_written(alloc, &excluded, ONE);
    let second = excluded.exclude("l ff 10 1:3 assign").is_ok();
    let two = is_written(alloc, &excluded, TWO);
    let back = excluded.restore("t ff clk - 10").is_ok();
    let last = excluded.restore("l ff 10 1:3 assign").is_ok();
    let plain = is_written(alloc, &excluded, PLAIN);
    Ok(first && one && second && two && back && last && plain)
}

#[test]
fn points_are_excluded_and_restored(rt: HostRuntime) {
    assert!(rt; excluded_and_restored(rt.alloc()).unwrap_or(false));
}

/// The answers to a point that is not there, one that is excluded, and one that is not.
fn answers(alloc: Global) -> Result<bool, DbFault> {
    let mut excluded = read_excluded(alloc, TWO)?;
    let no_point = excluded.exclude("t ff z - 01") == Err(ToolFault::NoPoint);
    let again = excluded.exclude("t ff clk - 10") == Err(ToolFault::AlreadyOut);
    let no_such = excluded.restore("t ff z - 01") == Err(ToolFault::NoPoint);
    let not_out = excluded.restore("t ff a - 01") == Err(ToolFault::NotOut);
    let longer = excluded.restore("t ff clk - 10 ") == Err(ToolFault::NoPoint);
    Ok(no_point && again && no_such && not_out && longer && is_written(alloc, &excluded, TWO))
}

#[test]
fn refusals_change_nothing(rt: HostRuntime) {
    assert!(rt; answers(rt.alloc()).unwrap_or(false));
}

fn seen(alloc: Global, text: &[u8], wanted: &[u8]) -> bool {
    match read_excluded(alloc, text) {
        Ok(excluded) => is_seen(alloc, &excluded, wanted),
        Err(_) => false,
    }
}

fn is_seen(alloc: Global, excluded: &Excluded, wanted: &[u8]) -> bool {
    match visible(alloc, excluded) {
        Ok(db) => match write_db(alloc, &db) {
            Ok(text) => text.as_slice() == wanted,
            Err(_) => false,
        },
        Err(_) => false,
    }
}

#[test]
fn excluded_points_are_not_visible(rt: HostRuntime) {
    assert!(rt; seen(rt.alloc(), TWO, SEEN));
    assert!(rt; seen(rt.alloc(), PLAIN, PLAIN));
}

/// The faults of the lines before a table.
#[test]
fn faults_before_a_table_have_their_lines(rt: HostRuntime) {
    assert!(rt;
        is_refused(
            rt.alloc(),
            b"covered-ex 2\nexcluded 2\nl ff 10 1:3 assign\nt ff clk - 10\ncovered-db 2\ntop ff\nsource 1 ff.v\ninstance ff ff\npoints 7\nl ff 2 1:3 assign = hit\nl ff 10 1:3 assign = missed\nc ff 1 1:3 value 1 = ? 5 ff.a\nt ff a - 01 = missed\nt ff clk - 01 = hit\nt ff clk - 10 = missed\nm ff r 3 w = hit\nwindows 1\nwindow 0 40\nend\n",
            DbKind::WrongVersion,
            1
        )
    );
    assert!(rt;
        is_refused(
            rt.alloc(),
            b"covered-ex 1\nexcluded 3\nl ff 10 1:3 assign\nt ff clk - 10\ncovered-db 2\ntop ff\nsource 1 ff.v\ninstance ff ff\npoints 7\nl ff 2 1:3 assign = hit\nl ff 10 1:3 assign = missed\nc ff 1 1:3 value 1 = ? 5 ff.a\nt ff a - 01 = missed\nt ff clk - 01 = hit\nt ff clk - 10 = missed\nm ff r 3 w = hit\nwindows 1\nwindow 0 40\nend\n",
            DbKind::WrongCount,
            2
        )
    );
    assert!(rt;
        is_refused(
            rt.alloc(),
            b"covered-ex 1\nexcluded 2\nl ff 10 1:3 assign\nt ff clk - 10\ncovered-db 2\ntop ff\nsource 1 ff.v\ninstance ff ff\npoints 8\nl ff 2 1:3 assign = hit\nl ff 10 1:3 assign = missed\nc ff 1 1:3 value 1 = ? 5 ff.a\nt ff a - 01 = missed\nt ff clk - 01 = hit\nt ff clk - 10 = missed\nm ff r 3 w = hit\nwindows 1\nwindow 0 40\nend\n",
            DbKind::WrongCount,
            9
        )
    );
    assert!(rt;
        is_refused(
            rt.alloc(),
            b"covered-ex 1\nexcluded 0\ncovered-db 2\ntop ff\nsource 1 ff.v\ninstance ff ff\npoints 7\nl ff 2 1:3 assign = hit\nl ff 10 1:3 assign = missed\nc ff 1 1:3 value 1 = ? 5 ff.a\nt ff a - 01 = missed\nt ff clk - 01 = hit\nt ff clk - 10 = missed\nm ff r 3 w = hit\nwindows 1\nwindow 0 40\nend\n",
            DbKind::BadLine,
            2
        )
    );
    assert!(rt; is_refused(rt.alloc(), b"covered-ex 1", DbKind::BadLine, 1));
    assert!(rt; is_refused(rt.alloc(), b"covered-ex 1\n", DbKind::BadLine, 2));
    assert!(rt; is_refused(rt.alloc(), b"x\n", DbKind::BadLine, 1));
}

/// The faults of addresses.
#[test]
fn faults_of_addresses_have_their_lines(rt: HostRuntime) {
    assert!(rt;
        is_refused(
            rt.alloc(),
            b"covered-ex 1\nexcluded 2\nt ff clk - 10\nl ff 10 1:3 assign\ncovered-db 2\ntop ff\nsource 1 ff.v\ninstance ff ff\npoints 7\nl ff 2 1:3 assign = hit\nl ff 10 1:3 assign = missed\nc ff 1 1:3 value 1 = ? 5 ff.a\nt ff a - 01 = missed\nt ff clk - 01 = hit\nt ff clk - 10 = missed\nm ff r 3 w = hit\nwindows 1\nwindow 0 40\nend\n",
            DbKind::BadLine,
            4
        )
    );
    assert!(rt;
        is_refused(
            rt.alloc(),
            b"covered-ex 1\nexcluded 2\nl ff 10 1:3 assign\nt ff zzz - 10\ncovered-db 2\ntop ff\nsource 1 ff.v\ninstance ff ff\npoints 7\nl ff 2 1:3 assign = hit\nl ff 10 1:3 assign = missed\nc ff 1 1:3 value 1 = ? 5 ff.a\nt ff a - 01 = missed\nt ff clk - 01 = hit\nt ff clk - 10 = missed\nm ff r 3 w = hit\nwindows 1\nwindow 0 40\nend\n",
            DbKind::BadLine,
            4
        )
    );
    assert!(rt;
        is_refused(
            rt.alloc(),
            b"covered-ex 1\nexcluded 2\nl ff 10 1:3 assign\nl ff 10 1:3 assign\ncovered-db 2\ntop ff\nsource 1 ff.v\ninstance ff ff\npoints 7\nl ff 2 1:3 assign = hit\nl ff 10 1:3 assign = missed\nc ff 1 1:3 value 1 = ? 5 ff.a\nt ff a - 01 = missed\nt ff clk - 01 = hit\nt ff clk - 10 = missed\nm ff r 3 w = hit\nwindows 1\nwindow 0 40\nend\n",
            DbKind::BadLine,
            4
        )
    );
    assert!(rt;
        is_refused(
            rt.alloc(),
            b"covered-ex 1\nexcluded 2\nl ff 10 1:3 assign\nt ff clk\ncovered-db 2\ntop ff\nsource 1 ff.v\ninstance ff ff\npoints 7\nl ff 2 1:3 assign = hit\nl ff 10 1:3 assign = missed\nc ff 1 1:3 value 1 = ? 5 ff.a\nt ff a - 01 = missed\nt ff clk - 01 = hit\nt ff clk - 10 = missed\nm ff r 3 w = hit\nwindows 1\nwindow 0 40\nend\n",
            DbKind::BadLine,
            4
        )
    );
}

/// The faults of what is after addresses.
#[test]
fn faults_after_addresses_have_their_lines(rt: HostRuntime) {
    assert!(rt;
        is_refused(
            rt.alloc(),
            b"covered-ex 1\nexcluded 2\nl ff 10 1:3 assign\nt ff clk - 10\ncovered-db 1\ntop ff\nsource 1 ff.v\ninstance ff ff\npoints 7\nl ff 2 1:3 assign = hit\nl ff 10 1:3 assign = missed\nc ff 1 1:3 value 1 = ? 5 ff.a\nt ff a - 01 = missed\nt ff clk - 01 = hit\nt ff clk - 10 = missed\nm ff r 3 w = hit\nend\n",
            DbKind::BadLine,
            5
        )
    );
    assert!(rt;
        is_refused(
            rt.alloc(),
            b"covered-ex 1\nexcluded 2\nl ff 10 1:3 assign\nt ff clk - 10\ncovered-db 3\ntop ff\nsource 1 ff.v\ninstance ff ff\npoints 7\nl ff 2 1:3 assign = hit\nl ff 10 1:3 assign = missed\nc ff 1 1:3 value 1 = ? 5 ff.a\nt ff a - 01 = missed\nt ff clk - 01 = hit\nt ff clk - 10 = missed\nm ff r 3 w = hit\nwindows 1\nwindow 0 40\nend\n",
            DbKind::BadLine,
            5
        )
    );
    assert!(rt;
        is_refused(
            rt.alloc(),
            b"covered-ex 1\nexcluded 2\nl ff 10 1:3 assign\nt ff clk - 10\n",
            DbKind::BadLine,
            5
        )
    );
    assert!(rt;
        is_refused(
            rt.alloc(),
            b"covered-ex 1\nexcluded 2\nl ff 10 1:3 assign\nt ff clk - 10\ncovered-db 2",
            DbKind::BadLine,
            5
        )
    );
    assert!(rt;
        is_refused(
            rt.alloc(),
            b"covered-ex 1\nexcluded 2\nl ff 10 1:3 assign\nt ff clk - 10\ncovered-ex 1\nexcluded 1\nl ff 10 1:3 assign\ncovered-db 2\ntop ff\nsource 1 ff.v\ninstance ff ff\npoints 7\nl ff 2 1:3 assign = hit\nl ff 10 1:3 assign = missed\nc ff 1 1:3 value 1 = ? 5 ff.a\nt ff a - 01 = missed\nt ff clk - 01 = hit\nt ff clk - 10 = missed\nm ff r 3 w = hit\nwindows 1\nwindow 0 40\nend\n",
            DbKind::BadLine,
            5
        )
    );
}
