//! Texts that are read, written and merged, and those that are refused.
ghost use Rattle.std.specs.Prelude.{IfSome};
ghost use Rattle.coverage_db.specs.Table.{IsTable};

use crate::database_cases::{MERGES, NO_DATABASES, OTHER_DESIGNS as EXAMPLE_DESIGNS};
use cov_host::{NoMemory, Text};
use coverage_db::{Db, DbFault, DbKind, MergeFault, merge, read_db, write_db};
use std::alloc::Global;

/// The table of a register: the simplest text with lines, logic and toggles.
const TABLE: &[u8] =
    b"covered-db 2\ntop ff\nsource 1 ff.v\ninstance ff ff\npoints 11\nl ff 1 1:3 if = hit\nl ff 2 1:3 assign = hit\nl ff 3 1:3 assign = missed\nc ff 1 1:3 value 0 = missed\nc ff 1 1:3 value 1 = hit\nt ff a - 01 = missed\nt ff a - 10 = missed\nt ff clk - 01 = hit\nt ff clk - 10 = missed\nt ff q - 01 = missed\nt ff q - 10 = missed\nwindows 1\nwindow 0 10\nend\n";

/// The same table of another run.
const OTHER: &[u8] =
    b"covered-db 2\ntop ff\nsource 1 ff.v\ninstance ff ff\npoints 11\nl ff 1 1:3 if = hit\nl ff 2 1:3 assign = ? 5 ff.a\nl ff 3 1:3 assign = ? 5 ff.a\nc ff 1 1:3 value 0 = ? 5 ff.a\nc ff 1 1:3 value 1 = ? 5 ff.a\nt ff a - 01 = missed\nt ff a - 10 = hit\nt ff clk - 01 = hit\nt ff clk - 10 = missed\nt ff q - 01 = missed\nt ff q - 10 = missed\nwindows 2\nwindow 0 10\nwindow 5 8\nend\n";

/// Their merge.
const MERGED: &[u8] =
    b"covered-db 2\ntop ff\nsource 1 ff.v\ninstance ff ff\npoints 11\nl ff 1 1:3 if = hit\nl ff 2 1:3 assign = hit\nl ff 3 1:3 assign = ? 5 ff.a\nc ff 1 1:3 value 0 = ? 5 ff.a\nc ff 1 1:3 value 1 = hit\nt ff a - 01 = missed\nt ff a - 10 = hit\nt ff clk - 01 = hit\nt ff clk - 10 = missed\nt ff q - 01 = missed\nt ff q - 10 = missed\nwindows 2\nwindow 0 10\nwindow 5 8\nend\n";

/// Texts that are no table's, each with the line of its fault.
const BAD_LINES: &[(&[u8], u32)] = &[
    (b"", 1),
    (b"covered-db", 1),
    (b"covered-db 1", 1),
    (b"covered-db 01\n", 1),
    (b"covered-db 9", 1),
    (b"covered-db 1\r\n", 1),
    (b"covered-db 1\n", 2),
    (b"covered-db 1\ntop\n", 2),
    (b"covered-db 1\ntop module\n", 2),
    (b"covered-db 1\ntop m\ninstance m m\n", 3),
    (b"covered-db 1\ntop m\nsource 2 m.v\n", 3),
    (b"covered-db 1\ntop m\nsource 1 m.v\nsource 1 n.v\n", 4),
    (b"covered-db 1\ntop m\nsource 1 m.v\npoints 0\n", 4),
    (
        b"covered-db 1\ntop m\nsource 1 m.v\ninstance m m\ninstance m m\n",
        5,
    ),
    (
        b"covered-db 1\ntop m\nsource 1 m.v\ninstance m.b m\ninstance m.a m\n",
        5,
    ),
    (
        b"covered-db 1\ntop m\nsource 1 m.v\ninstance m m\npoints 00\nend\n",
        5,
    ),
    (
        b"covered-db 1\ntop m\nsource 1 m.v\ninstance m m\npoints 0\n",
        6,
    ),
    (
        b"covered-db 1\ntop m\nsource 1 m.v\ninstance m m\npoints 0\nend",
        6,
    ),
    (
        b"covered-db 1\ntop m\nsource 1 m.v\ninstance m m\npoints 0\nends\n",
        6,
    ),
    (
        b"covered-db 1\ntop m\nsource 1 m.v\ninstance m m\npoints 0\nend\nend\n",
        7,
    ),
    (
        b"covered-db 1\ntop m\nsource 1 m.v\ninstance m m\npoints 1\nt m a - 01 = hits\nend\n",
        6,
    ),
    (
        b"covered-db 1\ntop m\nsource 1 m.v\ninstance m m\npoints 1\nt m a - 01 = hit \nend\n",
        6,
    ),
    (
        b"covered-db 1\ntop m\nsource 1 m.v\ninstance m m\npoints 1\nt m a 01 01 = hit\nend\n",
        6,
    ),
    (
        b"covered-db 1\ntop m\nsource 1 m.v\ninstance m m\npoints 1\nt m a - 01 = ? 05 m.a\nend\n",
        6,
    ),
    (
        b"covered-db 1\ntop m\nsource 1 m.v\ninstance m m\npoints 1\nt m a - 01 = ? 5 n.a\nend\n",
        6,
    ),
    (
        b"covered-db 1\ntop m\nsource 1 m.v\ninstance m m\npoints 1\nt n a - 01 = hit\nend\n",
        6,
    ),
    (
        b"covered-db 1\ntop m\nsource 1 m.v\ninstance m m\npoints 1\nl m 1 2:1 if = hit\nend\n",
        6,
    ),
    (
        b"covered-db 1\ntop m\nsource 1 m.v\ninstance m m\npoints 1\nc m 1 1:1 && 00 = hit\nend\n",
        6,
    ),
    // The points end before the count can be compared.
    (
        b"covered-db 1\ntop m\nsource 1 m.v\ninstance m m\npoints 3\nt m a - 01 = hit\n",
        7,
    ),
    // A line twice, and one too early, with another number of points.
    (
        b"covered-db 1\ntop m\nsource 1 m.v\ninstance m m\npoints 3\nt m a - 01 = hit\nt m a - 01 = hit\nend\n",
        7,
    ),
    (
        b"covered-db 1\ntop m\nsource 1 m.v\ninstance m m\npoints 3\nt m a 10 01 = hit\nt m a 9 01 = hit\nend\n",
        7,
    ),
    (
        b"covered-db 2\ntop m\nsource 1 m.v\ninstance m m\npoints 0\nend\n",
        6,
    ),
    (
        b"covered-db 2\ntop m\nsource 1 m.v\ninstance m m\npoints 0\nwindows\n",
        6,
    ),
    (
        b"covered-db 2\ntop m\nsource 1 m.v\ninstance m m\npoints 0\nwindows 00\nend\n",
        6,
    ),
    (
        b"covered-db 2\ntop m\nsource 1 m.v\ninstance m m\npoints 0\nwindows 1\nwindow 5 5\nend\n",
        7,
    ),
    (
        b"covered-db 2\ntop m\nsource 1 m.v\ninstance m m\npoints 0\nwindows 1\nwindow 05 6\nend\n",
        7,
    ),
    (
        b"covered-db 2\ntop m\nsource 1 m.v\ninstance m m\npoints 0\nwindows 1\nwindow 5  6\nend\n",
        7,
    ),
    (
        b"covered-db 2\ntop m\nsource 1 m.v\ninstance m m\npoints 0\nwindows 1\nwindow 5 6 \nend\n",
        7,
    ),
    (
        b"covered-db 2\ntop m\nsource 1 m.v\ninstance m m\npoints 0\nwindows 1\nwindow 5 9223372036854775808\nend\n",
        7,
    ),
    (
        b"covered-db 2\ntop m\nsource 1 m.v\ninstance m m\npoints 0\nwindows 2\nwindow 5 6\nwindow 5 6\nend\n",
        8,
    ),
    (
        b"covered-db 2\ntop m\nsource 1 m.v\ninstance m m\npoints 0\nwindows 2\nwindow 5 7\nwindow 5 6\nend\n",
        8,
    ),
    (
        b"covered-db 2\ntop m\nsource 1 m.v\ninstance m m\npoints 0\nwindows 2\nwindow 5 6\n",
        8,
    ),
    (
        b"covered-db 2\ntop m\nsource 1 m.v\ninstance m m\npoints 0\nwindows 0\nends\n",
        7,
    ),
    (
        b"covered-db 2\ntop m\nsource 1 m.v\ninstance m m\npoints 0\nwindows 0\nend\nend\n",
        8,
    ),
];

/// Texts with another number of points.
const WRONG_COUNTS: &[&[u8]] = &[
    b"covered-db 1\ntop m\nsource 1 m.v\ninstance m m\npoints 0\nt m a - 01 = hit\nend\n",
    b"covered-db 1\ntop m\nsource 1 m.v\ninstance m m\npoints 99999999999999999999\nend\n",
    b"covered-db 1\ntop m\nsource 1 m.v\ninstance m m\npoints 2\nt m a - 01 = hit\nother\n",
];

/// Texts with another number of windows.
const WRONG_WINDOW_COUNTS: &[&[u8]] = &[
    b"covered-db 2\ntop m\nsource 1 m.v\ninstance m m\npoints 0\nwindows 0\nwindow 5 6\nend\n",
    b"covered-db 2\ntop m\nsource 1 m.v\ninstance m m\npoints 0\nwindows 99999999999999999999\nend\n",
    b"covered-db 2\ntop m\nsource 1 m.v\ninstance m m\npoints 0\nwindows 2\nwindow 5 6\nother\n",
];

/// A table, and its like with one other line each, with the number and the two lines.
const DESIGN: &[u8] =
    b"covered-db 2\ntop m\nsource 1 m.v\ninstance m m\npoints 2\nt m a - 01 = hit\nt m a - 10 = missed\nwindows 0\nend\n";

const OTHER_DESIGNS: &[(&[u8], u32, &[u8], &[u8])] = &[
    (
        b"covered-db 1\ntop n\nsource 1 m.v\ninstance m m\npoints 2\nt m a - 01 = hit\nt m a - 10 = missed\nend\n",
        2,
        b"top m",
        b"top n",
    ),
    (
        b"covered-db 1\ntop m\nsource 1 m.v\nsource 2 n.v\ninstance m m\npoints 2\nt m a - 01 = hit\nt m a - 10 = missed\nend\n",
        4,
        b"instance m m",
        b"source 2 n.v",
    ),
    (
        b"covered-db 1\ntop m\nsource 1 m.v\ninstance m m\ninstance m.u m\npoints 2\nt m a - 01 = hit\nt m a - 10 = missed\nend\n",
        5,
        b"points 2",
        b"instance m.u m",
    ),
    (
        b"covered-db 1\ntop m\nsource 1 m.v\ninstance m m\npoints 1\nt m a - 01 = hit\nend\n",
        5,
        b"points 2",
        b"points 1",
    ),
    (
        b"covered-db 1\ntop m\nsource 1 m.v\ninstance m m\npoints 2\nt m a - 01 = hit\nt m b - 10 = missed\nend\n",
        7,
        b"t m a - 10",
        b"t m b - 10",
    ),
];

/// Two tables, and their merge.
const MERGED_PAIRS: &[(&[u8], &[u8], &[u8])] = &[
    (TABLE, OTHER, MERGED),
    (OTHER, TABLE, MERGED),
    (MERGED, TABLE, MERGED),
    (OTHER, OTHER, OTHER),
];

/// The points of a signal of many bits: two a bit.
const BITS: u32 = 50_000;

/// The table of a text.
pub(crate) fn table(alloc: Global, text: &[u8]) -> Option<Db>
    ensures { IfSome result (λ db. IsTable db) }
{
    match read_db(alloc, text) {
        Ok(db) => Some(db),
        Err(_) => None,
    }
}

/// Whether the text is this one.
pub(crate) fn is_text(text: Option<Text>, expected: &[u8]) -> bool {
    match text {
        Some(text) => text.as_slice() == expected,
        None => false,
    }
}

fn written(alloc: Global, text: &[u8]) -> Option<Text> {
    let db = table(alloc, text)?;
    write_db(alloc, &db).ok()
}

/// The merge of two tables.
fn merged_table(alloc: Global, left: &[u8], right: &[u8]) -> Option<Db>
    ensures { IfSome result (λ db. IsTable db) }
{
    let (Some(left), Some(right)) = (table(alloc, left), table(alloc, right)) else {
        return None;
    };
    match merge(alloc, left, &right) {
        Ok(db) => Some(db),
        Err(_) => None,
    }
}

fn merged(alloc: Global, left: &[u8], right: &[u8]) -> Option<Text> {
    let db = merged_table(alloc, left, right)?;
    write_db(alloc, &db).ok()
}

/// The merge of texts one after the other.
fn merged_all(alloc: Global, texts: &[&[u8]]) -> Option<Text> {
    let (first, others) = texts.split_first()?;
    let mut text = written(alloc, first)?;
    for other in others {
        text = merged(alloc, text.as_slice(), other)?;
    }
    Some(text)
}

fn fault_of(alloc: Global, text: &[u8]) -> Option<DbFault> {
    match read_db(alloc, text) {
        Ok(_) => None,
        Err(fault) => Some(fault),
    }
}

fn has_fault(alloc: Global, text: &[u8], kind: DbKind, line: u32) -> bool {
    let line = Some(line);
    fault_of(alloc, text) == Some(DbFault::At { kind, line })
}

/// Why two texts are not merged.
fn difference(alloc: Global, design: &[u8], text: &[u8]) -> Option<MergeFault> {
    let (Some(design), Some(other)) = (table(alloc, design), table(alloc, text)) else {
        return None;
    };
    match merge(alloc, design, &other) {
        Ok(_) => None,
        Err(fault) => Some(fault),
    }
}

/// Whether the designs differ at the line, with these two lines.
fn differs(fault: Option<MergeFault>, number: u32, first: &[u8], second: &[u8]) -> bool {
    match fault {
        Some(MergeFault::DesignsDiffer { line, left, right }) => {
            line == number && left.as_slice() == first && right.as_slice() == second
        }
        _ => false,
    }
}

#[test]
fn tables_are_read_and_written(rt: HostRuntime) {
    for text in &[TABLE, OTHER, MERGED, DESIGN] {
        assert!(rt; is_text(written(rt.alloc(), text), text));
    }
}

/// A text of version 1, and that of its table.
const OLDER: &[u8] =
    b"covered-db 1\ntop m\nsource 1 m.v\ninstance m m\npoints 2\nt m a - 01 = hit\nt m a - 10 = missed\nend\n";

#[test]
fn a_text_of_version_one_is_read(rt: HostRuntime) {
    assert!(rt; is_text(written(rt.alloc(), OLDER), DESIGN));
}

#[test]
fn faults_have_their_lines(rt: HostRuntime) {
    for (text, line) in BAD_LINES {
        assert!(rt; has_fault(rt.alloc(), text, DbKind::BadLine, *line));
    }
    for text in WRONG_COUNTS {
        assert!(rt; has_fault(rt.alloc(), text, DbKind::WrongCount, 5));
    }
    for text in WRONG_WINDOW_COUNTS {
        assert!(rt; has_fault(rt.alloc(), text, DbKind::WrongCount, 6));
    }
    assert!(rt; has_fault(rt.alloc(), b"covered-db 9\n", DbKind::WrongVersion, 1));
}

#[test]
fn tables_are_merged_in_any_order(rt: HostRuntime) {
    for (left, right, both) in MERGED_PAIRS {
        assert!(rt; is_text(merged(rt.alloc(), left, right), both));
    }
}

#[test]
fn other_designs_are_refused(rt: HostRuntime) {
    for (text, line, left, right) in OTHER_DESIGNS {
        assert!(rt; differs(difference(rt.alloc(), DESIGN, text), *line, left, right));
    }
    for case in &EXAMPLE_DESIGNS {
        let found = difference(rt.alloc(), case.left, case.right);
        assert!(rt; differs(found, case.line, case.first, case.second));
    }
}

#[test]
fn example_cases_have_their_faults(rt: HostRuntime) {
    for case in &NO_DATABASES {
        assert!(rt; has_fault(rt.alloc(), case.text, case.kind, case.line));
    }
}

#[test]
fn example_cases_are_merged(rt: HostRuntime) {
    for case in &MERGES {
        assert!(rt; is_text(merged_all(rt.alloc(), case.inputs), case.text));
    }
}

/// The lines of the two points of a bit.
fn push_bit(text: &mut Text, bit: u32) -> Result<(), NoMemory> {
    for verdict in &[b" 01 = hit\n".as_slice(), b" 10 = ? 7 m.a\n".as_slice()] {
        text.extend_from_slice(b"t m a ")?;
        text.extend_from_slice(itoa::Buffer::new().format(bit).as_bytes())?;
        text.extend_from_slice(verdict)?;
    }
    Ok(())
}

/// The table of a signal of many bits.
fn many_points(alloc: Global) -> Result<Text, NoMemory> {
    let mut text = Text::new(alloc);
    text.extend_from_slice(b"covered-db 2\ntop m\nsource 1 m.v\ninstance m m\npoints 100000\n")?;
    for bit in 0..BITS {
        push_bit(&mut text, bit)?;
    }
    text.extend_from_slice(b"windows 0\nend\n")?;
    Ok(text)
}

fn merges_with_itself(alloc: Global, text: &Text) -> bool {
    is_text(
        merged(alloc, text.as_slice(), text.as_slice()),
        text.as_slice(),
    )
}

#[test]
fn many_points_are_merged(rt: HostRuntime) {
    assert!(rt;
        match many_points(rt.alloc()) {
            Ok(text) => merges_with_itself(rt.alloc(), &text),
            Err(_) => false,
        }
    );
}
