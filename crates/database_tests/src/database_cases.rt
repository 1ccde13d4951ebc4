//! Example cases of databases: texts that are no database, and databases that do not merge.
use coverage_db::DbKind;

/// A text that is no database, what is wrong with it, and in which line.
#[derive(Clone, Copy)]
pub(crate) struct NoDatabase {
    pub(crate) text: &'static [u8],
    pub(crate) kind: DbKind,
    pub(crate) line: u32,
}

/// Databases of different designs, the first line that differs, and what it says in either.
#[derive(Clone, Copy)]
pub(crate) struct OtherDesign {
    pub(crate) left: &'static [u8],
    pub(crate) right: &'static [u8],
    pub(crate) line: u32,
    pub(crate) first: &'static [u8],
    pub(crate) second: &'static [u8],
}

/// Databases of one design, and their merge.
#[derive(Clone, Copy)]
pub(crate) struct Merged {
    pub(crate) inputs: &'static [&'static [u8]],
    pub(crate) text: &'static [u8],
}

#[rattlefmt::skip]
pub(crate) const NO_DATABASES: [NoDatabase; 49] = [
    // database-carriage-return
    NoDatabase { text: b"covered-db 1\ntop ff\nsource 1 ff.v\ninstance ff ff\npoints 11\nl ff 1 1:3 if = hit\r\nl ff 2 1:3 assign = hit\nl ff 3 1:3 assign = missed\nc ff 1 1:3 value 0 = missed\nc ff 1 1:3 value 1 = hit\nt ff a - 01 = missed\nt ff a - 10 = missed\nt ff clk - 01 = hit\nt ff clk - 10 = missed\nt ff q - 01 = missed\nt ff q - 10 = missed\nend\n", kind: DbKind::BadLine, line: 6 },
    // database-case-of-other-operator
    NoDatabase { text: b"covered-db 1\ntop ff\nsource 1 ff.v\ninstance ff ff\npoints 11\nl ff 1 1:3 if = hit\nl ff 2 1:3 assign = hit\nl ff 3 1:3 assign = missed\nc ff 1 1:3 value 11 = missed\nc ff 1 1:3 value 1 = hit\nt ff a - 01 = missed\nt ff a - 10 = missed\nt ff clk - 01 = hit\nt ff clk - 10 = missed\nt ff q - 01 = missed\nt ff q - 10 = missed\nend\n", kind: DbKind::BadLine, line: 9 },
    // database-count-too-low
    NoDatabase { text: b"covered-db 1\ntop ff\nsource 1 ff.v\ninstance ff ff\npoints 10\nl ff 1 1:3 if = hit\nl ff 2 1:3 assign = hit\nl ff 3 1:3 assign = missed\nc ff 1 1:3 value 0 = missed\nc ff 1 1:3 value 1 = hit\nt ff a - 01 = missed\nt ff a - 10 = missed\nt ff clk - 01 = hit\nt ff clk - 10 = missed\nt ff q - 01 = missed\nt ff q - 10 = missed\nend\n", kind: DbKind::WrongCount, line: 5 },
    // database-count-with-leading-zero
    NoDatabase { text: b"covered-db 1\ntop ff\nsource 1 ff.v\ninstance ff ff\npoints 011\nl ff 1 1:3 if = hit\nl ff 2 1:3 assign = hit\nl ff 3 1:3 assign = missed\nc ff 1 1:3 value 0 = missed\nc ff 1 1:3 value 1 = hit\nt ff a - 01 = missed\nt ff a - 10 = missed\nt ff clk - 01 = hit\nt ff clk - 10 = missed\nt ff q - 01 = missed\nt ff q - 10 = missed\nend\n", kind: DbKind::BadLine, line: 5 },
    // database-cut-among-points
    NoDatabase { text: b"covered-db 1\ntop ff\nsource 1 ff.v\ninstance ff ff\npoints 11\nl ff 1 1:3 if = hit\nl ff 2 1:3 assign = hit\nl ff 3 1:3 assign = missed\nc ff 1 1:3 value 0 = missed\n", kind: DbKind::BadLine, line: 10 },
    // database-cut-before-points
    NoDatabase { text: b"covered-db 1\ntop ff\nsource 1 ff.v\ninstance ff ff\npoints 11\n", kind: DbKind::BadLine, line: 6 },
    // database-cut-before-wrong-count
    NoDatabase { text: b"covered-db 1\ntop ff\nsource 1 ff.v\ninstance ff ff\npoints 12\nl ff 1 1:3 if = hit\nl ff 2 1:3 assign = hit\nl ff 3 1:3 assign = missed\nc ff 1 1:3 value 0 = missed\n", kind: DbKind::BadLine, line: 10 },
    // database-cut-in-head
    NoDatabase { text: b"covered-db 1\ntop ff\n", kind: DbKind::BadLine, line: 3 },
    // database-cut-inside-a-point
    NoDatabase { text: b"covered-db 1\ntop ff\nsource 1 ff.v\ninstance ff ff\npoints 11\nl ff 1 1:3 if = hit\nl ff", kind: DbKind::BadLine, line: 7 },
    // database-doubled-line
    NoDatabase { text: b"covered-db 1\ntop ff\nsource 1 ff.v\ninstance ff ff\npoints 11\nl ff 1 1:3 if = hit\nl ff 2 1:3 assign = hit\nl ff 2 1:3 assign = hit\nl ff 3 1:3 assign = missed\nc ff 1 1:3 value 0 = missed\nc ff 1 1:3 value 1 = hit\nt ff a - 01 = missed\nt ff a - 10 = missed\nt ff clk - 01 = hit\nt ff clk - 10 = missed\nt ff q - 01 = missed\nt ff q - 10 = missed\nend\n", kind: DbKind::BadLine, line: 8 },
    // database-doubt-time-leading-zero
    NoDatabase { text: b"covered-db 1\ntop ff\nsource 1 ff.v\ninstance ff ff\npoints 11\nl ff 1 1:3 if = hit\nl ff 2 1:3 assign = ? 05 ff.a\nl ff 3 1:3 assign = missed\nc ff 1 1:3 value 0 = missed\nc ff 1 1:3 value 1 = hit\nt ff a - 01 = missed\nt ff a - 10 = missed\nt ff clk - 01 = hit\nt ff clk - 10 = missed\nt ff q - 01 = missed\nt ff q - 10 = missed\nend\n", kind: DbKind::BadLine, line: 7 },
    // database-doubt-without-path
    NoDatabase { text: b"covered-db 1\ntop ff\nsource 1 ff.v\ninstance ff ff\npoints 11\nl ff 1 1:3 if = hit\nl ff 2 1:3 assign = ? 5\nl ff 3 1:3 assign = missed\nc ff 1 1:3 value 0 = missed\nc ff 1 1:3 value 1 = hit\nt ff a - 01 = missed\nt ff a - 10 = missed\nt ff clk - 01 = hit\nt ff clk - 10 = missed\nt ff q - 01 = missed\nt ff q - 10 = missed\nend\n", kind: DbKind::BadLine, line: 7 },
    // database-empty
    NoDatabase { text: b"", kind: DbKind::BadLine, line: 1 },
    // database-foreign-line-among-points
    NoDatabase { text: b"covered-db 1\ntop ff\nsource 1 ff.v\ninstance ff ff\npoints 11\nl ff 1 1:3 if = hit\nl ff 2 1:3 assign = hit\nl ff 3 1:3 assign = missed\nc ff 1 1:3 value 0 = missed\nc ff 1 1:3 value 1 = hit\nt ff a - 01 = missed\nzzz\nt ff clk - 01 = hit\nt ff clk - 10 = missed\nt ff q - 01 = missed\nt ff q - 10 = missed\nend\n", kind: DbKind::WrongCount, line: 5 },
    // database-instances-do-not-rise
    NoDatabase { text: b"covered-db 1\ntop top\nsource 1 top.v\ninstance top.u reg2\ninstance top top\npoints 11\nl top.u 1 1:5 assign = missed\nt top clk - 01 = missed\nt top clk - 10 = missed\nt top d 0 01 = missed\nt top d 0 10 = missed\nt top d 1 01 = missed\nt top d 1 10 = missed\nt top q 0 01 = missed\nt top q 0 10 = missed\nt top q 1 01 = missed\nt top q 1 10 = missed\nend\n", kind: DbKind::BadLine, line: 5 },
    // database-last-line-cut
    NoDatabase { text: b"covered-db 1\ntop ff\nsource 1 ff.v\ninstance ff ff\npoints 11\nl ff 1 1:3 if = hit\nl ff 2 1:3 assign = hit\nl ff 3 1:3 assign = missed\nc ff 1 1:3 value 0 = missed\nc ff 1 1:3 value 1 = hit\nt ff a - 01 = missed\nt ff a - 10 = missed\nt ff clk - 01 = hit\nt ff clk - 10 = missed\nt ff q - 01 = missed\nt ff q - 10 = missed\nend", kind: DbKind::BadLine, line: 17 },
    // database-letters-do-not-rise
    NoDatabase { text: b"covered-db 1\ntop ff\nsource 1 ff.v\ninstance ff ff\npoints 11\nc ff 1 1:3 value 0 = missed\nc ff 1 1:3 value 1 = hit\nl ff 1 1:3 if = hit\nl ff 2 1:3 assign = hit\nl ff 3 1:3 assign = missed\nt ff a - 01 = missed\nt ff a - 10 = missed\nt ff clk - 01 = hit\nt ff clk - 10 = missed\nt ff q - 01 = missed\nt ff q - 10 = missed\nend\n", kind: DbKind::BadLine, line: 8 },
    // database-number-with-leading-zero
    NoDatabase { text: b"covered-db 1\ntop ff\nsource 1 ff.v\ninstance ff ff\npoints 11\nl ff 01 1:3 if = hit\nl ff 2 1:3 assign = hit\nl ff 3 1:3 assign = missed\nc ff 1 1:3 value 0 = missed\nc ff 1 1:3 value 1 = hit\nt ff a - 01 = missed\nt ff a - 10 = missed\nt ff clk - 01 = hit\nt ff clk - 10 = missed\nt ff q - 01 = missed\nt ff q - 10 = missed\nend\n", kind: DbKind::BadLine, line: 6 },
    // database-other-text
    NoDatabase { text: b"hello\n", kind: DbKind::BadLine, line: 1 },
    // database-other-version
    NoDatabase { text: b"covered-db 9\ntop ff\nsource 1 ff.v\ninstance ff ff\npoints 11\nl ff 1 1:3 if = hit\nl ff 2 1:3 assign = hit\nl ff 3 1:3 assign = missed\nc ff 1 1:3 value 0 = missed\nc ff 1 1:3 value 1 = hit\nt ff a - 01 = missed\nt ff a - 10 = missed\nt ff clk - 01 = hit\nt ff clk - 10 = missed\nt ff q - 01 = missed\nt ff q - 10 = missed\nend\n", kind: DbKind::WrongVersion, line: 1 },
    // database-points-do-not-rise
    NoDatabase { text: b"covered-db 1\ntop ff\nsource 1 ff.v\ninstance ff ff\npoints 11\nl ff 1 1:3 if = hit\nl ff 2 1:3 assign = hit\nl ff 3 1:3 assign = missed\nc ff 1 1:3 value 0 = missed\nc ff 1 1:3 value 1 = hit\nt ff a - 10 = missed\nt ff a - 01 = missed\nt ff clk - 01 = hit\nt ff clk - 10 = missed\nt ff q - 01 = missed\nt ff q - 10 = missed\nend\n", kind: DbKind::BadLine, line: 12 },
    // database-source-number
    NoDatabase { text: b"covered-db 1\ntop ff\nsource 2 ff.v\ninstance ff ff\npoints 11\nl ff 1 1:3 if = hit\nl ff 2 1:3 assign = hit\nl ff 3 1:3 assign = missed\nc ff 1 1:3 value 0 = missed\nc ff 1 1:3 value 1 = hit\nt ff a - 01 = missed\nt ff a - 10 = missed\nt ff clk - 01 = hit\nt ff clk - 10 = missed\nt ff q - 01 = missed\nt ff q - 10 = missed\nend\n", kind: DbKind::BadLine, line: 3 },
    // database-space-at-line-end
    NoDatabase { text: b"covered-db 1\ntop ff\nsource 1 ff.v\ninstance ff ff\npoints 11\nl ff 1 1:3 if = hit \nl ff 2 1:3 assign = hit\nl ff 3 1:3 assign = missed\nc ff 1 1:3 value 0 = missed\nc ff 1 1:3 value 1 = hit\nt ff a - 01 = missed\nt ff a - 10 = missed\nt ff clk - 01 = hit\nt ff clk - 10 = missed\nt ff q - 01 = missed\nt ff q - 10 = missed\nend\n", kind: DbKind::BadLine, line: 6 },
    // database-text-after-end
    NoDatabase { text: b"covered-db 1\ntop ff\nsource 1 ff.v\ninstance ff ff\npoints 11\nl ff 1 1:3 if = hit\nl ff 2 1:3 assign = hit\nl ff 3 1:3 assign = missed\nc ff 1 1:3 value 0 = missed\nc ff 1 1:3 value 1 = hit\nt ff a - 01 = missed\nt ff a - 10 = missed\nt ff clk - 01 = hit\nt ff clk - 10 = missed\nt ff q - 01 = missed\nt ff q - 10 = missed\nend\nx\n", kind: DbKind::BadLine, line: 18 },
    // database-toggle-direction
    NoDatabase { text: b"covered-db 1\ntop ff\nsource 1 ff.v\ninstance ff ff\npoints 11\nl ff 1 1:3 if = hit\nl ff 2 1:3 assign = hit\nl ff 3 1:3 assign = missed\nc ff 1 1:3 value 0 = missed\nc ff 1 1:3 value 1 = hit\nt ff a - 11 = missed\nt ff a - 10 = missed\nt ff clk - 01 = hit\nt ff clk - 10 = missed\nt ff q - 01 = missed\nt ff q - 10 = missed\nend\n", kind: DbKind::BadLine, line: 11 },
    // database-two-spaces
    NoDatabase { text: b"covered-db 1\ntop ff\nsource 1 ff.v\ninstance ff ff\npoints 11\nl ff  1 1:3 if = hit\nl ff 2 1:3 assign = hit\nl ff 3 1:3 assign = missed\nc ff 1 1:3 value 0 = missed\nc ff 1 1:3 value 1 = hit\nt ff a - 01 = missed\nt ff a - 10 = missed\nt ff clk - 01 = hit\nt ff clk - 10 = missed\nt ff q - 01 = missed\nt ff q - 10 = missed\nend\n", kind: DbKind::BadLine, line: 6 },
    // database-unknown-instance
    NoDatabase { text: b"covered-db 1\ntop ff\nsource 1 ff.v\ninstance ff ff\npoints 11\nl gg 1 1:3 if = hit\nl ff 2 1:3 assign = hit\nl ff 3 1:3 assign = missed\nc ff 1 1:3 value 0 = missed\nc ff 1 1:3 value 1 = hit\nt ff a - 01 = missed\nt ff a - 10 = missed\nt ff clk - 01 = hit\nt ff clk - 10 = missed\nt ff q - 01 = missed\nt ff q - 10 = missed\nend\n", kind: DbKind::BadLine, line: 6 },
    // database-unknown-line-word
    NoDatabase { text: b"covered-db 1\ntop ff\nsource 1 ff.v\ninstance ff ff\npoints 11\nl ff 1 1:3 while = hit\nl ff 2 1:3 assign = hit\nl ff 3 1:3 assign = missed\nc ff 1 1:3 value 0 = missed\nc ff 1 1:3 value 1 = hit\nt ff a - 01 = missed\nt ff a - 10 = missed\nt ff clk - 01 = hit\nt ff clk - 10 = missed\nt ff q - 01 = missed\nt ff q - 10 = missed\nend\n", kind: DbKind::BadLine, line: 6 },
    // database-unknown-source
    NoDatabase { text: b"covered-db 1\ntop ff\nsource 1 ff.v\ninstance ff ff\npoints 11\nl ff 1 2:3 if = hit\nl ff 2 1:3 assign = hit\nl ff 3 1:3 assign = missed\nc ff 1 1:3 value 0 = missed\nc ff 1 1:3 value 1 = hit\nt ff a - 01 = missed\nt ff a - 10 = missed\nt ff clk - 01 = hit\nt ff clk - 10 = missed\nt ff q - 01 = missed\nt ff q - 10 = missed\nend\n", kind: DbKind::BadLine, line: 6 },
    // database-unknown-verdict
    NoDatabase { text: b"covered-db 1\ntop ff\nsource 1 ff.v\ninstance ff ff\npoints 11\nl ff 1 1:3 if = hit\nl ff 2 1:3 assign = maybe\nl ff 3 1:3 assign = missed\nc ff 1 1:3 value 0 = missed\nc ff 1 1:3 value 1 = hit\nt ff a - 01 = missed\nt ff a - 10 = missed\nt ff clk - 01 = hit\nt ff clk - 10 = missed\nt ff q - 01 = missed\nt ff q - 10 = missed\nend\n", kind: DbKind::BadLine, line: 7 },
    // database-version-three
    NoDatabase { text: b"covered-db 3\ntop ff\nsource 1 ff.v\ninstance ff ff\npoints 11\nl ff 1 1:3 if = hit\nl ff 2 1:3 assign = hit\nl ff 3 1:3 assign = missed\nc ff 1 1:3 value 0 = missed\nc ff 1 1:3 value 1 = hit\nt ff a - 01 = missed\nt ff a - 10 = missed\nt ff clk - 01 = hit\nt ff clk - 10 = missed\nt ff q - 01 = missed\nt ff q - 10 = missed\nwindows 1\nwindow 0 10\nend\n", kind: DbKind::WrongVersion, line: 1 },
    // database-version-two-doubled-line
    NoDatabase { text: b"covered-db 2\ntop ff\nsource 1 ff.v\ninstance ff ff\npoints 11\nl ff 1 1:3 if = hit\nl ff 2 1:3 assign = hit\nl ff 2 1:3 assign = hit\nl ff 3 1:3 assign = missed\nc ff 1 1:3 value 0 = missed\nc ff 1 1:3 value 1 = hit\nt ff a - 01 = missed\nt ff a - 10 = missed\nt ff clk - 01 = hit\nt ff clk - 10 = missed\nt ff q - 01 = missed\nt ff q - 10 = missed\nwindows 1\nwindow 0 10\nend\n", kind: DbKind::BadLine, line: 8 },
    // database-version-two-wrong-point-count
    NoDatabase { text: b"covered-db 2\ntop ff\nsource 1 ff.v\ninstance ff ff\npoints 12\nl ff 1 1:3 if = hit\nl ff 2 1:3 assign = hit\nl ff 3 1:3 assign = missed\nc ff 1 1:3 value 0 = missed\nc ff 1 1:3 value 1 = hit\nt ff a - 01 = missed\nt ff a - 10 = missed\nt ff clk - 01 = hit\nt ff clk - 10 = missed\nt ff q - 01 = missed\nt ff q - 10 = missed\nwindows 1\nwindow 0 10\nend\n", kind: DbKind::WrongCount, line: 5 },
    // database-version-zero
    NoDatabase { text: b"covered-db 0\ntop ff\nsource 1 ff.v\ninstance ff ff\npoints 11\nl ff 1 1:3 if = hit\nl ff 2 1:3 assign = hit\nl ff 3 1:3 assign = missed\nc ff 1 1:3 value 0 = missed\nc ff 1 1:3 value 1 = hit\nt ff a - 01 = missed\nt ff a - 10 = missed\nt ff clk - 01 = hit\nt ff clk - 10 = missed\nt ff q - 01 = missed\nt ff q - 10 = missed\nend\n", kind: DbKind::WrongVersion, line: 1 },
    // database-without-last-line
    NoDatabase { text: b"covered-db 1\ntop ff\nsource 1 ff.v\ninstance ff ff\npoints 11\nl ff 1 1:3 if = hit\nl ff 2 1:3 assign = hit\nl ff 3 1:3 assign = missed\nc ff 1 1:3 value 0 = missed\nc ff 1 1:3 value 1 = hit\nt ff a - 01 = missed\nt ff a - 10 = missed\nt ff clk - 01 = hit\nt ff clk - 10 = missed\nt ff q - 01 = missed\nt ff q - 10 = missed\n", kind: DbKind::BadLine, line: 17 },
    // database-without-source
    NoDatabase { text: b"covered-db 1\ntop ff\nsauce 1 ff.v\ninstance ff ff\npoints 11\nl ff 1 1:3 if = hit\nl ff 2 1:3 assign = hit\nl ff 3 1:3 assign = missed\nc ff 1 1:3 value 0 = missed\nc ff 1 1:3 value 1 = hit\nt ff a - 01 = missed\nt ff a - 10 = missed\nt ff clk - 01 = hit\nt ff clk - 10 = missed\nt ff q - 01 = missed\nt ff q - 10 = missed\nend\n", kind: DbKind::BadLine, line: 3 },
    // database-without-top
    NoDatabase { text: b"covered-db 1\ntip ff\nsource 1 ff.v\ninstance ff ff\npoints 11\nl ff 1 1:3 if = hit\nl ff 2 1:3 assign = hit\nl ff 3 1:3 assign = missed\nc ff 1 1:3 value 0 = missed\nc ff 1 1:3 value 1 = hit\nt ff a - 01 = missed\nt ff a - 10 = missed\nt ff clk - 01 = hit\nt ff clk - 10 = missed\nt ff q - 01 = missed\nt ff q - 10 = missed\nend\n", kind: DbKind::BadLine, line: 2 },
    // database-wrong-count
    NoDatabase { text: b"covered-db 1\ntop ff\nsource 1 ff.v\ninstance ff ff\npoints 12\nl ff 1 1:3 if = hit\nl ff 2 1:3 assign = hit\nl ff 3 1:3 assign = missed\nc ff 1 1:3 value 0 = missed\nc ff 1 1:3 value 1 = hit\nt ff a - 01 = missed\nt ff a - 10 = missed\nt ff clk - 01 = hit\nt ff clk - 10 = missed\nt ff q - 01 = missed\nt ff q - 10 = missed\nend\n", kind: DbKind::WrongCount, line: 5 },
    // database-wrong-last-line
    NoDatabase { text: b"covered-db 1\ntop ff\nsource 1 ff.v\ninstance ff ff\npoints 11\nl ff 1 1:3 if = hit\nl ff 2 1:3 assign = hit\nl ff 3 1:3 assign = missed\nc ff 1 1:3 value 0 = missed\nc ff 1 1:3 value 1 = hit\nt ff a - 01 = missed\nt ff a - 10 = missed\nt ff clk - 01 = hit\nt ff clk - 10 = missed\nt ff q - 01 = missed\nt ff q - 10 = missed\nEnd\n", kind: DbKind::BadLine, line: 17 },
    // merge-bad-second-database
    NoDatabase { text: b"covered-db 1\ntop ff\nsource 1 ff.v\ninstance ff ff\npoints 12\nl ff 1 1:3 if = hit\nl ff 2 1:3 assign = hit\nl ff 3 1:3 assign = missed\nc ff 1 1:3 value 0 = missed\nc ff 1 1:3 value 1 = hit\nt ff a - 01 = missed\nt ff a - 10 = missed\nt ff clk - 01 = hit\nt ff clk - 10 = missed\nt ff q - 01 = missed\nt ff q - 10 = missed\nend\n", kind: DbKind::WrongCount, line: 5 },
    // report-keeps-output-on-refusal
    NoDatabase { text: b"x\n", kind: DbKind::BadLine, line: 1 },
    // window-not-rising
    NoDatabase { text: b"covered-db 2\ntop ff\nsource 1 ff.v\ninstance ff ff\npoints 11\nl ff 1 1:3 if = hit\nl ff 2 1:3 assign = hit\nl ff 3 1:3 assign = missed\nc ff 1 1:3 value 0 = missed\nc ff 1 1:3 value 1 = hit\nt ff a - 01 = missed\nt ff a - 10 = missed\nt ff clk - 01 = hit\nt ff clk - 10 = missed\nt ff q - 01 = missed\nt ff q - 10 = missed\nwindows 1\nwindow 10 10\nend\n", kind: DbKind::BadLine, line: 18 },
    // windows-cut
    NoDatabase { text: b"covered-db 2\ntop ff\nsource 1 ff.v\ninstance ff ff\npoints 11\nl ff 1 1:3 if = hit\nl ff 2 1:3 assign = hit\nl ff 3 1:3 assign = missed\nc ff 1 1:3 value 0 = missed\nc ff 1 1:3 value 1 = hit\nt ff a - 01 = missed\nt ff a - 10 = missed\nt ff clk - 01 = hit\nt ff clk - 10 = missed\nt ff q - 01 = missed\nt ff q - 10 = missed\nwindows 1\nwindow 0 10\n", kind: DbKind::BadLine, line: 19 },
    // windows-cut-before-wrong-count
    NoDatabase { text: b"covered-db 2\ntop ff\nsource 1 ff.v\ninstance ff ff\npoints 11\nl ff 1 1:3 if = hit\nl ff 2 1:3 assign = hit\nl ff 3 1:3 assign = missed\nc ff 1 1:3 value 0 = missed\nc ff 1 1:3 value 1 = hit\nt ff a - 01 = missed\nt ff a - 10 = missed\nt ff clk - 01 = hit\nt ff clk - 10 = missed\nt ff q - 01 = missed\nt ff q - 10 = missed\nwindows 2\nwindow 0 10\n", kind: DbKind::BadLine, line: 19 },
    // windows-do-not-rise
    NoDatabase { text: b"covered-db 2\ntop ff\nsource 1 ff.v\ninstance ff ff\npoints 11\nl ff 1 1:3 if = hit\nl ff 2 1:3 assign = hit\nl ff 3 1:3 assign = missed\nc ff 1 1:3 value 0 = missed\nc ff 1 1:3 value 1 = hit\nt ff a - 01 = missed\nt ff a - 10 = missed\nt ff clk - 01 = hit\nt ff clk - 10 = missed\nt ff q - 01 = missed\nt ff q - 10 = missed\nwindows 2\nwindow 20 30\nwindow 0 10\nend\n", kind: DbKind::BadLine, line: 19 },
    // windows-equal
    NoDatabase { text: b"covered-db 2\ntop ff\nsource 1 ff.v\ninstance ff ff\npoints 11\nl ff 1 1:3 if = hit\nl ff 2 1:3 assign = hit\nl ff 3 1:3 assign = missed\nc ff 1 1:3 value 0 = missed\nc ff 1 1:3 value 1 = hit\nt ff a - 01 = missed\nt ff a - 10 = missed\nt ff clk - 01 = hit\nt ff clk - 10 = missed\nt ff q - 01 = missed\nt ff q - 10 = missed\nwindows 2\nwindow 0 10\nwindow 0 10\nend\n", kind: DbKind::BadLine, line: 19 },
    // windows-in-version-one
    NoDatabase { text: b"covered-db 1\ntop ff\nsource 1 ff.v\ninstance ff ff\npoints 11\nl ff 1 1:3 if = hit\nl ff 2 1:3 assign = hit\nl ff 3 1:3 assign = missed\nc ff 1 1:3 value 0 = missed\nc ff 1 1:3 value 1 = hit\nt ff a - 01 = missed\nt ff a - 10 = missed\nt ff clk - 01 = hit\nt ff clk - 10 = missed\nt ff q - 01 = missed\nt ff q - 10 = missed\nwindows 1\nwindow 0 10\nend\n", kind: DbKind::BadLine, line: 17 },
    // windows-missing
    NoDatabase { text: b"covered-db 2\ntop ff\nsource 1 ff.v\ninstance ff ff\npoints 11\nl ff 1 1:3 if = hit\nl ff 2 1:3 assign = hit\nl ff 3 1:3 assign = missed\nc ff 1 1:3 value 0 = missed\nc ff 1 1:3 value 1 = hit\nt ff a - 01 = missed\nt ff a - 10 = missed\nt ff clk - 01 = hit\nt ff clk - 10 = missed\nt ff q - 01 = missed\nt ff q - 10 = missed\nend\n", kind: DbKind::BadLine, line: 17 },
    // windows-wrong-count
    NoDatabase { text: b"covered-db 2\ntop ff\nsource 1 ff.v\ninstance ff ff\npoints 11\nl ff 1 1:3 if = hit\nl ff 2 1:3 assign = hit\nl ff 3 1:3 assign = missed\nc ff 1 1:3 value 0 = missed\nc ff 1 1:3 value 1 = hit\nt ff a - 01 = missed\nt ff a - 10 = missed\nt ff clk - 01 = hit\nt ff clk - 10 = missed\nt ff q - 01 = missed\nt ff q - 10 = missed\nwindows 2\nwindow 0 10\nend\n", kind: DbKind::WrongCount, line: 17 },
];

#[rattlefmt::skip]
pub(crate) const OTHER_DESIGNS: [OtherDesign; 8] = [
    // merge-different-count
    OtherDesign { left: b"covered-db 1\ntop m\nsource 1 m.v\ninstance m m\npoints 2\nt m a - 01 = hit\nt m a - 10 = missed\nend\n", right: b"covered-db 1\ntop m\nsource 1 m.v\ninstance m m\npoints 4\nt m a - 01 = missed\nt m a - 10 = missed\nt m b - 01 = missed\nt m b - 10 = missed\nend\n", line: 5, first: b"points 2", second: b"points 4" },
    // merge-different-designs
    OtherDesign { left: b"covered-db 1\ntop ff\nsource 1 ff.v\ninstance ff ff\npoints 11\nl ff 1 1:3 if = hit\nl ff 2 1:3 assign = hit\nl ff 3 1:3 assign = missed\nc ff 1 1:3 value 0 = missed\nc ff 1 1:3 value 1 = hit\nt ff a - 01 = missed\nt ff a - 10 = missed\nt ff clk - 01 = hit\nt ff clk - 10 = missed\nt ff q - 01 = missed\nt ff q - 10 = missed\nend\n", right: b"covered-db 1\ntop ffr\nsource 1 ffr.v\ninstance ffr ffr\npoints 13\nl ffr 1 1:3 if = ? 5 ffr.clk\nl ffr 2 1:3 assign = ? 5 ffr.clk\nl ffr 3 1:4 assign = ? 5 ffr.clk\nc ffr 1 1:3 ! 0 = ? 5 ffr.clk\nc ffr 1 1:3 ! 1 = ? 5 ffr.clk\nt ffr clk - 01 = hit\nt ffr clk - 10 = missed\nt ffr d - 01 = missed\nt ffr d - 10 = missed\nt ffr q - 01 = missed\nt ffr q - 10 = missed\nt ffr rst_n - 01 = missed\nt ffr rst_n - 10 = hit\nend\n", line: 2, first: b"top ff", second: b"top ffr" },
    // merge-different-point
    OtherDesign { left: b"covered-db 1\ntop m\nsource 1 m.v\ninstance m m\npoints 2\nt m a - 01 = hit\nt m a - 10 = missed\nend\n", right: b"covered-db 1\ntop m\nsource 1 m.v\ninstance m m\npoints 2\nt m b - 01 = hit\nt m b - 10 = missed\nend\n", line: 6, first: b"t m a - 01", second: b"t m b - 01" },
    // merge-different-source
    OtherDesign { left: b"covered-db 1\ntop m\nsource 1 m.v\ninstance m m\npoints 2\nt m a - 01 = hit\nt m a - 10 = missed\nend\n", right: b"covered-db 1\ntop m\nsource 1 n.v\ninstance m m\npoints 2\nt m a - 01 = missed\nt m a - 10 = missed\nend\n", line: 3, first: b"source 1 m.v", second: b"source 1 n.v" },
    // merge-different-third-design
    OtherDesign { left: b"covered-db 1\ntop ff\nsource 1 ff.v\ninstance ff ff\npoints 11\nl ff 1 1:3 if = hit\nl ff 2 1:3 assign = hit\nl ff 3 1:3 assign = missed\nc ff 1 1:3 value 0 = missed\nc ff 1 1:3 value 1 = hit\nt ff a - 01 = missed\nt ff a - 10 = missed\nt ff clk - 01 = hit\nt ff clk - 10 = missed\nt ff q - 01 = missed\nt ff q - 10 = missed\nend\n", right: b"covered-db 1\ntop ffr\nsource 1 ffr.v\ninstance ffr ffr\npoints 13\nl ffr 1 1:3 if = ? 5 ffr.clk\nl ffr 2 1:3 assign = ? 5 ffr.clk\nl ffr 3 1:4 assign = ? 5 ffr.clk\nc ffr 1 1:3 ! 0 = ? 5 ffr.clk\nc ffr 1 1:3 ! 1 = ? 5 ffr.clk\nt ffr clk - 01 = hit\nt ffr clk - 10 = missed\nt ffr d - 01 = missed\nt ffr d - 10 = missed\nt ffr q - 01 = missed\nt ffr q - 10 = missed\nt ffr rst_n - 01 = missed\nt ffr rst_n - 10 = hit\nend\n", line: 2, first: b"top ff", second: b"top ffr" },
    // merge-differs-before-absent-file
    OtherDesign { left: b"covered-db 1\ntop ff\nsource 1 ff.v\ninstance ff ff\npoints 11\nl ff 1 1:3 if = hit\nl ff 2 1:3 assign = hit\nl ff 3 1:3 assign = missed\nc ff 1 1:3 value 0 = missed\nc ff 1 1:3 value 1 = hit\nt ff a - 01 = missed\nt ff a - 10 = missed\nt ff clk - 01 = hit\nt ff clk - 10 = missed\nt ff q - 01 = missed\nt ff q - 10 = missed\nend\n", right: b"covered-db 1\ntop ffr\nsource 1 ffr.v\ninstance ffr ffr\npoints 13\nl ffr 1 1:3 if = ? 5 ffr.clk\nl ffr 2 1:3 assign = ? 5 ffr.clk\nl ffr 3 1:4 assign = ? 5 ffr.clk\nc ffr 1 1:3 ! 0 = ? 5 ffr.clk\nc ffr 1 1:3 ! 1 = ? 5 ffr.clk\nt ffr clk - 01 = hit\nt ffr clk - 10 = missed\nt ffr d - 01 = missed\nt ffr d - 10 = missed\nt ffr q - 01 = missed\nt ffr q - 10 = missed\nt ffr rst_n - 01 = missed\nt ffr rst_n - 10 = hit\nend\n", line: 2, first: b"top ff", second: b"top ffr" },
    // merge-first-fault-decides
    OtherDesign { left: b"covered-db 1\ntop ff\nsource 1 ff.v\ninstance ff ff\npoints 11\nl ff 1 1:3 if = hit\nl ff 2 1:3 assign = hit\nl ff 3 1:3 assign = missed\nc ff 1 1:3 value 0 = missed\nc ff 1 1:3 value 1 = hit\nt ff a - 01 = missed\nt ff a - 10 = missed\nt ff clk - 01 = hit\nt ff clk - 10 = missed\nt ff q - 01 = missed\nt ff q - 10 = missed\nend\n", right: b"covered-db 1\ntop ffr\nsource 1 ffr.v\ninstance ffr ffr\npoints 13\nl ffr 1 1:3 if = ? 5 ffr.clk\nl ffr 2 1:3 assign = ? 5 ffr.clk\nl ffr 3 1:4 assign = ? 5 ffr.clk\nc ffr 1 1:3 ! 0 = ? 5 ffr.clk\nc ffr 1 1:3 ! 1 = ? 5 ffr.clk\nt ffr clk - 01 = hit\nt ffr clk - 10 = missed\nt ffr d - 01 = missed\nt ffr d - 10 = missed\nt ffr q - 01 = missed\nt ffr q - 10 = missed\nt ffr rst_n - 01 = missed\nt ffr rst_n - 10 = hit\nend\n", line: 2, first: b"top ff", second: b"top ffr" },
    // merge-keeps-output-on-refusal
    OtherDesign { left: b"covered-db 1\ntop ff\nsource 1 ff.v\ninstance ff ff\npoints 11\nl ff 1 1:3 if = hit\nl ff 2 1:3 assign = hit\nl ff 3 1:3 assign = missed\nc ff 1 1:3 value 0 = missed\nc ff 1 1:3 value 1 = hit\nt ff a - 01 = missed\nt ff a - 10 = missed\nt ff clk - 01 = hit\nt ff clk - 10 = missed\nt ff q - 01 = missed\nt ff q - 10 = missed\nend\n", right: b"covered-db 1\ntop ffr\nsource 1 ffr.v\ninstance ffr ffr\npoints 13\nl ffr 1 1:3 if = ? 5 ffr.clk\nl ffr 2 1:3 assign = ? 5 ffr.clk\nl ffr 3 1:4 assign = ? 5 ffr.clk\nc ffr 1 1:3 ! 0 = ? 5 ffr.clk\nc ffr 1 1:3 ! 1 = ? 5 ffr.clk\nt ffr clk - 01 = hit\nt ffr clk - 10 = missed\nt ffr d - 01 = missed\nt ffr d - 10 = missed\nt ffr q - 01 = missed\nt ffr q - 10 = missed\nt ffr rst_n - 01 = missed\nt ffr rst_n - 10 = hit\nend\n", line: 2, first: b"top ff", second: b"top ffr" },
];

#[rattlefmt::skip]
pub(crate) const MERGES: [Merged; 9] = [
    // merge-doubt-by-number-windows
    Merged { inputs: &[b"covered-db 2\ntop m\nsource 1 m.v\ninstance m m\npoints 2\nt m a - 01 = ? 9 m.z\nt m a - 10 = missed\nwindows 1\nwindow 0 30\nend\n", b"covered-db 2\ntop m\nsource 1 m.v\ninstance m m\npoints 2\nt m a - 01 = ? 10 m.a\nt m a - 10 = missed\nwindows 1\nwindow 0 30\nend\n"], text: b"covered-db 2\ntop m\nsource 1 m.v\ninstance m m\npoints 2\nt m a - 01 = ? 9 m.z\nt m a - 10 = missed\nwindows 1\nwindow 0 30\nend\n" },
    // merge-doubt-by-path-windows
    Merged { inputs: &[b"covered-db 2\ntop m\nsource 1 m.v\ninstance m m\npoints 2\nt m a - 01 = ? 10 m.c\nt m a - 10 = missed\nwindows 1\nwindow 0 30\nend\n", b"covered-db 2\ntop m\nsource 1 m.v\ninstance m m\npoints 2\nt m a - 01 = ? 10 m.b\nt m a - 10 = missed\nwindows 1\nwindow 0 30\nend\n"], text: b"covered-db 2\ntop m\nsource 1 m.v\ninstance m m\npoints 2\nt m a - 01 = ? 10 m.b\nt m a - 10 = missed\nwindows 1\nwindow 0 30\nend\n" },
    // merge-earlier-doubt-windows
    Merged { inputs: &[b"covered-db 2\ntop m\nsource 1 m.v\ninstance m m\npoints 2\nt m a - 01 = ? 20 m.b\nt m a - 10 = missed\nwindows 1\nwindow 0 30\nend\n", b"covered-db 2\ntop m\nsource 1 m.v\ninstance m m\npoints 2\nt m a - 01 = ? 10 m.c\nt m a - 10 = missed\nwindows 1\nwindow 0 30\nend\n"], text: b"covered-db 2\ntop m\nsource 1 m.v\ninstance m m\npoints 2\nt m a - 01 = ? 10 m.c\nt m a - 10 = missed\nwindows 1\nwindow 0 30\nend\n" },
    // merge-joins-windows
    Merged { inputs: &[b"covered-db 2\ntop ff\nsource 1 ff.v\ninstance ff ff\npoints 11\nl ff 1 1:3 if = hit\nl ff 2 1:3 assign = hit\nl ff 3 1:3 assign = missed\nc ff 1 1:3 value 0 = missed\nc ff 1 1:3 value 1 = hit\nt ff a - 01 = missed\nt ff a - 10 = missed\nt ff clk - 01 = hit\nt ff clk - 10 = missed\nt ff q - 01 = missed\nt ff q - 10 = missed\nwindows 2\nwindow 0 10\nwindow 20 30\nend\n", b"covered-db 2\ntop ff\nsource 1 ff.v\ninstance ff ff\npoints 11\nl ff 1 1:3 if = hit\nl ff 2 1:3 assign = missed\nl ff 3 1:3 assign = missed\nc ff 1 1:3 value 0 = missed\nc ff 1 1:3 value 1 = missed\nt ff a - 01 = missed\nt ff a - 10 = missed\nt ff clk - 01 = missed\nt ff clk - 10 = missed\nt ff q - 01 = missed\nt ff q - 10 = missed\nwindows 3\nwindow 0 8\nwindow 20 30\nwindow 40 50\nend\n"], text: b"covered-db 2\ntop ff\nsource 1 ff.v\ninstance ff ff\npoints 11\nl ff 1 1:3 if = hit\nl ff 2 1:3 assign = hit\nl ff 3 1:3 assign = missed\nc ff 1 1:3 value 0 = missed\nc ff 1 1:3 value 1 = hit\nt ff a - 01 = missed\nt ff a - 10 = missed\nt ff clk - 01 = hit\nt ff clk - 10 = missed\nt ff q - 01 = missed\nt ff q - 10 = missed\nwindows 4\nwindow 0 8\nwindow 0 10\nwindow 20 30\nwindow 40 50\nend\n" },
    // merge-registers-other-order-windows
    Merged { inputs: &[b"covered-db 2\ntop ff\nsource 1 ff.v\ninstance ff ff\npoints 11\nl ff 1 1:3 if = hit\nl ff 2 1:3 assign = ? 5 ff.a\nl ff 3 1:3 assign = ? 5 ff.a\nc ff 1 1:3 value 0 = ? 5 ff.a\nc ff 1 1:3 value 1 = ? 5 ff.a\nt ff a - 01 = missed\nt ff a - 10 = hit\nt ff clk - 01 = hit\nt ff clk - 10 = missed\nt ff q - 01 = missed\nt ff q - 10 = missed\nwindows 1\nwindow 0 10\nend\n", b"covered-db 2\ntop ff\nsource 1 ff.v\ninstance ff ff\npoints 11\nl ff 1 1:3 if = hit\nl ff 2 1:3 assign = hit\nl ff 3 1:3 assign = missed\nc ff 1 1:3 value 0 = missed\nc ff 1 1:3 value 1 = hit\nt ff a - 01 = missed\nt ff a - 10 = missed\nt ff clk - 01 = hit\nt ff clk - 10 = missed\nt ff q - 01 = missed\nt ff q - 10 = missed\nwindows 1\nwindow 0 10\nend\n"], text: b"covered-db 2\ntop ff\nsource 1 ff.v\ninstance ff ff\npoints 11\nl ff 1 1:3 if = hit\nl ff 2 1:3 assign = hit\nl ff 3 1:3 assign = ? 5 ff.a\nc ff 1 1:3 value 0 = ? 5 ff.a\nc ff 1 1:3 value 1 = hit\nt ff a - 01 = missed\nt ff a - 10 = hit\nt ff clk - 01 = hit\nt ff clk - 10 = missed\nt ff q - 01 = missed\nt ff q - 10 = missed\nwindows 1\nwindow 0 10\nend\n" },
    // merge-registers-windows
    Merged { inputs: &[b"covered-db 2\ntop ff\nsource 1 ff.v\ninstance ff ff\npoints 11\nl ff 1 1:3 if = hit\nl ff 2 1:3 assign = hit\nl ff 3 1:3 assign = missed\nc ff 1 1:3 value 0 = missed\nc ff 1 1:3 value 1 = hit\nt ff a - 01 = missed\nt ff a - 10 = missed\nt ff clk - 01 = hit\nt ff clk - 10 = missed\nt ff q - 01 = missed\nt ff q - 10 = missed\nwindows 1\nwindow 0 10\nend\n", b"covered-db 2\ntop ff\nsource 1 ff.v\ninstance ff ff\npoints 11\nl ff 1 1:3 if = hit\nl ff 2 1:3 assign = ? 5 ff.a\nl ff 3 1:3 assign = ? 5 ff.a\nc ff 1 1:3 value 0 = ? 5 ff.a\nc ff 1 1:3 value 1 = ? 5 ff.a\nt ff a - 01 = missed\nt ff a - 10 = hit\nt ff clk - 01 = hit\nt ff clk - 10 = missed\nt ff q - 01 = missed\nt ff q - 10 = missed\nwindows 1\nwindow 0 10\nend\n"], text: b"covered-db 2\ntop ff\nsource 1 ff.v\ninstance ff ff\npoints 11\nl ff 1 1:3 if = hit\nl ff 2 1:3 assign = hit\nl ff 3 1:3 assign = ? 5 ff.a\nc ff 1 1:3 value 0 = ? 5 ff.a\nc ff 1 1:3 value 1 = hit\nt ff a - 01 = missed\nt ff a - 10 = hit\nt ff clk - 01 = hit\nt ff clk - 10 = missed\nt ff q - 01 = missed\nt ff q - 10 = missed\nwindows 1\nwindow 0 10\nend\n" },
    // merge-texts-without-windows
    Merged { inputs: &[b"covered-db 1\ntop ff\nsource 1 ff.v\ninstance ff ff\npoints 11\nl ff 1 1:3 if = hit\nl ff 2 1:3 assign = hit\nl ff 3 1:3 assign = missed\nc ff 1 1:3 value 0 = missed\nc ff 1 1:3 value 1 = hit\nt ff a - 01 = missed\nt ff a - 10 = missed\nt ff clk - 01 = hit\nt ff clk - 10 = missed\nt ff q - 01 = missed\nt ff q - 10 = missed\nend\n", b"covered-db 1\ntop ff\nsource 1 ff.v\ninstance ff ff\npoints 11\nl ff 1 1:3 if = hit\nl ff 2 1:3 assign = ? 5 ff.a\nl ff 3 1:3 assign = ? 5 ff.a\nc ff 1 1:3 value 0 = ? 5 ff.a\nc ff 1 1:3 value 1 = ? 5 ff.a\nt ff a - 01 = missed\nt ff a - 10 = hit\nt ff clk - 01 = hit\nt ff clk - 10 = missed\nt ff q - 01 = missed\nt ff q - 10 = missed\nend\n"], text: b"covered-db 2\ntop ff\nsource 1 ff.v\ninstance ff ff\npoints 11\nl ff 1 1:3 if = hit\nl ff 2 1:3 assign = hit\nl ff 3 1:3 assign = ? 5 ff.a\nc ff 1 1:3 value 0 = ? 5 ff.a\nc ff 1 1:3 value 1 = hit\nt ff a - 01 = missed\nt ff a - 10 = hit\nt ff clk - 01 = hit\nt ff clk - 10 = missed\nt ff q - 01 = missed\nt ff q - 10 = missed\nwindows 0\nend\n" },
    // merge-versions
    Merged { inputs: &[b"covered-db 1\ntop ff\nsource 1 ff.v\ninstance ff ff\npoints 11\nl ff 1 1:3 if = hit\nl ff 2 1:3 assign = hit\nl ff 3 1:3 assign = missed\nc ff 1 1:3 value 0 = missed\nc ff 1 1:3 value 1 = hit\nt ff a - 01 = missed\nt ff a - 10 = missed\nt ff clk - 01 = hit\nt ff clk - 10 = missed\nt ff q - 01 = missed\nt ff q - 10 = missed\nend\n", b"covered-db 2\ntop ff\nsource 1 ff.v\ninstance ff ff\npoints 11\nl ff 1 1:3 if = hit\nl ff 2 1:3 assign = hit\nl ff 3 1:3 assign = missed\nc ff 1 1:3 value 0 = missed\nc ff 1 1:3 value 1 = hit\nt ff a - 01 = missed\nt ff a - 10 = missed\nt ff clk - 01 = hit\nt ff clk - 10 = missed\nt ff q - 01 = missed\nt ff q - 10 = missed\nwindows 1\nwindow 0 10\nend\n"], text: b"covered-db 2\ntop ff\nsource 1 ff.v\ninstance ff ff\npoints 11\nl ff 1 1:3 if = hit\nl ff 2 1:3 assign = hit\nl ff 3 1:3 assign = missed\nc ff 1 1:3 value 0 = missed\nc ff 1 1:3 value 1 = hit\nt ff a - 01 = missed\nt ff a - 10 = missed\nt ff clk - 01 = hit\nt ff clk - 10 = missed\nt ff q - 01 = missed\nt ff q - 10 = missed\nwindows 1\nwindow 0 10\nend\n" },
    // merge-with-itself-windows
    Merged { inputs: &[b"covered-db 2\ntop ff\nsource 1 ff.v\ninstance ff ff\npoints 11\nl ff 1 1:3 if = hit\nl ff 2 1:3 assign = ? 5 ff.a\nl ff 3 1:3 assign = ? 5 ff.a\nc ff 1 1:3 value 0 = ? 5 ff.a\nc ff 1 1:3 value 1 = ? 5 ff.a\nt ff a - 01 = missed\nt ff a - 10 = hit\nt ff clk - 01 = hit\nt ff clk - 10 = missed\nt ff q - 01 = missed\nt ff q - 10 = missed\nwindows 1\nwindow 0 10\nend\n", b"covered-db 2\ntop ff\nsource 1 ff.v\ninstance ff ff\npoints 11\nl ff 1 1:3 if = hit\nl ff 2 1:3 assign = ? 5 ff.a\nl ff 3 1:3 assign = ? 5 ff.a\nc ff 1 1:3 value 0 = ? 5 ff.a\nc ff 1 1:3 value 1 = ? 5 ff.a\nt ff a - 01 = missed\nt ff a - 10 = hit\nt ff clk - 01 = hit\nt ff clk - 10 = missed\nt ff q - 01 = missed\nt ff q - 10 = missed\nwindows 1\nwindow 0 10\nend\n"], text: b"covered-db 2\ntop ff\nsource 1 ff.v\ninstance ff ff\npoints 11\nl ff 1 1:3 if = hit\nl ff 2 1:3 assign = ? 5 ff.a\nl ff 3 1:3 assign = ? 5 ff.a\nc ff 1 1:3 value 0 = ? 5 ff.a\nc ff 1 1:3 value 1 = ? 5 ff.a\nt ff a - 01 = missed\nt ff a - 10 = hit\nt ff clk - 01 = hit\nt ff clk - 10 = missed\nt ff q - 01 = missed\nt ff q - 10 = missed\nwindows 1\nwindow 0 10\nend\n" },
];
