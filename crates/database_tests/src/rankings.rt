//! Rankings of files in memory, and what is reported where there is no ranking.
use crate::words::{rank_of, words_of};
use cov_host::{Calls, NoMemory, Words};
use coverage_db::DbKind;
use database_commands::{CommandFault, run_rank};
use memory_hosts::MemoryHost;
use std::alloc::Global;
use whole_files::Call;

/// Tables of a register, of three runs.
const FIRST: &[u8] =
    b"covered-db 1\ntop ff\nsource 1 ff.v\ninstance ff ff\npoints 11\nl ff 1 1:3 if = hit\nl ff 2 1:3 assign = hit\nl ff 3 1:3 assign = missed\nc ff 1 1:3 value 0 = missed\nc ff 1 1:3 value 1 = hit\nt ff a - 01 = missed\nt ff a - 10 = missed\nt ff clk - 01 = hit\nt ff clk - 10 = missed\nt ff q - 01 = missed\nt ff q - 10 = missed\nend\n";

const SECOND: &[u8] =
    b"covered-db 1\ntop ff\nsource 1 ff.v\ninstance ff ff\npoints 11\nl ff 1 1:3 if = hit\nl ff 2 1:3 assign = ? 5 ff.a\nl ff 3 1:3 assign = ? 5 ff.a\nc ff 1 1:3 value 0 = ? 5 ff.a\nc ff 1 1:3 value 1 = ? 5 ff.a\nt ff a - 01 = missed\nt ff a - 10 = hit\nt ff clk - 01 = hit\nt ff clk - 10 = missed\nt ff q - 01 = missed\nt ff q - 10 = missed\nend\n";

const THIRD: &[u8] =
    b"covered-db 1\ntop ff\nsource 1 ff.v\ninstance ff ff\npoints 11\nl ff 1 1:3 if = hit\nl ff 2 1:3 assign = hit\nl ff 3 1:3 assign = missed\nc ff 1 1:3 value 0 = missed\nc ff 1 1:3 value 1 = hit\nt ff a - 01 = missed\nt ff a - 10 = hit\nt ff clk - 01 = hit\nt ff clk - 10 = missed\nt ff q - 01 = missed\nt ff q - 10 = missed\nend\n";

/// A table of another design.
const OTHER: &[u8] = b"covered-db 1\ntop ffr\nsource 1 ffr.v\ninstance ffr ffr\npoints 0\nend\n";

/// A host with the tables, and a file that is no table.
fn host_with_tables(alloc: Global) -> Result<MemoryHost, NoMemory> {
    let mut host = MemoryHost::new(alloc, Calls::new(alloc))?;
    host.put("t1.db", FIRST)?;
    host.put("t2.db", SECOND)?;
    host.put("t3.db", THIRD)?;
    host.put("t5.db", OTHER)?;
    host.put("bad.db", b"x\n")?;
    Ok(host)
}

/// How a ranking ends.
#[derive(Clone, Copy)]
enum End {
    /// This text is printed.
    Printed(&'static [u8]),
    /// The file is absent.
    Absent(&'static str),
    /// The file is no database from its first line on.
    Bad(&'static str),
    /// The file is of another design than the first.
    Differs(&'static str),
}

/// Whether the ranking ended so, with these bytes printed.
fn is_end(ended: Result<(), CommandFault<'_>>, printed: &[u8], end: End) -> bool {
    match (ended, end) {
        (Ok(()), End::Printed(text)) => printed == text,
        (Err(CommandFault::Files { call, file }), End::Absent(name)) => {
            call == Call::OpenRead && file == name && printed.is_empty()
        }
        (Err(CommandFault::NoDatabase { file, kind, line }), End::Bad(name)) => {
            file == name && kind == DbKind::BadLine && line == Some(1) && printed.is_empty()
        }
        (
            Err(
                CommandFault::DesignsDiffer {
                    file,
                    line,
                    first,
                    other,
                },
            ),
            End::Differs(name),
        ) => {
            file == name
                && line == 2
                && first.as_slice() == b"top ff".as_slice()
                && other.as_slice() == b"top ffr".as_slice()
                && printed.is_empty()
        }
        _ => false,
    }
}

/// Whether the ranking that the words ask for ends so.
fn ranks(alloc: Global, words: &Words, end: End) -> bool {
    let (Some(rank), Ok(mut host)) = (rank_of(words), host_with_tables(alloc)) else {
        return false;
    };
    let ended = run_rank(alloc, &rank, &mut host);
    is_end(ended, host.printed(), end)
}

fn ends(alloc: Global, texts: &[&str], end: End) -> bool {
    match words_of(alloc, texts) {
        Ok(words) => ranks(alloc, &words, end),
        Err(NoMemory) => false,
    }
}

/// Words, and how their ranking ends.
#[rattlefmt::skip]
const RANKINGS: &[(&[&str], End)] = &[
    (&["rank", "t1.db", "t2.db", "t3.db"], End::Printed(b"covered rank 1\nuse 5 5 t3.db\nskip t1.db\nskip t2.db\nhit 5 of 11\n")),
    (&["rank", "t1.db", "t2.db"], End::Printed(b"covered rank 1\nuse 4 4 t1.db\nuse 1 5 t2.db\nhit 5 of 11\n")),
    (&["rank", "t1.db"], End::Printed(b"covered rank 1\nuse 4 4 t1.db\nhit 4 of 11\n")),
    (&["rank", "t1.db", "t1.db"], End::Printed(b"covered rank 1\nuse 4 4 t1.db\nskip t1.db\nhit 4 of 11\n")),
    (&["rank", "t1.db", "t5.db"], End::Differs("t5.db")),
    (&["rank", "t1.db", "t2.db", "t5.db", "t3.db"], End::Differs("t5.db")),
    // all files are read before their designs are compared
    (&["rank", "t1.db", "t5.db", "bad.db"], End::Bad("bad.db")),
    (&["rank", "t1.db", "t5.db", "none.db", "bad.db"], End::Absent("none.db")),
];

#[test]
fn rankings_end_as_they_should(rt: HostRuntime) {
    for (texts, end) in RANKINGS {
        assert!(rt; ends(rt.alloc(), texts, *end));
    }
}
