//! Tests of rankings: tables are read, ranked and printed.
ghost use Rattle.std.specs.Prelude.{◌≡◌, All, IfOk, length};

use cov_host::{NoMemory, Text};
use coverage_db::read_db;
use std::alloc::Global;
use test_ranking::{HitSet, rank, ranking_text};

/// Four tables of six points. The table with the greatest gain is first, and then one that adds two more.
const FIRST: &[u8] =
    b"covered-db 1\ntop m\nsource 1 m.v\ninstance m m\npoints 6\nt m a - 01 = hit\nt m a - 10 = hit\nt m b - 01 = hit\nt m b - 10 = missed\nt m c - 01 = missed\nt m c - 10 = ? 5 m.c\nend\n";

const SECOND: &[u8] =
    b"covered-db 1\ntop m\nsource 1 m.v\ninstance m m\npoints 6\nt m a - 01 = missed\nt m a - 10 = missed\nt m b - 01 = hit\nt m b - 10 = hit\nt m c - 01 = missed\nt m c - 10 = ? 5 m.c\nend\n";

const THIRD: &[u8] =
    b"covered-db 1\ntop m\nsource 1 m.v\ninstance m m\npoints 6\nt m a - 01 = missed\nt m a - 10 = missed\nt m b - 01 = missed\nt m b - 10 = hit\nt m c - 01 = hit\nt m c - 10 = ? 5 m.c\nend\n";

const FOURTH: &[u8] =
    b"covered-db 1\ntop m\nsource 1 m.v\ninstance m m\npoints 6\nt m a - 01 = hit\nt m a - 10 = missed\nt m b - 01 = missed\nt m b - 10 = missed\nt m c - 01 = missed\nt m c - 10 = ? 5 m.c\nend\n";

/// A table of which no point is hit.
const NOTHING: &[u8] =
    b"covered-db 1\ntop m\nsource 1 m.v\ninstance m m\npoints 6\nt m a - 01 = missed\nt m a - 10 = missed\nt m b - 01 = missed\nt m b - 10 = missed\nt m c - 01 = missed\nt m c - 10 = ? 5 m.c\nend\n";

/// The set of the points of a text that are hit.
fn set_of(alloc: Global, text: &[u8]) -> Option<HitSet> {
    match read_db(alloc, text) {
        Ok(db) => HitSet::of(alloc, &db).ok(),
        Err(_) => None,
    }
}

/// The sets of the tables of six points.
fn sets_of(alloc: Global, texts: &[&[u8]]) -> Result<Vec<HitSet>, NoMemory>
    ensures { IfOk result (λ sets. All (λ set. length set ≡ 6) sets.items) }
{
    let mut sets = Vec::new(alloc);
    for text in texts {
        match set_of(alloc, text) {
            Some(set) if set.points() == 6 => sets.push(set)?,
            _ => {}
        }
    }
    Ok(sets)
}

/// The text of the ranking of as many tables as there are files, eight at most.
fn ranking_of(alloc: Global, texts: &[&[u8]], files: &[&str]) -> Result<Text, NoMemory> {
    let sets = sets_of(alloc, texts)?;
    if sets.len() != files.len() || sets.len() > 8 {
        return Ok(Text::new(alloc));
    }
    let ranking = rank(alloc, &sets, 6)?;
    ranking_text(alloc, files, &ranking)
}

fn prints(alloc: Global, texts: &[&[u8]], files: &[&str], wanted: &[u8]) -> bool {
    match ranking_of(alloc, texts, files) {
        Ok(text) => text.as_slice() == wanted,
        Err(NoMemory) => false,
    }
}

#[test]
fn the_greatest_gain_is_first(rt: HostRuntime) {
    let texts = [FIRST, SECOND, THIRD, FOURTH];
    let files = ["a.db", "b.db", "c.db", "d.db"];
    let wanted = b"covered rank 1\nuse 3 3 a.db\nuse 2 5 c.db\nskip b.db\nskip d.db\nhit 5 of 6\n";
    assert!(rt; prints(rt.alloc(), &texts, &files, wanted));
}

#[test]
fn of_equal_tables_the_first_is_used(rt: HostRuntime) {
    let texts = [SECOND, THIRD];
    let wanted = b"covered rank 1\nuse 2 2 y.db\nuse 1 3 x.db\nhit 3 of 6\n";
    assert!(rt; prints(rt.alloc(), &texts, &["y.db", "x.db"], wanted));
    let same = [FIRST, FIRST];
    let once = b"covered rank 1\nuse 3 3 b.db\nskip a.db\nhit 3 of 6\n";
    assert!(rt; prints(rt.alloc(), &same, &["b.db", "a.db"], once));
}

#[test]
fn a_table_without_hits_is_skipped(rt: HostRuntime) {
    let wanted = b"covered rank 1\nskip a.db\nhit 0 of 6\n";
    assert!(rt; prints(rt.alloc(), &[NOTHING], &["a.db"], wanted));
}
