//! The hit points of tables that are hit in one way or another.
ghost use Rattle.std.specs.Prelude.{◌≡◌, All, IfOk, length};

use cov_host::{NoMemory, Sequence};
use coverage_db::{Address, Db, DbPoint, DbVerdict, LineWord, SourceLine, Subject};
use std::alloc::Global;
use test_ranking::HitSet;

/// Which points a table has hit.
#[derive(Clone, Copy)]
pub(crate) enum Pattern {
    /// About every second point, by a generator of numbers.
    Half,
    /// The first half of the points, and a few of the others that no other table has.
    Own,
    /// As many points of its own as its number, so that each table adds more than the one before.
    Rising,
}

impl Pattern {
    /// The pattern with this name.
    pub(crate) fn of(name: &str) -> Option<Pattern> {
        match name {
            "half" => Some(Pattern::Half),
            "own" => Some(Pattern::Own),
            "rising" => Some(Pattern::Rising),
            _ => None,
        }
    }
}

/// The sets of hit points of `tables` tables.
pub(crate) fn make_tables(
    alloc: Global,
    pattern: Pattern,
    tables: u32,
    points: u32,
) -> Result<Vec<HitSet>, NoMemory>
    ensures { IfOk result (λ sets. All (λ set. length set ≡ points) sets.items) }
{
    let mut sets = Vec::new(alloc);
    let mut state = 1;
    for table in 0..tables {
        let set = make_set(alloc, pattern, table, points, &mut state)?;
        sets.push(set)?;
    }
    Ok(sets)
}

/// The set of hit points of a table with `count` points.
fn make_set(
    alloc: Global,
    pattern: Pattern,
    table: u32,
    count: u32,
    state: &mut u64,
) -> Result<HitSet, NoMemory>
    ensures { IfOk result (λ set. length set ≡ count) }
{
    let db = Db {
        top: Sequence::new(alloc),
        sources: Sequence::new(alloc),
        instances: Sequence::new(alloc),
        points: make_points(alloc, pattern, table, count, state)?,
        windows: Sequence::new(alloc),
    };
    HitSet::of(alloc, &db)
}

/// The points of a table.
fn make_points(
    alloc: Global,
    pattern: Pattern,
    table: u32,
    count: u32,
    state: &mut u64,
) -> Result<Sequence<DbPoint>, NoMemory>
    ensures { IfOk result (λ points. length points ≡ count) }
{
    let mut points = Sequence::new(alloc);
    for number in 0..count {
        *state = next_state(*state);
        let is_hit = is_hit(pattern, table, number, count, *state);
        points.push(make_point(number, is_hit))?;
    }
    Ok(points)
}

/// The point of the statement with this number.
fn make_point(number: u32, is_hit: bool) -> DbPoint {
    DbPoint {
        address: Address {
            instance: 0,
            subject: Subject::Line {
                number,
                at: SourceLine { source: 1, line: 1 },
                word: LineWord::Assign,
            },
        },
        verdict: if is_hit {
            DbVerdict::Hit
        } else {
            DbVerdict::Missed
        },
    }
}

/// Whether the table has hit the point.
fn is_hit(pattern: Pattern, table: u32, number: u32, count: u32, state: u64) -> bool {
    match pattern {
        Pattern::Half => state / 65536 % 2 == 1,
        Pattern::Own => number < count / 2 || number % 1024 == table % 1024,
        Pattern::Rising => number % 1024 == table % 1024 && number / 1024 <= table / 8,
    }
}

/// The next number of a linear congruential generator (Knuth, MMIX).
fn next_state(state: u64) -> u64 {
    state
        .wrapping_mul(6364136223846793005)
        .wrapping_add(1442695040888963407)
}
