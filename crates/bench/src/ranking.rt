//! Measures a ranking of tables that are made by a pattern.
ghost use Rattle.std.specs.Prelude.{◌≡◌, All, length};

use crate::tables::{Pattern, make_tables};
use crate::{Figures, millis_since};
use std::rt::Clock;
use std::time::Instant;
use test_ranking::{HitSet, rank};

/// Ranks tables that are made by a pattern.
pub(crate) fn measure(
    rt: &(impl AllocGlobal + Clock),
    pattern: &str,
    tables: u32,
    points: u32,
) -> Option<Figures> {
    let pattern = Pattern::of(pattern)?;
    match make_tables(rt.alloc(), pattern, tables, points) {
        Ok(sets) => measure_sets(rt, &sets, points),
        Err(_) => None,
    }
}

/// Ranks the sets of hit points of tables. The figures are the milliseconds, how many tables are used, and how many points are
/// hit.
fn measure_sets(rt: &(impl AllocGlobal + Clock), sets: &[HitSet], points: u32) -> Option<Figures>
    requires { All (λ set. length set ≡ points) sets.now }
{
    let start = Instant::now(rt).ok()?;
    match rank(rt.alloc(), sets, points) {
        Ok(ranking) => {
            let used = ranking.used.len() as u128;
            let hit = u128::from(ranking.hit);
            Some([millis_since(rt, start)?, used, hit, 0])
        }
        Err(_) => None,
    }
}
