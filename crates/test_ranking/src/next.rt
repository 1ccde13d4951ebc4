ghost use Rattle.std.specs.Prelude.{◌≡◌, ◌≤◌, ◌<◌, ◌+◌, ◌^◌, All, IfNone, IfSome, length};
ghost use Rattle.test_ranking.specs.Candidate.{AreBounds, IsBest};
ghost use Rattle.test_ranking.specs.PointSet.{size};
ghost use Rattle.test_ranking.specs.Ranking.{IsNext, NoneAdds, gain};

use crate::candidate::Candidate;
use crate::{HitSet, Use};

/// The next table to be used, where these points are hit, `total` in number. The last count of each table is a bound of
/// what it adds, since what is added becomes less as more points are hit.
pub(crate) fn next_table(
    tables: &[HitSet],
    hit: &HitSet,
    total: u32,
    counts: &mut [u32],
) -> Option<Use>
    requires short { length hit.now < 2 ^ 32 }
    requires sets { All (λ set. length hit.now ≡ length set) tables.now }
    requires total { total ≡ size hit.now }
    requires long { length counts.old ≡ length tables.now }
    requires bounds { AreBounds tables.now hit.now counts.old }
    ensures next { IfSome result (IsNext tables.now hit.now) }
    ensures none { IfNone result (NoneAdds tables.now hit.now) }
    ensures bounds { AreBounds tables.now hit.now counts.new }
{
    let start = greatest(counts);
    let set = tables.get(start)?;
    let start = Candidate {
        table: start,
        added: hit.gain(set, total),
    };
    let best = best_table(tables, hit, total, counts, start);
    if best.added == 0 {
        return None;
    }
    Some(Use {
        table: best.table,
        added: best.added,
        total: total + best.added,
    })
}

/// The first place of a greatest count.
fn greatest(counts: &[u32]) -> usize
    ensures { 0 < length counts.now → result < length counts.now }
{
    let mut best = 0;
    for (place, count) in counts.iter().enumerate() {
        if *count > counts[best] {
            best = place;
        }
    }
    best
}

/// The first of the tables that add the most, from one of them on.
fn best_table(
    tables: &[HitSet],
    hit: &HitSet,
    total: u32,
    counts: &mut [u32],
    start: Candidate,
) -> Candidate
    requires sets { All (λ set. length hit.now ≡ length set) tables.now }
    requires total { total ≡ size hit.now }
    requires long { length counts.old ≡ length tables.now }
    requires bounds { AreBounds tables.now hit.now counts.old }
    requires start { start.table < length tables.now }
    requires added { start.added ≡ gain tables.now hit.now start.table }
    ensures best { IsBest tables.now hit.now (length tables.now) result }
    ensures bounds { AreBounds tables.now hit.now counts.new }
{
    let mut best = start;
    for (place, count) in counts.iter_mut().enumerate() {
        best = best.better(place, &tables[place], hit, total, count);
    }
    best
}
