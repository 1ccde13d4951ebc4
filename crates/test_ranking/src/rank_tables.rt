ghost use Rattle.std.specs.Prelude.{◌≡◌, All, IfOk, length};
ghost use Rattle.test_ranking.specs.Ranking.{IsRanking};

use crate::next::next_table;
use crate::skipped::skipped_tables;
use crate::{HitSet, Ranking};
use cov_host::{NoMemory, Sequence};
use std::alloc::Global;

/// Ranks tables of `points` points by the points that they have hit. A table is counted again only while it could be
/// the next one by its last count.
pub fn rank(alloc: Global, tables: &[HitSet], points: u32) -> Result<Ranking, NoMemory>
    requires { All (λ set. length set ≡ points) tables.now }
    ensures { IfOk result (λ ranking. IsRanking points tables.now ranking) }
{
    let mut hit = HitSet::none(alloc, points)?;
    let mut counts = vec![in alloc; points; tables.len()]?;
    let mut used = Sequence::new(alloc);
    let mut total = 0;
    while let Some(next) = next_table(tables, &hit, total, &mut counts) {
        hit.add(&tables[next.table]);
        total = next.total;
        used.push(next)?;
    }
    let skipped = skipped_tables(alloc, tables.len(), used.as_slice())?;
    Ok(Ranking {
        used,
        skipped,
        hit: total,
        points,
    })
}
