ghost use Rattle.std.specs.Prelude.{◌≡◌, ◌≤◌, false, [], ◌∷◌, ◌++◌, length, map, filter, filter_map, bytes_eq, IfOk};
ghost use Rattle.std.specs.List.Sorted.{IsSorted};
ghost use Rattle.std.specs.Ordering.{is_gt};
ghost use Rattle.coverage_db.specs.Table.{IsTable, Rises};
ghost use Rattle.cov_report.specs.Gathered.{placed, gathered};
ghost use Rattle.lcov_text.specs.Points.{trace_point, trace_points, in_section};
ghost use Rattle.lcov_text.specs.Views.{trace_view, traced_cmp, joined_traced};

use crate::traced::{Part, Traced, traced_point};
use cov_host::NoMemory;
use coverage_db::Db;
use std::alloc::Global;

/// The lines and branches of a database in order, those of several instances joined.
pub(crate) fn trace_points(alloc: Global, db: &Db) -> Result<Vec<Traced<'_>>, NoMemory>
    requires { IsTable db.now }
    ensures points { IfOk result (λ points. map trace_view points.items ≡ trace_points db.now) }
    ensures rising { IfOk result (λ points. Rises traced_cmp points.items) }
{
    let mut points = placed_points(alloc, db)?;
    points.sort_by(|left, right| left.compare(right))?;
    join_neighbours(alloc, &points)
}

/// The points that have a place, in the order of the database.
fn placed_points(alloc: Global, db: &Db) -> Result<Vec<Traced<'_>>, NoMemory>
    requires { IsTable db.now }
    ensures { IfOk result (λ points. map trace_view points.items ≡ filter_map (trace_point db.now.instances) db.now.points) }
{
    let instances = db.instances.as_slice();
    let mut points = Vec::with_capacity(alloc, db.points.len())?;
    for point in db.points.as_slice() {
        if let Some(traced) = traced_point(instances, point) {
            points.push(traced)?;
        }
    }
    Ok(points)
}

/// Sorted points, those that the order does not distinguish joined.
fn join_neighbours<'a>(alloc: Global, sorted: &[Traced<'a>]) -> Result<Vec<Traced<'a>>, NoMemory>
    requires { IsSorted traced_cmp sorted.now }
    ensures { IfOk result (λ joined. joined.items ≡ gathered traced_cmp joined_traced sorted.now) }
{
    let Some((first, others)) = sorted.split_first() else {
        return Ok(Vec::new(alloc));
    };
    let mut joined = Vec::with_capacity(alloc, sorted.len())?;
    let mut last = *first;
    for point in others {
        last = follow(&mut joined, last, point)?;
    }
    joined.push(last)?;
    Ok(joined)
}

/// The last point joined with the one that follows it, or the one that follows, where the last one is kept.
fn follow<'a>(
    kept: &mut Vec<Traced<'a>>,
    last: Traced<'a>,
    point: &Traced<'a>,
) -> Result<Traced<'a>, NoMemory>
    requires rising { Rises traced_cmp (kept.old.items ++ last ∷ []) }
    requires upto { is_gt (traced_cmp last point.now) ≡ false }
    ensures { IfOk result (λ next. kept.new.items ++ next ∷ [] ≡ placed traced_cmp joined_traced (kept.old.items ++ last.entry ∷ []) point.now) }
{
    if last.compare(point).is_eq() {
        return Ok(last.joined(point));
    }
    kept.push(last)?;
    Ok(*point)
}

/// The points of one part of the record of a source.
pub(crate) fn points_in<'p, 'a>(
    points: &'p [Traced<'a>],
    source: u32,
    part: Part,
) -> &'p [Traced<'a>]
    requires { Rises traced_cmp points.now }
    ensures { map trace_view result.now ≡ in_section source part (map trace_view points.now) }
{
    let start = points.partition_point(|point| point.compare_section(source, part).is_lt());
    let end = points.partition_point(|point| point.compare_section(source, part).is_le());
    &points[start..end]
}
