ghost use Rattle.std.specs.Prelude.{◌≡◌, length, IfOk, IfErr};
ghost use Rattle.coverage_db.specs.Merge.{merged, SameDesign, Refuses, merged_points};
ghost use Rattle.coverage_db.specs.Table.{IsTable};

use crate::bare_line::bare_line;
use crate::difference::first_difference;
use crate::window_join::join_windows;
use crate::{Db, DbPoint, MergeFault};
use cov_host::{NoMemory, Sequence};
use std::alloc::Global;

/// The table of two tables of one design, with the windows of both. The left one is consumed also on a refusal.
pub fn merge(alloc: Global, left: Db, right: &Db) -> Result<Db, MergeFault>
    requires left { IsTable left }
    requires right { IsTable right.now }
    ensures table { IfOk result (λ db. IsTable db) }
    ensures same { IfOk result (λ db. SameDesign left right.now) }
    ensures merged { IfOk result (λ db. db ≡ merged left right.now) }
    ensures differ { IfErr result (λ fault. Refuses left right.now fault) }
{
    if let Some(place) = first_difference(&left, right) {
        return Err(MergeFault::DesignsDiffer {
            line: place as u32 + 1,
            left: bare_line(alloc, &left, place)?,
            right: bare_line(alloc, right, place)?,
        });
    }
    let Db {
        top,
        sources,
        instances,
        points,
        windows,
    } = left;
    Ok(Db {
        top,
        sources,
        instances,
        points: merge_points(alloc, points, right.points.as_slice())?,
        windows: join_windows(alloc, windows.as_slice(), right.windows.as_slice())?,
    })
}

/// The points, each with the joined verdict.
fn merge_points(
    alloc: Global,
    points: Sequence<DbPoint>,
    others: &[DbPoint],
) -> Result<Sequence<DbPoint>, NoMemory>
    requires { length points ≡ length others.now }
    ensures { IfOk result (λ merged. merged ≡ merged_points points others.now) }
{
    let mut points = points.into_vec();
    for (place, other) in others.iter().enumerate() {
        let point = &mut points[place];
        point.verdict.join(alloc, &other.verdict)?;
    }
    Ok(Sequence::from_vec(points))
}
