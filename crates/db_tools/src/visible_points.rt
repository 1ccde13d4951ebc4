//! The table of the points that are not excluded.
ghost use Rattle.std.specs.Prelude.{◌≡◌, length, IfOk};
ghost use Rattle.coverage_db.specs.Table.{IsTable};
ghost use Rattle.db_tools.specs.Excluded.{unmarked, visible, without};

use crate::Excluded;
use crate::copies::{copy_instances, copy_name, copy_names, copy_point, copy_windows};
use cov_host::{NoMemory, Sequence};
use coverage_db::{Db, DbPoint};
use std::alloc::Global;

/// The table of the points that are not excluded.
pub fn visible(alloc: Global, excluded: &Excluded) -> Result<Db, NoMemory>
    ensures value { IfOk result (λ db. db ≡ visible excluded.now) }
    ensures table { IfOk result IsTable }
{
    visible_table(alloc, excluded.db(), excluded.marks())
}

/// The table of the points whose mark is not set.
fn visible_table(alloc: Global, db: &Db, marks: &[bool]) -> Result<Db, NoMemory>
    requires { length marks.now ≡ length db.now.points }
    ensures { IfOk result (λ copy. copy ≡ without db.now marks.now) }
{
    Ok(Db {
        top: copy_name(alloc, &db.top)?,
        sources: copy_names(alloc, &db.sources)?,
        instances: copy_instances(alloc, &db.instances)?,
        points: visible_points(alloc, db.points.as_slice(), marks)?,
        windows: copy_windows(alloc, &db.windows)?,
    })
}

/// The points whose mark is not set.
#[tactic(auto, using(crate::proofs::Marks::unmarked_yes, crate::proofs::Marks::unmarked_no))]
fn visible_points(
    alloc: Global,
    points: &[DbPoint],
    marks: &[bool],
) -> Result<Sequence<DbPoint>, NoMemory>
    requires { length marks.now ≡ length points.now }
    ensures { IfOk result (λ seen. seen ≡ unmarked points.now marks.now) }
{
    let mut seen = Sequence::new(alloc);
    for (place, point) in points.iter().enumerate() {
        if !marks[place] {
            seen.push(copy_point(alloc, point)?)?;
        }
    }
    Ok(seen)
}
