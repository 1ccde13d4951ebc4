//! The verdicts of a table.

ghost use Rattle.std.specs.Prelude.{◌≡◌, ◌<◌, ◌^◌, All, IfOk, OnOk, length, slice_index_or};
ghost use Rattle.design_model.specs.View.{design_view};
ghost use Rattle.point_table.specs.Addresses.{addresses_of};
ghost use Rattle.point_table.specs.Verdicts.{AreShown, IsOfDesign, row_verdict};

use cov_host::NoMemory;
use cover_marks::{Marks, Verdict};
use coverage_db::{DbPoint, DbVerdict};
use design_model::Design;
use std::alloc::Global;

/// The points, each with the verdict of its marks.
pub(crate) fn with_verdicts(
    alloc: Global,
    design: &Design,
    marks: &Marks,
    points: Vec<DbPoint>,
) -> Result<Vec<DbPoint>, NoMemory>
    requires count { length points.items ≡ length marks.now.verdicts }
    requires few { length points.items < 2 ^ 32 }
    requires things { All (IsOfDesign (design_view design.now)) marks.now.verdicts }
    ensures points { IfOk result (λ filled. addresses_of filled.items ≡ addresses_of points.items) }
    ensures verdicts { IfOk result (λ filled. AreShown (design_view design.now) marks.now.verdicts filled.items) }
{
    let mut points = points;
    fill_verdicts(alloc, design, marks, points.as_mut_slice())?;
    Ok(points)
}

/// Gives each point the verdict of its marks.
fn fill_verdicts(
    alloc: Global,
    design: &Design,
    marks: &Marks,
    points: &mut [DbPoint],
) -> Result<(), NoMemory>
    requires count { length points.old ≡ length marks.now.verdicts }
    requires few { length points.old < 2 ^ 32 }
    requires things { All (IsOfDesign (design_view design.now)) marks.now.verdicts }
    ensures points { addresses_of points.new ≡ addresses_of points.old }
    ensures verdicts { OnOk result (AreShown (design_view design.now) marks.now.verdicts points.new) }
{
    for number in 0..points.len() {
        points[number].verdict = verdict_at(alloc, design, marks, number as u32)?;
    }
    Ok(())
}

/// The verdict of the point with this number.
fn verdict_at(
    alloc: Global,
    design: &Design,
    marks: &Marks,
    number: u32,
) -> Result<DbVerdict, NoMemory>
    requires number { number < length marks.now.verdicts }
    requires things { All (IsOfDesign (design_view design.now)) marks.now.verdicts }
    ensures { IfOk result (λ row. row ≡ row_verdict (design_view design.now) (slice_index_or marks.now.verdicts number Verdict.Missed)) }
{
    row_verdict(alloc, design, marks.verdict(number))
}

/// A verdict as a table has it.
fn row_verdict(alloc: Global, design: &Design, verdict: Verdict) -> Result<DbVerdict, NoMemory>
    requires { IsOfDesign (design_view design.now) verdict }
    ensures { IfOk result (λ row. row ≡ row_verdict (design_view design.now) verdict) }
{
    match verdict {
        Verdict::Hit => Ok(DbVerdict::Hit),
        Verdict::Missed => Ok(DbVerdict::Missed),
        Verdict::Undetermined(doubt) => Ok(DbVerdict::Undetermined {
            time: doubt.time,
            path: design.path(alloc, doubt.thing)?,
        }),
    }
}
