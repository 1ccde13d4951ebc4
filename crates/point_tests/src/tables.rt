//! The tables of points, with marks of some of them.

ghost use Rattle.std.specs.Prelude.{◌≡◌, ◌<◌, ◌≤◌, All, IsTrue, length, true};
ghost use Rattle.cover_marks.specs.Marks.{AreMarksOf};
ghost use Rattle.cover_points.specs.Listed.{points_of};
ghost use Rattle.cover_points.specs.Visits.{AreApart, AreOnce, ArePlaced};
ghost use Rattle.cover_points.specs.declared.listing.Points.{Points as ThePoints};
ghost use Rattle.design_model.specs.Design.{is_number};
ghost use Rattle.design_model.specs.View.{design_view};
ghost use Rattle.point_table.specs.Collected.{AreListed};
ghost use Rattle.point_table.specs.Verdicts.{IsOfDesign};

use cov_host::Sequence;
use cover_marks::Marks;
use cover_points::{MOST_POINTS, Points, Visit};
use coverage_db::Db;
use design_model::Design;
use point_table::collect;
use std::alloc::Global;

/// A mark of the point of a visit.
pub(crate) struct Mark {
    pub(crate) visit: Visit,
    /// The thing and the time of a doubt. None where the point is hit.
    pub(crate) doubt: Option<(u32, u64)>,
}

/// The table of points with these marks, in order.
pub(crate) fn table_of(
    alloc: Global,
    design: &Design,
    points: &Points,
    marked: &[Mark],
) -> Option<Db>
    requires listed { AreListed (design_view design.now) points.now }
    requires apart { AreApart points.now }
    requires once { AreOnce points.now }
    requires placed { ArePlaced points.now }
    requires few { length (points_of points.now) ≤ MOST_POINTS }
{
    match Marks::new(alloc, points) {
        Ok(marks) => table_with(alloc, design, points, marked, marks),
        Err(_) => None,
    }
}

/// The table of points with these marks after those that were made already.
fn table_with(
    alloc: Global,
    design: &Design,
    points: &Points,
    marked: &[Mark],
    marks: Marks,
) -> Option<Db>
    requires listed { AreListed (design_view design.now) points.now }
    requires few { length (points_of points.now) ≤ MOST_POINTS }
    requires points { AreMarksOf points.now marks }
    requires things { All (IsOfDesign (design_view design.now)) marks.verdicts }
{
    let mut marks = marks;
    if !add_marks(design, points, marked, &mut marks) {
        return None;
    }
    match collect(
        alloc,
        design,
        points,
        &marks,
        Sequence::new(alloc),
        Sequence::new(alloc),
    ) {
        Ok(table) => Some(table),
        Err(_) => None,
    }
}

/// Whether each of the visits has a point, which is marked, and each doubt a thing of the design.
fn add_marks(design: &Design, points: &Points, marked: &[Mark], marks: &mut Marks) -> bool
    requires few { length (points_of points.now) ≤ MOST_POINTS }
    requires points { AreMarksOf points.now marks.old }
    requires things { All (IsOfDesign (design_view design.now)) marks.old.verdicts }
    ensures points { AreMarksOf points.now marks.new }
    ensures things { All (IsOfDesign (design_view design.now)) marks.new.verdicts }
{
    for mark in marked {
        if !add_mark(design, points, mark, marks) {
            return false;
        }
    }
    true
}

/// Whether the visit has a point, which is marked, and the doubt a thing of the design.
fn add_mark(design: &Design, points: &Points, mark: &Mark, marks: &mut Marks) -> bool
    requires few { length (points_of points.now) ≤ MOST_POINTS }
    requires points { AreMarksOf points.now marks.old }
    requires things { All (IsOfDesign (design_view design.now)) marks.old.verdicts }
    ensures points { AreMarksOf points.now marks.new }
    ensures things { All (IsOfDesign (design_view design.now)) marks.new.verdicts }
{
    let point = marks.point(&mark.visit);
    if point as usize >= count_of(points) {
        return false;
    }
    match mark.doubt {
        None => {
            marks.hit(point);
            true
        }
        Some((thing, time)) => add_doubt(design, point, thing, time, marks),
    }
}

/// Whether the thing is one of the design, which then leaves the point open.
fn add_doubt(design: &Design, point: u32, thing: u32, time: u64, marks: &mut Marks) -> bool
    requires point { point < length marks.old.verdicts }
    requires things { All (IsOfDesign (design_view design.now)) marks.old.verdicts }
    ensures points { (points : ThePoints) → AreMarksOf points marks.old → AreMarksOf points marks.new }
    ensures things { All (IsOfDesign (design_view design.now)) marks.new.verdicts }
{
    let is_known = is_of_design(design, thing);
    if is_known {
        marks.doubt(point, thing, time);
    }
    is_known
}

/// How many points there are.
fn count_of(points: &Points) -> usize
    requires { length (points_of points.now) ≤ MOST_POINTS }
    ensures { result ≡ length (points_of points.now) }
{
    points.lines.len()
        + points.nodes.len()
        + points.toggles.len()
        + points.states.len()
        + points.words.len()
}

/// Whether the number is that of a signal or a memory.
fn is_of_design(design: &Design, thing: u32) -> bool
    ensures { IsTrue result → is_number (design_view design.now) thing ≡ true }
{
    match (thing as usize).checked_sub(design.signals.len()) {
        Some(place) => place < design.memories.len(),
        None => true,
    }
}
