//! Measures the list of the points of a design, its marks, and the number of the point of each visit.
ghost use Rattle.std.specs.Prelude.{◌≤◌, length};
ghost use Rattle.cover_points.specs.Listed.{points_of};
ghost use Rattle.cover_points.specs.Visits.{AreApart, AreOnce, ArePlaced};
ghost use Rattle.design_model.specs.Lawful.{IsLawfulDesign};
ghost use Rattle.design_model.specs.View.{design_view};

use crate::visits::sum_of_numbers;
use crate::{Figures, millis_since};
use cover_marks::Marks;
use cover_points::{MOST_POINTS, Points, list};
use design_model::Design;
use state_machines::States;
use std::rt::Clock;
use std::time::Instant;

/// Lists the points of a design, and measures their marks.
pub(crate) fn measure(rt: &(impl AllocGlobal + Clock), design: &Design) -> Option<Figures>
    requires { IsLawfulDesign (design_view design.now) }
{
    let start = Instant::now(rt).ok()?;
    let states = States::new(rt.alloc());
    match list(rt.alloc(), design, &states) {
        Ok(points) => measure_marks(rt, &points, start),
        Err(_) => None,
    }
}

/// Makes the marks of points whose list was begun at `start`, and measures the visits.
fn measure_marks(
    rt: &(impl AllocGlobal + Clock),
    points: &Points,
    start: Instant,
) -> Option<Figures>
    requires apart { AreApart points.now }
    requires once { AreOnce points.now }
    requires placed { ArePlaced points.now }
    requires few { length (points_of points.now) ≤ MOST_POINTS }
{
    let listed = millis_since(rt, start)?;
    match Marks::new(rt.alloc(), points) {
        Ok(marks) => measure_visits(rt, points, &marks, start, listed),
        Err(_) => None,
    }
}

/// Finds each point by its visit. The figures are the milliseconds since `start`, and the sum of the points' numbers.
fn measure_visits(
    rt: &impl Clock,
    points: &Points,
    marks: &Marks,
    start: Instant,
    listed: u128,
) -> Option<Figures> {
    let marked = millis_since(rt, start)?;
    let sum = u128::from(sum_of_numbers(marks, points));
    Some([listed, marked, millis_since(rt, start)?, sum])
}
