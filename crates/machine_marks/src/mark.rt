//! The mark of one state or arc.

ghost use Rattle.std.specs.Prelude.{◌≡◌, ◌↔◌, ◌+◌, ◌<◌, ℕ, IsTrue, None, Some, length};
ghost use Rattle.cover_marks.specs.Marks.{AreMarksOf};
ghost use Rattle.cover_points.specs.Visits.{IsMachinePointAt};
ghost use Rattle.machine_marks.specs.Marked.{MarksOne, is_possible, is_sure};

use crate::chance::Chance;
use cover_marks::Marks;
use cover_points::{MachinePoint, Points};

/// What a state or an arc is marked with: the signal and the time of a doubt.
#[derive(Clone, Copy)]
pub(crate) struct Reason {
    pub(crate) signal: u32,
    pub(crate) time: u64,
}

/// Marks a state or an arc as hit where it surely was, and leaves it open where it may have been. One of which there is no point is
/// passed over. It takes constant time.
pub(crate) fn mark_point(
    marks: &mut Marks,
    points: &Points,
    point: MachinePoint,
    chance: Chance,
    reason: Reason,
)
    requires { AreMarksOf points.now marks.old }
    ensures points { AreMarksOf points.now marks.new }
    ensures verdicts { MarksOne points.now point reason (is_sure chance) (is_possible chance) marks.old.verdicts marks.new.verdicts }
{
    if let Some(number) = find(points, marks, point) {
        match chance {
            Chance::Never => {}
            Chance::Open => marks.doubt(number, reason.signal, reason.time),
            Chance::Sure => marks.hit(number),
        }
    }
}

/// The number of the point of a state or an arc, if there is one. It takes constant time.
fn find(points: &Points, marks: &Marks, point: MachinePoint) -> Option<u32>
    ensures found { (k : ℕ) → result ≡ Some k → IsMachinePointAt points.now k point }
    ensures only { (k : ℕ) → AreMarksOf points.now marks.now → IsMachinePointAt points.now k point → result ≡ Some k }
{
    let number = marks.machine_point(point);
    if is_point(points, number, point) {
        Some(number)
    } else {
        None
    }
}

/// Whether the point with this number is the state or arc.
fn is_point(points: &Points, number: u32, point: MachinePoint) -> bool
    ensures { IsTrue result ↔ IsMachinePointAt points.now number point }
{
    match state_place(points, number) {
        Some(place) => is_point_at(points, place, point),
        None => false,
    }
}

/// Whether the state or arc is at this place among those of the points.
fn is_point_at(points: &Points, place: usize, point: MachinePoint) -> bool
    ensures { (k : ℕ) → k ≡ length points.now.lines.items + length points.now.nodes.items + length points.now.toggles.items + place
        → (IsTrue result ↔ IsMachinePointAt points.now k point) }
{
    match points.states.as_slice().get(place) {
        Some(other) => *other == point,
        None => false,
    }
}

/// The place among the states and arcs of the point with this number, which may be past them. None before them.
fn state_place(points: &Points, number: u32) -> Option<usize>
    ensures some { (place : ℕ) → result ≡ Some place → number ≡ length points.now.lines.items + length points.now.nodes.items + length points.now.toggles.items + place }
    ensures none { result ≡ None → number < length points.now.lines.items + length points.now.nodes.items + length points.now.toggles.items }
{
    (number as usize)
        .checked_sub(points.lines.len())?
        .checked_sub(points.nodes.len())?
        .checked_sub(points.toggles.len())
}
