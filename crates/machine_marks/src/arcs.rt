//! The states and arcs of a machine.

ghost use Rattle.std.specs.Prelude.{◌≡◌, ◌≤◌, ◌^◌, length};
ghost use Rattle.std.specs.List.{All};
ghost use Rattle.four_state.specs.Vector.{Vector};
ghost use Rattle.cover_marks.specs.Marks.{AreMarksOf};
ghost use Rattle.machine_marks.specs.Marked.{MarksMachine, MarksThose, chances_from, chances_of, is_arc_from, is_arc_of, is_possible, is_sure};

use crate::chance::Chance;
use crate::mark::{Reason, mark_point};
use crate::states::mark_in_step;
use cover_marks::Marks;
use cover_points::{Machine, MachinePoint, Points};
use four_state::Four;
use known_state::Known;

/// Marks the states and arcs of the machine with this number by what is known of its signal before and after the step that ends at
/// this time. At a time that the dump does not list a state is left open where the signal may come to it. For two values that are wholly known it takes the time of the states; else that of the states that the signal may have had
/// before, each with all states.
pub fn mark_machine(
    marks: &mut Marks,
    points: &Points,
    number: u32,
    machine: &Machine,
    before: &Known,
    after: &Known,
    listed: bool,
    time: u64,
)
    requires marks { AreMarksOf points.now marks.old }
    requires before { All (λ (v : Vector). length v.bits ≡ length before.now.bits) machine.now.values }
    requires after { All (λ (v : Vector). length v.bits ≡ length after.now.bits) machine.now.values }
    requires few { length machine.now.values ≤ 2 ^ 32 }
    ensures points { AreMarksOf points.now marks.new }
    ensures machine { MarksMachine listed points.now number machine.now time before.now.bits after.now.bits marks.old.verdicts marks.new.verdicts }
{
    let reason = Reason {
        signal: machine.signal,
        time,
    };
    let values = machine.values.as_slice();
    mark_in_step(marks, points, number, values, before, after, listed, reason);
    mark_arcs(marks, points, number, values, before, after, reason);
}

/// Marks the arcs of a machine whose states have these values.
fn mark_arcs(
    marks: &mut Marks,
    points: &Points,
    number: u32,
    values: &[Four],
    before: &Known,
    after: &Known,
    reason: Reason,
)
    requires marks { AreMarksOf points.now marks.old }
    requires before { All (λ (v : Vector). length v.bits ≡ length before.now.bits) values.now }
    requires after { All (λ (v : Vector). length v.bits ≡ length after.now.bits) values.now }
    requires few { length values.now ≤ 2 ^ 32 }
    ensures points { AreMarksOf points.now marks.new }
    ensures arcs { MarksThose points.now reason.signal reason.time (is_arc_of number (length values.now)) (chances_of values.now before.now.bits after.now.bits) marks.old.verdicts marks.new.verdicts }
{
    for from in 0..values.len() {
        let left = Chance::of(before, &values[from]);
        mark_arcs_from(
            marks,
            points,
            number,
            from as u32,
            left,
            values,
            after,
            reason,
        );
    }
}

/// Marks the arcs of a machine that leave one state, where it is so sure that the signal had its value before.
fn mark_arcs_from(
    marks: &mut Marks,
    points: &Points,
    number: u32,
    from: u32,
    left: Chance,
    values: &[Four],
    after: &Known,
    reason: Reason,
)
    requires marks { AreMarksOf points.now marks.old }
    requires after { All (λ (v : Vector). length v.bits ≡ length after.now.bits) values.now }
    requires few { length values.now ≤ 2 ^ 32 }
    ensures points { AreMarksOf points.now marks.new }
    ensures arcs { MarksThose points.now reason.signal reason.time (is_arc_from number (length values.now) from) (chances_from (is_sure left) (is_possible left) values.now after.now.bits) marks.old.verdicts marks.new.verdicts }
{
    if left == Chance::Never {
        return;
    }
    for to in 0..values.len() {
        let point = MachinePoint::Arc {
            machine: number,
            from,
            to: to as u32,
        };
        let chance = left.and(Chance::of(after, &values[to]));
        mark_point(marks, points, point, chance, reason);
    }
}
