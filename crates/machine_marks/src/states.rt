//! The states of a machine.

ghost use Rattle.std.specs.Prelude.{◌≡◌, ◌≤◌, ◌^◌, false, length};
ghost use Rattle.std.specs.List.{All};
ghost use Rattle.four_state.specs.Vector.{Vector};
ghost use Rattle.cover_marks.specs.Marks.{AreMarksOf};
ghost use Rattle.machine_marks.specs.Marked.{MarksStates, MarksThose, chances_in, chances_of, is_state_of};

use crate::chance::Chance;
use crate::mark::{Reason, mark_point};
use cover_marks::Marks;
use cover_points::{Machine, MachinePoint, Points};
use four_state::Four;
use known_state::Known;

/// Marks the states of the machine with this number by what is known of its signal at this time: the state that it surely has is
/// hit, and each that it may have is left open. It takes the time of the states.
pub fn mark_states(
    marks: &mut Marks,
    points: &Points,
    number: u32,
    machine: &Machine,
    now: &Known,
    time: u64,
)
    requires marks { AreMarksOf points.now marks.old }
    requires widths { All (λ (v : Vector). length v.bits ≡ length now.now.bits) machine.now.values }
    requires few { length machine.now.values ≤ 2 ^ 32 }
    ensures points { AreMarksOf points.now marks.new }
    ensures states { MarksStates points.now number machine.now time now.now.bits marks.old.verdicts marks.new.verdicts }
{
    let reason = Reason {
        signal: machine.signal,
        time,
    };
    mark_values(
        marks,
        points,
        number,
        machine.values.as_slice(),
        now,
        reason,
    );
}

/// Marks the states of a machine by what is known before and after a step at a time that is listed or not.
pub(crate) fn mark_in_step(
    marks: &mut Marks,
    points: &Points,
    number: u32,
    values: &[Four],
    before: &Known,
    after: &Known,
    listed: bool,
    reason: Reason,
)
    requires marks { AreMarksOf points.now marks.old }
    requires before { All (λ (v : Vector). length v.bits ≡ length before.now.bits) values.now }
    requires after { All (λ (v : Vector). length v.bits ≡ length after.now.bits) values.now }
    requires few { length values.now ≤ 2 ^ 32 }
    ensures points { AreMarksOf points.now marks.new }
    ensures states { MarksThose points.now reason.signal reason.time (is_state_of number (length values.now)) (chances_in listed values.now before.now.bits after.now.bits) marks.old.verdicts marks.new.verdicts }
{
    if listed {
        mark_values(marks, points, number, values, after, reason);
        return;
    }
    mark_comers(marks, points, number, values, before, after, reason);
}

/// Marks the states of a machine that its signal may come to in a step at a time that is not listed.
fn mark_comers(
    marks: &mut Marks,
    points: &Points,
    number: u32,
    values: &[Four],
    before: &Known,
    after: &Known,
    reason: Reason,
)
    requires marks { AreMarksOf points.now marks.old }
    requires before { All (λ (v : Vector). length v.bits ≡ length before.now.bits) values.now }
    requires after { All (λ (v : Vector). length v.bits ≡ length after.now.bits) values.now }
    requires few { length values.now ≤ 2 ^ 32 }
    ensures points { AreMarksOf points.now marks.new }
    ensures states { MarksThose points.now reason.signal reason.time (is_state_of number (length values.now)) (chances_in false values.now before.now.bits after.now.bits) marks.old.verdicts marks.new.verdicts }
{
    for state in 0..values.len() {
        let point = MachinePoint::State {
            machine: number,
            state: state as u32,
        };
        let now = Chance::of(after, &values[state]);
        let old = Chance::of(before, &values[state]);
        let chance = now.coming(old);
        mark_point(marks, points, point, chance, reason);
    }
}

/// Marks the states of a machine that have these values.
fn mark_values(
    marks: &mut Marks,
    points: &Points,
    number: u32,
    values: &[Four],
    now: &Known,
    reason: Reason,
)
    requires marks { AreMarksOf points.now marks.old }
    requires widths { All (λ (v : Vector). length v.bits ≡ length now.now.bits) values.now }
    requires few { length values.now ≤ 2 ^ 32 }
    ensures points { AreMarksOf points.now marks.new }
    ensures states { MarksThose points.now reason.signal reason.time (is_state_of number (length values.now)) (chances_of values.now now.now.bits now.now.bits) marks.old.verdicts marks.new.verdicts }
{
    for state in 0..values.len() {
        let point = MachinePoint::State {
            machine: number,
            state: state as u32,
        };
        let chance = Chance::of(now, &values[state]);
        mark_point(marks, points, point, chance, reason);
    }
}
