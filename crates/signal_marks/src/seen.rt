//! The toggle points that are marked already, as masks.

ghost use Rattle.std.specs.Prelude.{◌≡◌, ◌≤◌, ◌<◌, IfOk, List, false, length};
ghost use Rattle.cover_marks.specs.cover_points.declared.listing.Points.{Points as ThePoints};
ghost use Rattle.cover_marks.specs.Marks.{AreMarksOf};
ghost use Rattle.design_model.specs.Design.{Design, signal_at};
ghost use Rattle.point_marks.specs.declared.verdict.Verdict.{Verdict};
ghost use Rattle.signal_marks.specs.Seen.{AreSeen, HasBoth, IsWithout, MarksChange};
ghost use Rattle.signal_marks.specs.Toggled.{IsIndexed, ListsBoth};

use crate::toggles::mark_toggles;
use bit_changes::Toggles;
use cov_host::NoMemory;
use cover_marks::Marks;
use design_model::Signal;
use known_state::Known;
use std::alloc::Global;
use std::marker::Model;

/// The toggle points of each signal that are marked already, so that a toggle that was seen is not marked once more.
pub struct SignalMarks {
    /// By signal: the bits of which a rise, or a fall, is marked hit, and those of which it is marked so or left open.
    masks: Vec<Toggles>,
}

// Written out so that a crate which lets one go does not prove again how each of its parts is let go.
impl Drop for SignalMarks {
    fn drop(self) {
        let SignalMarks { masks: _ } = self;
    }
}

impl Model for SignalMarks {
    ghost use Rattle.std.specs.Prelude.{List};
    ghost use Rattle.bit_changes.specs.declared.toggles.Toggles.{Toggles as TheToggles};

    ghost Value = { List TheToggles };

    ghost view = { λ s. s.masks.items };
}

impl SignalMarks {
    /// So many signals, of which nothing is marked.
    pub fn new(alloc: Global, signals: usize) -> Result<Self, NoMemory>
        ensures count { IfOk result (λ seen. length seen ≡ signals) }
        ensures seen { IfOk result (λ seen. (d : Design) (ps : ThePoints) (vs : List Verdict) → AreSeen d ps seen vs) }
    {
        let nothing = Toggles {
            rises: 0,
            falls: 0,
            may_rise: 0,
            may_fall: 0,
        };
        let masks = vec![in alloc; nothing; signals]?;
        Ok(SignalMarks { masks })
    }

    /// Marks the points of a signal's bits that surely toggle from one value to another as hit, and those of the bits that
    /// may toggle as left open at this time. It takes no memory; where each of these is marked so already it takes constant
    /// time, else the time of the signal's bits.
    pub fn mark(
        &mut self,
        marks: &mut Marks,
        shape: &Signal,
        signal: u32,
        before: &Known,
        after: &Known,
        time: u64,
    )
        requires indexed { IsIndexed shape.now }
        requires width { shape.now.width ≤ 128 }
        requires plain { shape.now.ranged ≡ false → shape.now.width ≤ 1 }
        requires before { length before.now.bits ≡ shape.now.width }
        requires after { length after.now.bits ≡ shape.now.width }
        requires within { signal < length self.old }
        requires listed { (ps : ThePoints) × AreMarksOf ps marks.old × ListsBoth ps shape.now signal }
        ensures count { length self.new ≡ length self.old }
        ensures points { (ps : ThePoints) → AreMarksOf ps marks.old → AreMarksOf ps marks.new }
        ensures toggles { (d : Design) (ps : ThePoints) → shape.now ≡ signal_at d signal → AreMarksOf ps marks.old → ListsBoth ps shape.now signal → AreSeen d ps self.old marks.old.verdicts
            → MarksChange ps shape.now signal time before.now.bits after.now.bits marks.old.verdicts marks.new.verdicts }
        ensures seen { (d : Design) (ps : ThePoints) → shape.now ≡ signal_at d signal → AreMarksOf ps marks.old → ListsBoth ps shape.now signal → AreSeen d ps self.old marks.old.verdicts
            → AreSeen d ps self.new marks.new.verdicts }
    {
        let toggles = Toggles::between(before, after);
        let seen = self.masks[signal as usize];
        mark_toggles(marks, shape, signal, without(toggles, seen), time);
        self.masks[signal as usize] = both(seen, toggles);
    }
}

/// The toggles that are not among those seen.
fn without(toggles: Toggles, seen: Toggles) -> Toggles
    ensures rises { IsWithout toggles.rises seen.rises result.rises }
    ensures falls { IsWithout toggles.falls seen.falls result.falls }
    ensures may_rise { IsWithout toggles.may_rise seen.may_rise result.may_rise }
    ensures may_fall { IsWithout toggles.may_fall seen.may_fall result.may_fall }
{
    Toggles {
        rises: less(toggles.rises, seen.rises),
        falls: less(toggles.falls, seen.falls),
        may_rise: less(toggles.may_rise, seen.may_rise),
        may_fall: less(toggles.may_fall, seen.may_fall),
    }
}

/// The places of one mask that another one lacks.
fn less(places: u128, seen: u128) -> u128
    ensures { IsWithout places seen result }
{
    places & !seen
}

/// The toggles seen, and more.
fn both(seen: Toggles, more: Toggles) -> Toggles
    ensures rises { HasBoth seen.rises more.rises result.rises }
    ensures falls { HasBoth seen.falls more.falls result.falls }
    ensures may_rise { HasBoth seen.may_rise more.may_rise result.may_rise }
    ensures may_fall { HasBoth seen.may_fall more.may_fall result.may_fall }
{
    Toggles {
        rises: seen.rises | more.rises,
        falls: seen.falls | more.falls,
        may_rise: seen.may_rise | more.may_rise,
        may_fall: seen.may_fall | more.may_fall,
    }
}
