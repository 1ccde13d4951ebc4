//! The toggle points of a signal.

ghost use Rattle.std.specs.Prelude.{◌≡◌, ◌≤◌, false};
ghost use Rattle.cover_marks.specs.cover_points.declared.listing.Points.{Points as ThePoints};
ghost use Rattle.cover_marks.specs.Marks.{AreMarksOf};
ghost use Rattle.signal_marks.specs.Toggled.{IsIndexed, ListsBoth, MarksToggles};

use crate::places::{Toggling, mark_places};
use bit_changes::Toggles;
use cover_marks::Marks;
use design_model::Signal;

/// Marks the points of a signal's bits that surely toggle in a step as hit, and those of the bits that may toggle as left
/// open at this time. A point that was hit stays hit, and a first doubt is kept; so bits whose points are marked so already may be
/// left out of the masks. It takes no memory, and for masks that are 0 constant time.
pub fn mark_toggles(marks: &mut Marks, shape: &Signal, signal: u32, toggles: Toggles, time: u64)
    requires indexed { IsIndexed shape.now }
    requires width { shape.now.width ≤ 128 }
    requires plain { shape.now.ranged ≡ false → shape.now.width ≤ 1 }
    requires listed { (ps : ThePoints) × AreMarksOf ps marks.old × ListsBoth ps shape.now signal }
    ensures points { (ps : ThePoints) → AreMarksOf ps marks.old → AreMarksOf ps marks.new }
    ensures toggles { (ps : ThePoints) → AreMarksOf ps marks.old → ListsBoth ps shape.now signal → MarksToggles ps shape.now signal time toggles marks.old.verdicts marks.new.verdicts }
{
    mark_places(marks, shape, Toggling::sure(signal, true), toggles.rises);
    mark_places(marks, shape, Toggling::sure(signal, false), toggles.falls);
    mark_places(
        marks,
        shape,
        Toggling::open(signal, true, time),
        toggles.may_rise,
    );
    mark_places(
        marks,
        shape,
        Toggling::open(signal, false, time),
        toggles.may_fall,
    );
}
