//! The points of the bits of a signal.

ghost use Rattle.std.specs.Prelude.{◌≡◌, ◌≤◌, ℕ, None, Some};
ghost use Rattle.four_state.specs.Masks.{is_set};
ghost use Rattle.cover_marks.specs.cover_points.Visits.{IsVisitOf};
ghost use Rattle.cover_marks.specs.cover_points.declared.listing.Points.{Points as ThePoints};
ghost use Rattle.cover_marks.specs.cover_points.declared.visit.Visit.TheVariants.{Toggle};
ghost use Rattle.cover_marks.specs.Marks.{AreMarksOf};
ghost use Rattle.signal_marks.specs.Toggled.{IsIndexed, ListsToggles, MarksBit, MarksPlaces};

use crate::index::index_at;
use cover_marks::{Marks, Visit};
use design_model::Signal;

/// Bits of a signal that toggle in one direction.
#[derive(Clone, Copy)]
pub struct Toggling {
    /// The number of the signal.
    pub signal: u32,
    /// Whether they go from 0 to 1, and else from 1 to 0.
    pub rise: bool,
    /// The time of the step, where it is not sure that they toggle. They are hit where there is no time.
    pub doubt: Option<u64>,
}

impl Toggling {
    /// Bits that surely toggle so.
    pub fn sure(signal: u32, rise: bool) -> Self
        ensures { result ≡ record { signal = signal; rise = rise; doubt = None } }
    {
        Toggling {
            signal,
            rise,
            doubt: None,
        }
    }

    /// Bits that may toggle so at this time.
    pub fn open(signal: u32, rise: bool, time: u64) -> Self
        ensures { result ≡ record { signal = signal; rise = rise; doubt = Some time } }
    {
        Toggling {
            signal,
            rise,
            doubt: Some(time),
        }
    }
}

/// Marks the points of the bits at the places of a mask. It takes no memory; where the mask is 0 it takes constant time,
/// else the time of the signal's bits.
pub fn mark_places(marks: &mut Marks, shape: &Signal, toggling: Toggling, mask: u128)
    requires indexed { IsIndexed shape.now }
    requires width { shape.now.width ≤ 128 }
    requires listed { (ps : ThePoints) × AreMarksOf ps marks.old × ListsToggles ps shape.now toggling }
    ensures points { (ps : ThePoints) → AreMarksOf ps marks.old → AreMarksOf ps marks.new }
    ensures verdicts { (ps : ThePoints) → AreMarksOf ps marks.old → ListsToggles ps shape.now toggling → MarksPlaces ps shape.now toggling mask marks.old.verdicts marks.new.verdicts }
{
    if mask == 0 {
        return;
    }
    for place in 0..shape.width {
        if mask >> place & 1 == 1 {
            mark_bit(marks, toggling, index_at(shape, place));
        }
    }
}

/// Marks the point of the bit with an index.
fn mark_bit(marks: &mut Marks, toggling: Toggling, index: u32)
    requires { (ps : ThePoints) × (k : ℕ) × AreMarksOf ps marks.old × IsVisitOf ps k (Toggle toggling.signal index toggling.rise) }
    ensures points { (ps : ThePoints) → AreMarksOf ps marks.old → AreMarksOf ps marks.new }
    ensures verdicts { (ps : ThePoints) (k : ℕ) → AreMarksOf ps marks.old → IsVisitOf ps k (Toggle toggling.signal index toggling.rise) → MarksBit toggling k marks.old.verdicts marks.new.verdicts }
{
    let point = marks.point(&Visit::Toggle {
        signal: toggling.signal,
        index,
        rise: toggling.rise,
    });
    match toggling.doubt {
        Some(time) => marks.doubt(point, toggling.signal, time),
        None => marks.hit(point),
    }
}
