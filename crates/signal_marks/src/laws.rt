//! The points of bits by their places, and masks of what is marked already beside other marks.

ghost use Rattle.std.specs.Prelude.{◌≡◌, ◌≤◌, ◌<◌, ℕ, List, false, length, slice_set};
ghost use Rattle.design_model.specs.Design.{Design, cell, signal_at};
ghost use Rattle.design_model.specs.Points.{toggle_cell};
ghost use Rattle.bit_changes.specs.declared.toggles.Toggles.{Toggles};
ghost use Rattle.cover_marks.specs.cover_points.declared.listing.Points.{Points};
ghost use Rattle.point_marks.specs.Marking.{with_doubt};
ghost use Rattle.point_marks.specs.declared.verdict.Doubt.{Doubt};
ghost use Rattle.point_marks.specs.declared.verdict.Verdict.{Verdict};
ghost use Rattle.point_marks.specs.declared.verdict.Verdict.TheVariants.{Hit};
ghost use Rattle.signal_marks.specs.Seen.{AreSeen};
ghost use Rattle.signal_marks.specs.Toggled.{HasIndex, index_at, verdict_of};

/// A toggle point with the declared index of the bit at a place names the bit at this place.
pub fn index_law()
    ensures { (d : Design) (s i : ℕ) → i < (signal_at d s).width → HasIndex (signal_at d s) i → ((signal_at d s).ranged ≡ false → (signal_at d s).width ≤ 1) → toggle_cell d s (index_at (signal_at d s) i) ≡ cell s i }
{}

/// Masks of what is marked already stay so where a point is hit.
pub fn seen_hit_law()
    ensures { (d : Design) (ps : Points) (ms : List Toggles) (vs : List Verdict) (k : ℕ) → k < length vs → AreSeen d ps ms vs → AreSeen d ps ms (slice_set vs k Hit) }
{}

/// Masks of what is marked already stay so where a point is left open.
pub fn seen_doubt_law()
    ensures { (d : Design) (ps : Points) (ms : List Toggles) (vs : List Verdict) (k : ℕ) (y : Doubt) → k < length vs → AreSeen d ps ms vs
        → AreSeen d ps ms (slice_set vs k (with_doubt y (verdict_of vs k))) }
{}
