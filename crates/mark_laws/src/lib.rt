//! Theorems that join the marks of points with the replay; there is no code.
//!
//! Where each thing that a replay reports is marked at the number of a point of which it is a key, the verdict by
//! number is the verdict of the point in the sense of `replay_model` ([`verdict_law`]), and the visit of a spot of a
//! process is that of its points ([`key_law`]).
//!
//! A list of verdicts that is right for what was reported stays so with one thing more: where that is a hit, the point's
//! verdict becomes hit ([`hit_law`]); where it is a doubt, a point that was missed becomes undetermined
//! ([`doubt_law`]); and where it is of no point of the list, nothing changes ([`no_point_law`]). What a step reports of the
//! points on signals changes each verdict by what is reported of its own point ([`signals_law`]).
#![tactic(auto)]

ghost use Rattle.std.specs.Prelude.{◌≡◌, ◌<◌, ◌++◌, ◌∷◌, [], ℕ, List, None, Some, length, replicate, slice_set};
ghost use Rattle.replay_model.specs.body_replay.Replay.{Spot};
ghost use Rattle.cover_points.specs.Listed.{points_of};
ghost use Rattle.cover_points.specs.Visits.{AreApart, AreOnce, point_at, visit_of};
ghost use Rattle.cover_points.specs.declared.listing.Points.{Points};
ghost use Rattle.replay_model.specs.design_model.Design.{Design};
ghost use Rattle.replay_model.specs.design_model.declared.point.Point.{Point};
ghost use Rattle.mark_laws.specs.Marked.{AreVerdicts, IsNoKey, verdict_at};
ghost use Rattle.mark_laws.specs.Signals.{FollowNotes};
ghost use Rattle.mark_laws.specs.Numbered.{AreNumbered, doubt_of, verdict_view, visit_at};
ghost use Rattle.point_marks.specs.Marking.{IsVerdict, Marking, with_doubt};
ghost use Rattle.point_marks.specs.declared.verdict.Doubt.{Doubt};
ghost use Rattle.point_marks.specs.declared.verdict.Verdict.{Verdict};
ghost use Rattle.point_marks.specs.declared.verdict.Verdict.TheVariants.{Hit, Missed};
ghost use Rattle.replay_model.specs.Step.{Closing, all_point_notes};
ghost use Rattle.replay_model.specs.Marks.{IsKeyOf, IsVerdict as IsReplayVerdict, Marking as Reported, of_process};

/// Where each thing that a replay reports is a marking of the number of a point of which it is a key, the verdict by number is
/// the verdict of the point.
pub fn verdict_law()
    ensures { (d : Design) (ps : Points) (ns : List Reported) (ms : List Marking) (k : ℕ) (v : Verdict) → AreApart ps → AreOnce ps → AreNumbered d ps ns ms
        → k < length (points_of ps) → IsVerdict ms k v → IsReplayVerdict d (point_at ps k) ns (verdict_view v) }
{}

/// A hit of a point is reported.
pub fn hit_law()
    ensures { (d : Design) (ps : Points) (ns : List Reported) (n : Reported) (vs : List Verdict) (k : ℕ) → AreApart ps → AreOnce ps → AreVerdicts d ps ns vs
        → k < length (points_of ps) → IsKeyOf d (point_at ps k) n.key → n.doubt ≡ None → AreVerdicts d ps (ns ++ n ∷ []) (slice_set vs k Hit) }
{}

/// A doubt of a point is reported.
pub fn doubt_law()
    ensures { (d : Design) (ps : Points) (ns : List Reported) (n : Reported) (vs : List Verdict) (k : ℕ) (y : Doubt) → AreApart ps → AreOnce ps → AreVerdicts d ps ns vs
        → k < length (points_of ps) → IsKeyOf d (point_at ps k) n.key → doubt_of n.doubt ≡ Some y → AreVerdicts d ps (ns ++ n ∷ []) (slice_set vs k (with_doubt y (verdict_at vs k))) }
{}

/// Something is reported of no point of the list.
pub fn no_point_law()
    ensures { (d : Design) (ps : Points) (ns : List Reported) (n : Reported) (vs : List Verdict) → AreVerdicts d ps ns vs → IsNoKey d ps n.key → AreVerdicts d ps (ns ++ n ∷ []) vs }
{}

/// The points on signals are reported at the end of a step.
pub fn signals_law()
    ensures { (st : Closing) (ps : Points) (ns : List Reported) (before after : List Verdict) → AreOnce ps → AreVerdicts st.design ps ns before → FollowNotes st ps before after
        → AreVerdicts st.design ps (ns ++ all_point_notes st (points_of ps)) after }
{}

/// Nothing is reported, and no point is marked.
pub fn nothing_law()
    ensures { (d : Design) (ps : Points) (n : ℕ) → n ≡ length (points_of ps) → AreVerdicts d ps [] (replicate n Missed) }
{}

/// The visit of a spot of a process is that of the points of which the spot is a key.
pub fn key_law()
    ensures { (d : Design) (x : Point) (p : ℕ) (spot : Spot) → IsKeyOf d x (of_process p spot) → visit_of x ≡ Some (visit_at p spot) }
{}
