//! Theorems that join the toggles marked in a step with what the replay reports of them; there is no code.
//!
//! Where the toggle points of the signals that may move are marked, one signal after the other, each verdict is the one
//! before it with what the step reports of its point ([`toggles_law`]), where this is no state or arc; those stay as they were.
//! [`turn_law`] adds a signal at the end. [`markable_law`] gives what `SignalMarks::mark` asks of a signal.
#![tactic(auto)]

ghost use Rattle.std.specs.Prelude.{◌<◌, ◌++◌, ◌∷◌, [], ℕ, List, length};
ghost use Rattle.mark_laws.specs.cover_points.Listed.{IsPointList};
ghost use Rattle.mark_laws.specs.cover_points.declared.listing.Points.{Points};
ghost use Rattle.design_model.specs.Design.{Design, signal_at};
ghost use Rattle.design_model.specs.Lawful.{IsLawfulDesign};
ghost use Rattle.mark_laws.specs.cover_points.design_machines.state_machines.Machines.{StateMachines};
ghost use Rattle.point_marks.specs.declared.verdict.Verdict.{Verdict};
ghost use Rattle.mark_laws.specs.replay_model.Step.{Closing};
ghost use Rattle.toggle_laws.specs.Turns.{AreMoves, FollowToggles, IsMarkable, MarksInTurn, MarksMoved};

/// The toggle points of the signals that may move are marked, in turn: each verdict of a point that is no state or arc follows what
/// the step reports of its point.
pub fn toggles_law()
    ensures { (st : Closing) (machines : StateMachines) (ps : Points) (signals : List ℕ) (before after : List Verdict) → IsLawfulDesign st.design → IsPointList st.design machines ps
        → AreMoves st signals → MarksInTurn st ps signals before after → FollowToggles st ps before after }
{}

/// The toggle points of one signal more are marked.
pub fn turn_law()
    ensures { (st : Closing) (ps : Points) (signals : List ℕ) (s : ℕ) (before middle after : List Verdict) → MarksInTurn st ps signals before middle → MarksMoved st ps s middle after
        → MarksInTurn st ps (signals ++ s ∷ []) before after }
{}

/// A lawful design and the list of its points give what the marks of a signal's toggles ask of the signal.
pub fn markable_law()
    ensures { (d : Design) (machines : StateMachines) (ps : Points) (s : ℕ) → IsLawfulDesign d → IsPointList d machines ps → s < length d.signals → IsMarkable ps (signal_at d s) s }
{}
