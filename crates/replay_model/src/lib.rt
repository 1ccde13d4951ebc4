//! The replay of a dump as a function of what is known, of what may move and of what the dump says, and why its
//! verdicts hold. There is no code: each function's contract states theorems, whose premises are named in
//! `specs/Laws.antt`.
//!
//! After each step the settled values of every run that shows the dump are allowed, and what was reported to be hit
//! is hit ([`sound_replay`]); a contradiction means that no run shows the dump ([`true_contradictions`]). So a hit is
//! hit and a missed point is never hit, in every run that shows the dump ([`sound_verdicts`]), and an undetermined
//! point has its doubt ([`reasoned_verdicts`]). Where the dump is off, the marks and the Combs that have acted stay ([`paused_replay`]).
#![tactic(auto)]

ghost use Rattle.event_machine.specs.Habit.{Habit};
ghost use Rattle.replay_model.specs.Laws.{ContradictionLaw, FirstContradictionLaw, FirstForcedLaw, FirstKnownLaw, FirstSoundLaw, FirstStandsLaw, NewPausedLaw, PausedLaterLaw, PausedLaw, PausedVerdictLaw, ReasonedVerdictLaw, RestForcedLaw, RestKnownLaw, RestSoundLaw, RestStandsLaw, RestReasonedLaw, SoundVerdictLaw, StepForcedLaw, StepKnownLaw, StepSoundLaw, StepStandsLaw, StepReasonedLaw};

/// After the first step of a stretch, after each closing step and over each time that the dump does not list, the settled values of
/// each run that shows the dump are allowed, what was reported to be hit is hit, and what is hit was reported.
pub fn sound_replay()
    ensures first { FirstSoundLaw }
    ensures step { (h : Habit) → StepSoundLaw h }
    ensures rest { RestSoundLaw }
{}

/// Where the replay contradicts, no run shows the dump up to that time.
pub fn true_contradictions()
    ensures first { FirstContradictionLaw }
    ensures step { (h : Habit) → ContradictionLaw h }
{}

/// Hit is hit, and missed is never hit, in every run that shows the dump.
pub fn sound_verdicts()
    ensures { SoundVerdictLaw }
{}

/// After the first step of a stretch, without a contradiction, what is clear is sure, and no forced value differs from the dump's.
pub fn reasoned_first()
    ensures known { FirstKnownLaw }
    ensures forced { FirstForcedLaw }
{}

/// Without a contradiction a closing step keeps it that what is clear is sure, that each doubt that was reported is one,
/// that each point that a block reaches was reported to be hit, and that no forced value differs from the dump's.
pub fn reasoned_step()
    ensures known { (h : Habit) → StepKnownLaw h }
    ensures reasoned { (h : Habit) → StepReasonedLaw h }
    ensures forced { (h : Habit) → StepForcedLaw h }
{}

/// So does a time that the dump does not list.
pub fn reasoned_rest()
    ensures known { RestKnownLaw }
    ensures reasoned { RestReasonedLaw }
    ensures forced { RestForcedLaw }
{}

/// All this together: without a contradiction it holds after the first step of a stretch, after each closing step and over
/// each time that the dump does not list.
pub fn whole_replay()
    ensures first { FirstStandsLaw }
    ensures step { (h : Habit) → StepStandsLaw h }
    ensures rest { RestStandsLaw }
{}

/// A new replay is paused where nothing is shown before. Where all this holds at a time and the dump then shows nothing, the replay that
/// has forgotten the values is paused up to each later time, and if no time of the window is left its verdicts hold.
pub fn paused_replay()
    ensures new { NewPausedLaw }
    ensures paused { PausedLaw }
    ensures later { PausedLaterLaw }
    ensures verdicts { PausedVerdictLaw }
{}

/// An undetermined point has its doubt, and is hit at no time at which nothing is in doubt for it; what is reached is hit.
pub fn reasoned_verdicts()
    ensures { ReasonedVerdictLaw }
{}
