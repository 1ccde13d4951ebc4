//! What holds of the parts of a replay between two closed steps, and theorems that lead from one to the next; there is no code.
//!
//! The relation `Follows` says that the replay has followed a dump up to a time, and `Pauses` that it has where the dump is off, or before
//! its first step (`specs/Follows.antt`; [`pause_laws`]). It holds after a first step of a stretch that nothing contradicts ([`first_law`]), values that are given change nothing of it ([`given_law`]), and it holds over
//! times that the dump does not list ([`rest_law`]), up to the time before the next one ([`next_law`]). From it follows
//! what a step asks at its start ([`due_law`]), and it holds after a step that nothing contradicts ([`closed_law`]). No run
//! shows a dump that contradicts a step ([`first_contradicted_law`], [`contradicted_law`]). After the last step the verdicts
//! hold in each run that shows the dump ([`verdicts_law`]). [`refused_examples`] says what the relation refuses.
#![tactic(auto)]

ghost use Rattle.std.specs.Prelude.{◌≡◌, ◌∷◌, [], ℕ, None, Some, slice_index_or};
ghost use Rattle.four_state.specs.Vector.{Vector};
ghost use Rattle.code_values.specs.Values.{value_of};
ghost use Rattle.design_model.specs.Design.{signal_bits};
ghost use Rattle.step_parts.specs.replay_model.Step.{Replay};
ghost use Rattle.replay_follows.specs.Follows.{Follows, Parts, Subject};
ghost use Rattle.replay_follows.specs.Laws.{ClosedLaw, ContradictedLaw, DueLaw, FirstContradictedLaw, FirstLaw, GivenLaw, NewPauseLaw, NextLaw, PauseLaterLaw, PauseLaw, PausedVerdictsLaw, RestLaw, VerdictsLaw};

/// After a first step of a stretch that nothing contradicts the replay has followed the dump up to its time.
pub fn first_law()
    ensures { FirstLaw }
{}

/// Where some bit contradicts the first step of a stretch, no run shows the dump up to its time.
pub fn first_contradicted_law()
    ensures { FirstContradictedLaw }
{}

/// A new replay is paused, and one that has followed the dump is once it knows nothing of the values, up to the next time that the dump
/// shows. Where none is left, its verdicts hold.
pub fn pause_laws()
    ensures new { NewPauseLaw }
    ensures now { PauseLaw }
    ensures later { PauseLaterLaw }
    ensures verdicts { PausedVerdictsLaw }
{}

/// Values that are given to codes change nothing of what was followed.
pub fn given_law()
    ensures { GivenLaw }
{}

/// Over times that the dump does not list the replay has followed it too.
pub fn rest_law()
    ensures { RestLaw }
{}

/// Where the dump lists no time between, the replay has followed it up to the time before the next one.
pub fn next_law()
    ensures { NextLaw }
{}

/// Where the replay has followed a dump up to a time, the next step is due once the dump's values at its end are given.
pub fn due_law()
    ensures { DueLaw }
{}

/// After a step that nothing contradicts the replay has followed the dump up to its end.
pub fn closed_law()
    ensures { ClosedLaw }
{}

/// Where some bit contradicts a step, no run shows the dump up to its end.
pub fn contradicted_law()
    ensures { ContradictedLaw }
{}

/// Once the last step of the dump is closed, the verdicts hold in each run that shows the dump.
pub fn verdicts_law()
    ensures { VerdictsLaw }
{}

/// What the definition refuses: parts of which a code has another value than the dump says, and a dump of one time, of which no step
/// is closed.
pub fn refused_examples()
    ensures value { (f : Subject) (t : ℕ) (a : Replay) (x : Parts) (s code : ℕ) (v : Vector) → slice_index_or f.codes s None ≡ Some code → value_of x.values.closed code ≡ Some v
        → (v.bits ≡ signal_bits f.design (f.dump.values t) s → ⊥) → Follows f t a x → ⊥ }
    ensures single { (f : Subject) (t u : ℕ) (a : Replay) (x : Parts) → f.dump.stretches ≡ (u ∷ []) ∷ [] → Follows f t a x → ⊥ }
{}
