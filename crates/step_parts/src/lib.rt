//! The parts of the code beside the replay, between steps and within a step, and theorems that lead from the one to the other;
//! there is no code.
//!
//! Between steps the store knows what is kept, and the flags and marks are those of what was reported; within a step the
//! vectors that are set aside and the sets are those of the step too (`specs/AtStep.antt`). [`start_law`] gives the parts with
//! which the first Assign or Comb runs, once the Clocked have run. After the last one the masks of what is marked already say no
//! more than the verdicts still ([`seen_law`]), since the runs only add to what was reported ([`noted_law`]). When a step is due,
//! and what holds after each part of it up to that start, is in `specs/Due.antt`: the Clocked that are listed once its sets are
//! found are those that run ([`listed_law`]), of the others the woken are to run ([`touched_law`]), and once the Clocked have run
//! and what may not move stays, it has begun ([`begun_law`]).
#![tactic(auto)]

ghost use Rattle.step_parts.specs.Laws.{BegunLaw, ListedLaw, NotedLaw, SeenLaw, StartLaw, TouchedLaw};

pub use step_changes::{Piece, SignalChange, StepValues, Store, find_moves, known_signal};

/// Where the Clocked have run, the dump's values are put in and what may not move stays, the parts are those with which the first
/// Assign or Comb runs.
pub fn start_law()
    ensures { StartLaw }
{}

/// The runs of processes only add to what was reported.
pub fn noted_law()
    ensures { NotedLaw }
{}

/// Masks of what is marked already say no more than the verdicts where more is reported.
pub fn seen_law()
    ensures { SeenLaw }
{}

/// Once the sets of a step that is due are found, the Clocked that are listed are those that run in it.
pub fn listed_law()
    ensures { ListedLaw }
{}

/// Once the sets of a step that is due are found, of the Assigns and Combs those are woken that watch something that may move.
pub fn touched_law()
    ensures { TouchedLaw }
{}

/// Once the Clocked of a step that is due have run, it has begun, where what may not move stays, what they assign agrees with the
/// dump, and the others that are to run are listed.
pub fn begun_law()
    ensures { BegunLaw }
{}
