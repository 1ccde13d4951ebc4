//! The run of one clean block of a step, entered by what is early for it by the sets of the step.
#![tactic(auto)]

mod run;

pub use chosen_early::{Habit, Wakes};
pub use clocked_block::{BlockNotes, Piece, Store, begin_runs, make_updates, run_weak};
pub use run::run_chosen;
