//! The runs of the Clocked blocks of a step, with the marks of what they visit: of a clean one ([`mark_clean`]), and of one that
//! can wake and is not clean ([`mark_weak`]).
#![tactic(auto)]

mod clean;
mod weak;

pub use chosen_runs::{Habit, Piece, Store, Wakes, begin_runs, make_updates};
pub use clean::mark_clean;
pub use run_marks::MarkNotes;
pub use weak::mark_weak;
