//! The run of one Clocked block of a step, as the definition of the replay has it: of a block that is clean, entered by its
//! trigger ([`run_clean`]), and of one that can wake and is not clean ([`run_weak`]).
#![tactic(auto)]

mod clean;
mod weak;

pub use clean::run_clean;
pub use clocked_runs::{BlockNotes, Certainty, Doubt, Piece, Store, begin_runs, make_updates};
pub use weak::run_weak;
