//! The runs of the Clocked processes of a closing step: those that can wake, each once, first the clean ones in their order, then
//! the others (IEEE 1364-2001, clause 5: the order of events in a step is free).
//!
//! [`run_clocked`] runs those of a wake list, which are then the Clocked runs of the step (`clocked_run` of `replay_model`), and makes
//! the writes that they queue. That the list leaves out none that runs follows from how it is filled ([`listed_law`]). No call takes
//! memory.
#![tactic(auto)]

mod clean;
mod given;
mod laws;
mod runs;
mod turns;
mod weak;

pub use clocked_marks::{Habit, MarkNotes, Piece, Store, Wakes};
pub use given::Given;
pub use laws::{listed_law, order_example};
pub use runs::run_clocked;
