//! What changes in a step and what that may move: from the values that the dump has given to codes.
//!
//! [`find_moves`] finds the signals whose value has changed, and then the sets of the step, which are proved to be those of the
//! definitions (`specs/Changes.antt`), once what is early was found for each clean block. [`woken_law`] says that the processes
//! which it wakes are the Assigns and Combs that watch something that may move, and the Clocked that can wake. No call takes memory.
#![tactic(auto)]

mod changes;
mod laws;
mod moves;

pub use laws::woken_law;
pub use moves::find_moves;
pub use step_values::{Piece, StepValues, Store, known_signal};
pub use step_wakes::SignalChange;
