//! The signals of which the dump says something else than what is known once the Clocked have run: those whose value changes in a step
//! though nothing may move them, and those that a Clocked has made. The dump contradicts them before any Assign or Comb has run.
//!
//! [`first_moved`] finds the one of these with the least number, and gives none only where there is no such signal (`specs/Stays.antt`). Where there
//! is no such signal, what the dump says of what may not move is what was known ([`stays_law`]), and nothing that a Clocked assigns contradicts
//! the step ([`agrees_law`]); where there is one, it contradicts the step ([`moved_law`]).
#![tactic(auto)]

mod laws;
mod moved;

pub use laws::{agrees_law, moved_law, stays_law};
pub use moved::first_moved;
pub use step_values::{StepValues, put_dump};
