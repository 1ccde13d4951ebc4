//! The sets of the steps of a design: made from the design, and found from the signals that change in a step.
//!
//! [`wakes_of`] and [`wakes_in_rounds`] make the tables of a lawful design, and [`find`] takes the changes of a step in one
//! call. It is proved that after it, and once what is early was found for each clean block, the answers are the sets of the
//! step that the replay takes (`specs/Step.antt`): by the first round of single cells from `wakes_of`, and by the last one
//! from `wakes_in_rounds` with the writers of the design. Only these two calls take memory.
#![tactic(auto)]

mod inputs;
mod made;
mod step;
mod tables;

pub use made::{wakes_in_rounds, wakes_of};
pub use step::{SignalChange, find};
