//! A closing step up to the first run of an Assign or Comb, around the runs of its Clocked.
//!
//! [`find_step`] finds what has changed and what may move, sets aside what is known of that, and puts the Clocked that this wakes on
//! their list (`HasFound` of `step_parts`). The caller runs them (`HaveClockedRun`). Then [`settle_step`] takes over what they made of
//! the signals that the dump has, checks that and what may not move, puts the Assigns and Combs to run on the wake list in their
//! order, and gives the store and the vectors the values with which the first of them runs (`HasBegun`). [`StepTables`] are made of
//! a design and its binding once, and a [`StepRoom`] is used in each step anew; they are of the size of the design
//! (`specs/Fits.antt`). No call takes memory.
#![tactic(auto)]

mod find;
mod room;
mod running;
mod settle;

pub use find::find_step;
pub use room::{StepRoom, StepTables};
pub use settle::settle_step;
