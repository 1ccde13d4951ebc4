//! The comparison of what the processes of a step made with what the dump says, in the order in which the first
//! contradiction is named.
//!
//! [`CheckOrder::collect`] puts the targets of the processes that ran in order, each at the place of the last
//! process that drives it, and [`CheckOrder::first_difference`] finds the first of them that differs from the dump in a sure bit, or none
//! only where none does (`specs/Checks.antt`). Only [`CheckOrder::new`] takes memory.
#![tactic(auto)]

mod order;

pub use order::{CheckOrder, Difference};
