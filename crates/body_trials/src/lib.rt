//! Runs of the bodies of a lawful design on values that are given by their digits, for tests.
//!
//! [`given_of`] reads what is known before a run, as `en=0 a=1? m=0,0,1,x`. [`run_block`] keeps that in a new store, runs the
//! body of a process in one of the four ways, makes the updates that it queues, and gives an [`Outcome`]: what the run noted,
//! and what is kept after it.
#![tactic(auto)]

mod digits;
mod given;
mod marks;
mod outcome;
mod process;
mod runs;
mod stores;
mod texts;
mod things;

pub use digits::{add_digits, known_of};
pub use given::{Given, given_of};
pub use marks::Mark;
pub use outcome::Outcome;
pub use runs::run_block;
pub use things::thing_named;
