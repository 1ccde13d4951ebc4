//! What is early for one clean block after the other. Blocks with one trigger that write nothing by blocking assignments share
//! what is early, so it is found once for those of them that follow each other.
#![tactic(auto)]

mod choose;

pub use choose::choose_early;
pub use early_sets::{Habit, Wakes};
