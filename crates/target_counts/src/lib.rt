//! How many targets on a path through a process name a signal or memory.
//!
//! [`push_once`] picks from some signals and memories those that at most one target names on each path through a
//! process, as `names_once` of `design_model` defines it. It goes over the text of the process once; a target that is
//! in the branches of some `if` and `case` statements costs twice their number more.
#![tactic(auto)]

mod counts;
mod once;
mod walk;

pub use counts::TargetCounts;
pub use once::push_once;
