//! The processes that are to run in a step, taken in order of rank.
#![tactic(auto)]

mod least_set;
mod queue;
mod wake_list;

pub use least_set::LeastSet;
pub use wake_list::WakeList;
