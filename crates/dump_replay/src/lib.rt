//! The replay of a dump of a design whose inputs move by a habit, while the dump is read.
//!
//! A [`DumpReplay`] binds the signals of the design to the variables of the dump's header, and takes the times and changes of its
//! body one by one: at each time the step of the time before it is closed. Where the dump goes off the replay pauses, so that no step
//! goes from one stretch to the next. It is proved that it has then followed each dump that begins so (`specs/Followed.antt`),
//! and that no run of the design shows a dump that is refused as a contradiction. A change takes constant time, and until the dump
//! has ended only [`DumpReplay::new`] takes memory.
#![tactic(auto)]

mod replay;

pub use early_sets::Habit;
pub use replay::DumpReplay;
pub use replay_core::ReplayFault;
pub use score_tables::score_table;
