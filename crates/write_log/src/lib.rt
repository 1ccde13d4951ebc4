//! The log of what the branches of undecided tests overwrite. Both branches of such a test are run from the same values, and
//! then what both leave in common is kept. No value is copied before it is written, and only `Log::new` takes memory.
#![tactic(auto)]

mod common;
mod entry;
mod laws;
mod log;
mod moves;

pub use entry::{Overwritten, Test};
pub use laws::common_law;
pub use log::Log;
pub use value_store::{Memory, Queue, Signals, log_room, queue_room};
