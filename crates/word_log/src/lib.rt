//! The log of what the branches of undecided tests overwrite in the words of memories. Both branches of such a test are run
//! from the same words, and then what both leave in common is kept. No word is copied before it is written, and only
//! [`WordLog::new`] takes memory.
#![tactic(auto)]

mod entry;
mod joins;
mod kept;
mod log;
mod memory;
mod moves;
mod seen;

pub use entry::OverwrittenWord;
pub use log::WordLog;
pub use memory::StoredMemory;
pub use memory_rebuild::Rebuilt;
