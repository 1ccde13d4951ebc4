//! The two files of a selfrun, as a host: the text of a design, and a dump of it that is made while it is read.
//!
//! The design writes and reads a memory of sixteen words. Its inputs follow from a number, by a generator of random numbers, and
//! the generator computes beside them what the design's registers then contain. [`SelfrunFiles`] is a `cov_host::Host` that has
//! the text of the design as [`SOURCE_NAME`] and the dump as [`DUMP_NAME`], so that what scores the files of a system scores
//! these too. No part of the dump is kept but the lines of one time, and no memory is taken.
//!
//! ```text
//! let mut files = SelfrunFiles::new(1, 1_000); // the number, and how many steps
//! files.open_read(DUMP_NAME)?;
//! let count = files.read(&mut piece)?; // the first lines of the dump
//! ```
#![tactic(auto)]

mod block;
mod dump;
mod files;
mod host;
mod input;
mod inputs;
mod laws;
mod moment;
mod registers;
mod source;

pub use files::SelfrunFiles;
pub use laws::{worked_case, written_times};
pub use source::{DUMP_NAME, SOURCE_NAME};
