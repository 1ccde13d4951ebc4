//! The program over a host: [`covered`] reads the words of a command, does the work, and answers with a status.
//!
//! The clauses of [`covered`] are what the whole program promises, and `specs/Scoring.antt` has the one of a score: each
//! coverage point of the design is listed once, each verdict holds in every run of the design that shows the dump, and each
//! undetermined point has its reason.
//! Nothing here opens a file by itself: a host does, real (`file_host::FileHost`) or in memory.
//!
//! ```text
//! let mut words = Words::new(alloc);
//! for word in ["score", "-t", "pads", "-i", "tb.dut", "-v", "pads.v", "-vcd", "pads.vcd", "-o", "pads.db"] {
//!     words.push(word)?;
//! }
//! let status = covered(alloc, &words, &mut host); // Status::Done, and the host has the file pads.db
//! ```
#![tactic(auto)]

mod contradiction;
mod drawings;
mod dump_refusal;
mod fault;
mod fault_status;
mod message;
mod points_message;
mod score;
mod score_words;
mod selfrun;
mod selfrun_fault;
mod selfrun_laws;
mod signal_path;
mod status;
mod top_call;

pub use status::Status;
pub use top_call::covered;
