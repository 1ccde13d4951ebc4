//! The sink that the runs of bodies note their marks into: each note becomes a mark of its point, and the words that are written
//! are listed.
//!
//! [`MarkNotes`] finds the point of a spot in constant time, and leaves out a spot of which there is no point or whose point is hit
//! already, among them the lines and nodes of a process whose points are all hit. After a run each verdict is the one by what was
//! reported before it and by what the run has noted ([`start_law`], [`notes_law`]).
#![tactic(auto)]

mod laws;
mod notes;
mod spots;

pub use laws::{notes_law, report_example, spot_example, start_law};
pub use notes::MarkNotes;
pub use written_words::WrittenWords;
