//! Assignments on values that are partly known (IEEE 1364-2001, clause 9.2): the indexes of a target, its value, the words that
//! it writes, and the writes, which are made at once or queued. No memory is taken.
#![tactic(auto)]

mod assignment;
mod laws;
mod parts;
mod piece;
mod target;

pub use assignment::assign;
pub use laws::widths_law;
pub use parts::{at_width, cut, make, note_written, queue_pieces, total_width, write_pieces};
pub use piece::Piece;
pub use scene_laws::{Bodies, Notes, Progress, Spot, evaluate};
pub use target::locate;
