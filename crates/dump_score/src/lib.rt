//! Scores a dump for a design while it is read from a host, in pieces of 65,536 bytes.
//!
//! [`score_dump`] gives the table of a design under the dump in a file, in runs whose inputs move by a habit. It
//! refuses only for the first fault of the text, for a binding that fails, for a bound signal without a value before the second
//! time, for what no run of the design shows, for a call of the host that gave nothing, or for want of memory, and it changes no
//! file. [`binding_goes_first`] states that a text is not refused for its binding and for something after it at once, and
//! [`first_values_go_in_order`] that it is not for a first value that is missing and for a fault.
#![tactic(auto)]

mod fault;
mod header;
mod items;
mod laws;
mod pieces;
mod score;

pub use dump_replay::{Habit, ReplayFault};
pub use fault::ScoreFault;
pub use laws::{binding_goes_first, first_values_go_in_order};
pub use score::score_dump;
