//! The run of the body of a block on a store in which only some values are known, in each of four ways. In the weak way the
//! body is not evaluated: each write of the text may be made, whatever the body reads, and all that it may visit is in doubt.
//!
//! [`run_body`] gives what `outcome` of `body_replay` defines: what is kept afterwards, what is queued, and what is noted, with
//! the time of the step and the thing to blame. [`outcomes_law`] says that these are runs as the replay of a dump takes them.
#![tactic(auto)]

mod by_way;
mod certainty;
mod laws;
mod notes;
mod process;
mod queue;
mod runs;
mod strong;
mod weak;

pub use assignments::Piece;
pub use certainty::Certainty;
pub use laws::outcomes_law;
pub use notes::{BlockNotes, Doubt};
pub use queue::queue_law;
pub use runs::run_body;
