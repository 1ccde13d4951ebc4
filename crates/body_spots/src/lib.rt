//! All that a body may visit, whatever values it reads: its statements, the cases of its counted nodes, and the words of the
//! memories that it reads and writes.
//!
//! [`note_spots`] notes each of them as a hit, in the order of `body_spots` in `body_replay`. A sink that turns each hit into
//! a doubt so leaves open all that a block may visit that may run. No memory is taken.
#![tactic(auto)]

mod nodes;
mod statements;
mod targets;
mod terms;
mod words;

pub use statements::note_spots;
