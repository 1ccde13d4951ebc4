//! Which process writes an event signal of the dump at most once in each evaluation.
//!
//! [`once_writers`] finds these signals and their writers for a lawful design. Such a signal, as a divided clock or a
//! synchronised reset, moves at most once in a step in which its writer runs at most once.
#![tactic(auto)]

mod lists;
mod wanted;
mod writers;

pub use writers::once_writers;
