//! The replay of a dump of a design: what the dump says is compared with what the processes of the design make of it, step by
//! step, and what each of them must have executed is marked.
//!
//! A [`Replay`] is made of a design, its points and the codes of its signals. [`Replay::change`] takes a change of a code.
//! In each stretch of a dump [`Replay::start`] closes the first step, [`Replay::close_step`] each later one, and [`Replay::rest`]
//! those at the times that the dump does not list. After a stretch [`Replay::pause`] forgets the values. [`Replay::finish`] hands
//! out the marks. It is proved that what is kept and marked is right in every run of the design that shows the dump
//! (`specs/Followed.antt`), and that no run shows a dump that is refused as a contradiction. Only [`Replay::new`] takes
//! memory.
#![tactic(auto)]

mod clocked;
mod fault;
mod first;
mod pausing;
mod replay;
mod room;
mod rows;
mod runs;
mod state;
mod step;
mod tables;

pub use fault::ReplayFault;
pub use replay::Replay;
