//! The assignments of a body in the weak way: the block may run any number of times, on any values, so each write of the text
//! may be made, and nothing that it reads is known.
//!
//! [`write_body`] makes the writes of `weak_writes` and queues those of `weak_queue` in `body_replay`.
#![tactic(auto)]

mod assignment;
mod statement;
mod unread;

pub use statement::write_body;
