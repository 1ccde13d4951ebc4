//! What the run of a body does to what it reads: the writes of its assignments, the updates that it queues, and the two
//! branches of a test that is not decided; and what is done to what is kept when a block runs.
#![tactic(auto)]

mod blocks;
mod bodies;
mod lvalue;

pub use blocks::Blocks;
pub use bodies::Bodies;
pub use lvalue::Lvalue;
pub use term_replay::{
    Access, Notes, Progress, Reads, Spot, TermHead, evaluate, fitted, note_words,
};
