//! The words of memories that the runs of a step have written, or may have written.
//!
//! A [`WrittenWords`] is given each word as it is noted to be written, and gives the words back by their memories. It has room
//! for the words of the memories that are followed, and leaves out the others. Only [`WrittenWords::new`] takes memory. To put a
//! word in takes constant time, and the set is emptied in the time for the memories of which there are words.
#![tactic(auto)]

mod range;
mod words;

pub use range::{WordRange, followed_range};
pub use words::WrittenWords;
