//! The terms of a body evaluated on values of which only some bits are known.
//!
//! [`evaluate`] gives the value of a term over what a trait reads ([`Reads`]), with the blame of the first read of
//! the run that was not wholly sure, and notes the words that are read and the cases of counted nodes ([`Notes`]).
//! All three are proved to be those of the definition of a run in `body_replay`. Each form of a term is one function
//! over the values of its operands. A value of at most 64 bits of which each is sure to be 0 or 1 is a number, and no vector is
//! copied for it. No call takes memory.
#![tactic(auto)]

mod after;
mod answers;
mod cases;
mod evaluation;
mod fit;
mod head;
mod memory;
mod notes;
mod number_operators;
mod offset;
mod operate;
mod plain;
mod reads;
mod repeated;
mod select;

pub use cases::{note_own, note_two};
pub use evaluation::{Evaluated, Progress, evaluate};
pub use fit::{fitted, number, sign, signal};
pub use head::TermHead;
pub use known_state::Known;
pub use memory::{may_name, note_words, word};
pub use notes::{Access, Notes, Spot};
pub use operate::{binary, choice, unary};
pub use reads::Reads;
pub use repeated::{concat, copies, followed_by};
pub use select::{bit, part, range_of, slide};
