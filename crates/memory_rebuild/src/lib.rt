//! The words of a memory of which not all bits are known.
//!
//! Contracts see a [`Rebuilt`] as its bounds and the bits of each word, with one thing to blame for those that are
//! not sure. [`Rebuilt::read`] gives the word that an index names, and by an index that is not sure what all words
//! that it may name have in common; [`Rebuilt::write`] writes each word that the index may name; [`Rebuilt::smudge`]
//! makes all words unknown by one addition. Each is proved to be exactly its definition, and that of `body_replay`
//! for a memory of a design. Only [`Rebuilt::new`] takes memory.
#![tactic(auto)]

mod rebuilt;
mod shape;
mod word;

pub use rebuilt::Rebuilt;
pub use shape::Shape;
