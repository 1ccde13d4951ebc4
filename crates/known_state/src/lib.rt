//! Vectors of which only some bits are known, with the thing to blame for the others, and the operators on them.
//!
//! A [`Known`] allows the vectors that agree with its sure bits. [`Known::unary`], [`Known::binary`],
//! [`Known::choose`], [`Known::extend`], [`Known::select`], [`Known::place`], [`Known::append`], [`Known::label`] and
//! [`Known::truth`] are proved to allow the four-state answer of all allowed values, and to leave a bit unsure only
//! where two allowed values differ in it, except in a shift by an unsure amount. Where all is known they give the
//! four-state answer, and else the thing to blame is that of an operand that is not known whole. No call takes
//! memory.
#![tactic(auto)]

mod choose;
mod join;
mod known;
mod label;
mod mask;
mod maybe;
mod operate;
mod part;
mod truth;

pub use known::Known;
pub use maybe::{KnownTruth, Maybe};
