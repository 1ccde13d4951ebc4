//! Vectors of 1 to 128 bits with the values 0, 1, x and z, and the operators of IEEE 1364-2001 clause 4 on them.
//!
//! A [`Four`] is two masks of 128 bits, and contracts see it as the list of its bits, the lowest first, with a sign.
//! [`Four::unary`], [`Four::binary`], [`Four::choose`], [`Four::extend`], [`Four::select`], [`Four::place`],
//! [`Four::label`] and [`Edge::between`] are each proved to give what its definition by bits gives. They use whole
//! masks, without loops, and take no memory.
#![tactic(auto)]

mod arithmetic;
mod bit;
mod bitwise;
mod edge;
mod four;
mod index;
mod mask;
mod operate;
mod operator;
mod part;
mod reduce;
mod relation;
mod shift;
mod truth;

pub use bit::Bit;
pub use edge::Edge;
pub use four::Four;
pub use index::Index;
pub use operator::{Binary, CaseKind, Unary};
pub use truth::Truth;
