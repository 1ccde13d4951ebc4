//! Numbers by row and column in one flat vector, each found in constant time.
//!
//! [`NumberTable::new`] numbers slots in their order, and [`NumberTable::number`] is proved to give the number of
//! each slot that has one. Each row has room from its least column to its greatest, so the columns of a row are to be
//! close together.
#![tactic(auto)]

mod ranges;
mod rows;
mod slot;
mod table;

pub use slot::Slot;
pub use table::NumberTable;
