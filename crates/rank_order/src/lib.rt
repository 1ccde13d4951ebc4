//! An order of nodes in which each comes after all that it needs.
#![tactic(auto)]

mod lists;
mod order;
mod sorting;

pub use order::order_after;
