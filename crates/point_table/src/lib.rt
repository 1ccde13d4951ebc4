//! The table of a design: the points that are listed, with the verdicts of their marks.
//!
//! [`collect`] gives the database of a design from its points, their marks, the windows of a dump and the names of its sources: its instances
//! in the order of their paths, and each point by its address, in the order of the list.
#![tactic(auto)]

mod addresses;
mod rows;
mod table;
mod verdicts;

pub use table::collect;
