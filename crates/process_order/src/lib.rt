//! The order in which the continuous assignments and combinational blocks of a design are run in a step.
#![tactic(auto)]

mod names;
mod needs;
mod order;
mod owners;
mod parts;
mod tables;

pub use owners::mark;
pub use tables::{ProcessTables, process_tables};
