//! The rows of a table of wakes that say what wakes each process of a design.
//!
//! [`level_rows`] gives for each signal or memory the processes that each change of it wakes, [`edge_rows`] for each
//! signal the processes that list an edge of it, and [`event_rows`] for each process its list of edges; [`transpose`]
//! turns lists round. Each is proved to contain exactly what its definition says (`specs/Tables.antt`).
#![tactic(auto)]

mod edges;
mod level;
mod turned;

pub use edges::{edge_rows, event_rows};
pub use level::level_rows;
pub use process_names::{push_assigned, push_level};
pub use turned::transpose;
