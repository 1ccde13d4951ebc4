//! The points of a design with the state machines that are named.
//!
//! [`list_points`] lists them, or gives the first fault in the machines, or says that the points are too many. A design does not have few points
//! and many at once ([`count_law`]), nor its points listed and a fault ([`fault_law`]).
#![tactic(auto)]

mod laws;
mod points;

pub use cover_points::PointFault;
pub use laws::{count_law, fault_law};
pub use points::list_points;
pub use state_machines::States;
