//! How an instance joins the ports of its module, and which parameters it overrides (IEEE 1364-2001 clauses 12.2 and
//! 12.3).
//!
//! [`check_given`] gives connections and overrides by position and by name, [`check_overrides`] the values of
//! overrides, [`joined_ports`] the ports that are joined to expressions, and [`join`] how each is joined: as one
//! signal with another, by an assignment, or not at all. [`check_faulty_ports`] looks at what is joined to ports that
//! have a fault themselves. Each is proved to give exactly what its definition says, with its faults.
#![tactic(auto)]

mod aliases;
mod faulty;
mod first;
mod given;
mod joining;
mod overrides;
mod ports;

pub use aliases::port_aliases;
pub use faulty::check_faulty_ports;
pub use given::{Connection, check_given, connections};
pub use joining::{Joined, join, join_all};
pub use overrides::check_overrides;
pub use ports::{JoinedPort, joined_ports};
