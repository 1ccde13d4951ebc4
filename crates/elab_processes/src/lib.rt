//! What is found in the processes of a module (IEEE 1364-2001 clauses 6.1, 9.7, 9.9 and 12.3.9). Nothing is built
//! here.
//!
//! [`check_continuous`] goes over a continuous assignment, [`check_net`] over a net with a value, [`check_always`]
//! over an `always` block, and [`check_joined_input`] and [`check_joined_output`] over ports that are joined to
//! expressions. Each is proved to add to a tally exactly what its definition finds: faults, statements, and what is
//! written.
#![tactic(auto)]

mod always;
mod assigned;
mod continuous;
mod incomplete;
mod joined;
mod nets;
mod reads;
mod signal_set;

pub use always::check_always;
pub use continuous::check_continuous;
pub use joined::{check_joined_input, check_joined_output};
pub use nets::check_net;
