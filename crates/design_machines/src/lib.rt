//! The state machines in the instances of a design, named and drawn, or the first fault in those that are named.
#![tactic(auto)]

mod drawn;
mod fault;
mod found;
mod machine;
mod table;

pub use fault::StateFault;
pub use found::MOST_STATES;
pub use machine::Machine;
pub use state_machines::States;
pub use table::{all_machines, design_machines};
