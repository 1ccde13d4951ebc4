//! The state machines of each signal.
#![tactic(auto)]

mod index;

pub use index::MachineIndex;
