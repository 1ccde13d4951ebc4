//! State machines that are named by words: a variable of a module, and the parameters that are its states; and states and arcs that are
//! drawn by their values.
//!
//! [`States`] keeps the named machines, one for each variable of a module, and what is drawn. [`machine_in`] gives the signal and the
//! values of the states of a machine in an instance of a lawful design, or says which name is no signal or no
//! parameter of it; [`first_same`] finds a state whose value an earlier one has. Each is proved to answer exactly so.
#![tactic(auto)]

mod drawn;
mod lookups;
mod machine;
mod names;
mod same;
mod states;

pub use design_model::{Design, Instance};
pub use drawn::Drawn;
pub use machine::{
    InstanceMachine, MachineFault, machine_in, signal_named, state_value, state_values,
};
pub use same::first_same;
pub use states::{NamedMachine, States};
