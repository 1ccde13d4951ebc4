//! The marks of the state machines of a step, once its processes have run and the toggles are marked.
//!
//! [`MachineMarks::mark`] marks the states and arcs of the machines of what may move, and the states of all machines at the first step of
//! the window. After it the parts of the code are those of the replay after the step ([`closed_law`]). It takes no memory.
#![tactic(auto)]

mod laws;
mod machines;

pub use laws::closed_law;
pub use machines::MachineMarks;
