//! The arcs of a state machine that the case statements of a design draw.
//!
//! A signal has the state of the machine, and a signal is assigned its next state. [`find`] gives these two signals by their
//! names in an instance. [`arcs`] lists the arcs and states that are drawn: where the selector of a `case` is the first
//! signal alone, each constant label of an arm is a state, and each constant that the arm assigns to the whole of the second
//! signal is one to which an arc leads. Both are proved to answer exactly what `specs/Arcs.antt` and `specs/Fault.antt` say.
#![tactic(auto)]

mod constant;
mod draw;
mod lists;
mod machine;
mod names;
mod numbers;
mod sorted;
mod strange;
mod walk;

pub use draw::arcs;
pub use lists::Arcs;
pub use names::{MachineFault, MachinePart, find};
