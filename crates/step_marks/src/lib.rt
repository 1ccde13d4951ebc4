//! The marks of the toggles of a step, once its processes have run.
//!
//! [`mark_moved`] marks the toggles of the signals that may move. It takes no memory.
#![tactic(auto)]

mod marks;

pub use marks::mark_moved;
