//! The marks of the states and arcs of state machines after a step.
//!
//! [`mark_machine`] marks a machine by what is known of its signal before and after a step, and [`mark_states`] its states alone. What
//! surely was is hit, and what may have been is left open. Both are proved to change the verdicts of these points so, and no
//! others (`specs/Marked.antt`), and take no memory.
#![tactic(auto)]

mod arcs;
mod chance;
mod mark;
mod states;

pub use arcs::mark_machine;
pub use cover_points::{Machine, Points};
pub use machine_index::MachineIndex;
pub use states::mark_states;
