//! The line points and the counted nodes of one process, as its text gives them.
//!
//! [`push_lines`] appends the statements of a process, and [`push_nodes`] the cases of its counted nodes, in order of
//! the text. Both are proved to append exactly the list of `specs/Lines.antt` and `specs/Nodes.antt`.
#![tactic(auto)]

mod lines;
mod node_cases;
mod nodes;
mod operators;
mod points;

pub use lines::push_lines;
pub use nodes::push_nodes;
pub use operators::operator_of;
pub use points::{LinePoint, NodePoint, Owner};
