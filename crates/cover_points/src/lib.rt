//! The coverage points of a lawful design, each once, in their order.
//!
//! [`list`] gives the points of lines, nodes, toggles, state machines and words: each that the definition of points in `design_model`
//! has, and no other, with no two points of one visit. A design of more than [`MOST_POINTS`] is refused. [`Visit`] is
//! what a replay reports of a point of a line, node, toggle or word.
#![tactic(auto)]

mod compare;
mod fault;
mod lines;
mod listing;
mod machine_point;
mod machines;
mod nodes;
mod points;
mod things;
mod visit;

pub use compare::case_rank;
pub use design_machines::Machine;
pub use design_model::NodeCase;
pub use fault::PointFault;
pub use lines::line_points;
pub use listing::{MOST_POINTS, Points, list};
pub use machine_point::MachinePoint;
pub use machines::machine_points;
pub use nodes::node_points;
pub use points::IndexPoint;
pub use text_points::{LinePoint, NodePoint};
pub use things::{toggle_points, word_points};
pub use visit::Visit;
