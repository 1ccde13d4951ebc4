//! The terms and targets of the flat design (IEEE 1364-2001 clauses 4 and 9). They are built where no fault was
//! found, so only want of memory ends a call without an answer.
//!
//! [`term`] and [`alone`] build the term of an expression in and without a context, [`condition_term`] that of a
//! condition, [`right_side`] that of the value of an assignment, and [`target`] a target. Each is proved to give
//! exactly the term of the definition, with the numbers of its counted nodes.
#![tactic(auto)]

mod counted;
mod counting;
mod forms;
mod indexes;
mod names;
mod shapes;
mod targets;
mod terms;

pub use counted::take;
pub use counting::{pass_condition_nodes, pass_nodes};
pub use forms::Around;
pub use shapes::shape_of;
pub use targets::target;
pub use terms::{alone, condition_term, right_side, term};
