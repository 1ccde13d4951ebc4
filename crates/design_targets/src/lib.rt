//! The signals and memories that each process of a design may write.
//!
//! [`target_rows`] gives for each process what its blocking or its nonblocking assignments may write, by their text
//! (`specs/Written.antt`); a part at a constant index with an x or z has no bits. [`targets_law`] states that for a
//! lawful design these are the signals and memories of which the process may write a bit. [`push_leaves`] gives the
//! parts of the targets that they come from, and [`constant_value`] the value of an index that is constant.
#![tactic(auto)]

mod constant;
mod laws;
mod leaves;
mod place;
mod rows;
mod smallest;

pub use laws::targets_law;
pub use leaves::{Leaf, push_leaves};
pub use place::constant_value;
pub use rows::target_rows;
