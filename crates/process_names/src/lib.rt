//! The signals and memories that the text of a process mentions or lists, and those that it assigns.
//!
//! [`push_level`] appends what wakes a process at each change, in the order in which its body reads, so that an index
//! comes before what it indexes. [`push_assigned`] appends what the body assigns by blocking or by nonblocking
//! assignments, in the order of the text. [`names_law`] states that these lists are those of the tests of the
//! definitions in `design_model`.
#![tactic(auto)]

mod assigned;
mod laws;
mod names;

pub use assigned::push_assigned;
pub use laws::names_law;
pub use names::push_level;
