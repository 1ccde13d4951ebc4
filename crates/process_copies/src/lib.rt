//! Copies of processes that lie in memory one after the other.
//!
//! Elaboration makes the bodies of a design between other values, so that their parts lie far apart, and a run that
//! walks them misses the caches. [`put_in_order`] makes each process again where the bodies are small, the parts of a
//! body in the order of the text and each after what it is a part of; it is proved that nothing else differs.
#![tactic(auto)]

mod design;
mod processes;
mod sizes;
mod statements;
mod targets;
mod terms;

pub use design::put_in_order;
