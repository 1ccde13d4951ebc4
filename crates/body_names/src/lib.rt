//! The signals and memories that the body of a process mentions, each given to a sink in the order of `body_names` of
//! `process_names`, after those of a list. No memory is taken, and time for the list and for the text of the body.
#![tactic(auto)]

mod names;
mod statements;
mod targets;
mod terms;

pub use names::Names;
pub use statements::name_all;
