//! The run of a body on values that are partly known: each statement once, an undecided test both ways. No memory is taken.
#![tactic(auto)]

mod statement;

pub use statement::run_statement;
