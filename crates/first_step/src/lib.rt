//! The first step of a stretch of a dump.
//!
//! [`begin_first`] puts in the dump's values of all signals that it has, runs each continuous assignment once in its order, and
//! each combinational block that has acted, without notes, and compares what was made with the dump. The store then knows what the
//! definition of the first step keeps (`started` of `replay_model`), and a difference is named exactly where one contradicts it
//! (`contradicts_first`). It takes no memory.
#![tactic(auto)]

mod begin;
mod dump;
mod laws;
mod runs;

pub use begin::begin_first;
pub use laws::first_example;
pub use settling::{
    Found, ProcessRows, SavedValues, Scratch, StepValues, Wake, forget_all, new_store_law,
    wake_rows,
};
pub use step_check::{check, check_rows};
