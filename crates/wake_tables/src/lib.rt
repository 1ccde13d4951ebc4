//! A table of what wakes each process of a design and what each process may write, by number.
//!
//! [`WakeTables`] is made by `design_wakes` and read by `early_sets`. The type guarantees that all numbers in it are
//! those of signals, memories and processes.
#![tactic(auto)]

mod tables;

pub use tables::WakeTables;
