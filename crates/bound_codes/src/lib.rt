//! The codes of the variables to which the signals of a design are bound, as lists.
//!
//! [`signal_codes`] gives for each signal the code that it has, and [`coded_flags`] for each code whether a signal has it.
#![tactic(auto)]

mod codes;

pub use codes::{coded_flags, signal_codes};
