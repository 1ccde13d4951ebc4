//! The check of a step against the dump, once its processes have run.
//!
//! [`check_rows`] makes once the lists of signals that each process has the step checked for. [`check`] finds the first signal of
//! which the step made something else than what the dump says. Where there is no such signal, nothing contradicts the step
//! ([`agree_law`]), and where there is one, it does ([`differ_law`]). What the Clocked processes assign is compared before the
//! others run: that it agrees with the dump is a premise (`agree` of `HasRun`).
#![tactic(auto)]

mod dump;
mod laws;
mod rows;

pub use dump::check;
pub use laws::{agree_law, differ_law};
pub use rows::check_rows;
