//! The runs of a closing step: its continuous assignments and combinational blocks that watch something that may move, each
//! once, in their order.
//!
//! [`run_all`] runs the processes of a wake list, which are then the runs of the step (`all_run` of `replay_model`). What it asks of
//! the rows of a design follows from how they are made ([`written_rows`], [`rows_law`]), and what it asks of the changes of
//! a step from how they are found ([`steps_law`]). Only [`written_rows`] takes memory; the runs cost what wakes their
//! processes, their targets and their bodies, and for each the logarithm of the count of processes.
#![tactic(auto)]

mod laws;
mod rows;
mod runs;

pub use laws::{order_example, rows_law, steps_law, words_law, written_example};
pub use rows::written_rows;
pub use run_marks::MarkNotes;
pub use runs::run_all;
