//! The run of a continuous assignment or combinational block of a step, on settled values.
//!
//! [`certainty`] says how sure it is that the process acts: by what of the signals that wake it has changed over the step.
//! [`run`] is one run in a closing step (`run_settling` of `replay_model`), and [`run_first`] one in the first step: what is kept of
//! the targets is saved, the body runs, and what it made of them takes its place. No call takes memory; a run costs what wakes the
//! process, its targets and its body.
#![tactic(auto)]

mod acting;
mod change;
mod first;
mod parts;
mod process;
mod settled;

pub use body_store::Store;
pub use change::certainty;
pub use first::run_first;
pub use parts::{Found, ProcessRows, Scratch};
pub use process::run;
pub use settled_runs::{forget_all, new_store_law};
pub use settled_targets::{SavedValues, StepValues, is_coded, put_dump};
pub use wake_bits::{Wake, wake_rows};
