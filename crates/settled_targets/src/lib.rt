//! What is kept of the targets of a continuous assignment or combinational block while it runs on settled values, and
//! what is kept of them after the run.
//!
//! Before the run [`SavedValues::save`] saves the value of each signal that the process writes, and for a combinational
//! block [`hide_targets`] makes these signals unknown. After it [`SavedValues::put_back`] puts the saved values back, with
//! what the run made of them: kept where the dump does not have the signal, and set aside where it has it
//! (`specs/Returned.antt`). Only [`SavedValues::new`] takes memory.
#![tactic(auto)]

mod hide;
mod put_back;
mod saved;

pub use hide::hide_targets;
pub use saved::SavedValues;
pub use step_values::{StepValues, is_coded, put_dump};
