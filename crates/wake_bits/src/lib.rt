//! The bits at whose changes each continuous assignment and combinational block acts, as masks.
//!
//! [`wake_rows`] gives for each process what it watches, in order of reading, with the places of the bits that its own
//! body does not write, and whether the body mentions it. [`wake_law`] states that a test of the places of such a mask is
//! one of the wake cells of the process (`wake_cells` of `replay_model`).
#![tactic(auto)]

mod laws;
mod mentions;
mod wakes;

pub use laws::wake_law;
pub use wakes::{Wake, wake_rows};
