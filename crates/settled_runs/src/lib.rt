//! The run of the body of a continuous assignment or combinational block on settled values.
//!
//! [`run_settled`] runs the body of a process on a store that knows some values: afterwards the store knows what the definition
//! of the run leaves (`runs_of` of `body_replay`), nothing is queued, and the sink has taken what the definition notes.
#![tactic(auto)]

mod run;

pub use block_runs::{BlockNotes, Certainty, Doubt};
pub use process_targets::Bits;
pub use run::run_settled;
pub use store_knowledge::{forget_all, known_signal, new_store_law};
