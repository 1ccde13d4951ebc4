//! The run of the body of a Clocked block, and what is done to a store before the first of them and after the last.
//!
//! Between these runs writes are queued, so what a store knows is said by `CanRun` (`specs/CanRun.antt`). [`begin_runs`] starts
//! from what a store knows. [`run_block`] runs a body on the view as which it meets the store, and leaves what the definition
//! of the run leaves (`runs_of` of `body_replay`), kept and queued. [`make_updates`] makes what was queued.
#![tactic(auto)]

mod between;
mod run;

pub use between::{begin_runs, make_updates};
pub use block_runs::{BlockNotes, Certainty, Doubt, Piece};
pub use run::run_block;
pub use run_views::Store;
