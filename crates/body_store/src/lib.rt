//! What bodies read and write while they are replayed: what is known of the signals and memories of a design, in one
//! [`Store`].
//!
//! In a new store nothing is known, and each signal and memory is to blame for itself. [`Store::new`] says so by two
//! relations to the cells of a design: what the store keeps, and what bodies read of it (`specs/Held.antt`). It takes the room
//! that the bodies of the design need, and each store has it (`specs/Counted.antt`).
//!
//! While a body runs it calls the store by two traits: [`term_replay::Reads`] and [`body_calls::Bodies`]. After a run
//! [`Store::end_run`] makes each signal to blame for itself again, and [`Store::flush`] makes what the run has queued. The run
//! of a block calls the store by a third trait, [`body_calls::Blocks`], which ends the run too.
//!
//! [`Store::show`] and [`Store::veil`] put something else in the place of what is kept, which bodies read until
//! [`Store::plain`]: what is kept stays, also where a body writes what is shown or veiled (`specs/Views.antt`).
#![tactic(auto)]

mod blocks;
mod bodies;
mod end;
mod flush;
mod forget;
mod kept;
mod laws;
mod reads;
mod showing;
mod store;
mod unknown;
mod update;
mod veils;
mod write;

pub use laws::{own_law, premises_law, views_law};
pub use store::Store;
pub use update::Update;
pub use word_log::StoredMemory;
