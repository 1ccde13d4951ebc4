//! Theorems: the sets that `early_sets` finds by tables are those of the definitions of a design. There is no code.
//!
//! [`wakes_law`] states it of what is single after the rounds of a step, of what may move, of the event signal by which a
//! process wakes, of the trigger of a clean block and of what is early for it, where the tables are those of a lawful
//! design and each change was noted.
#![tactic(auto)]

mod laws;

pub use laws::wakes_law;
