//! The values with which a clean block is entered: its trigger at its new value, each early input that the dump has at what
//! its old and its new value have in common, and nothing known of each other early signal or memory (IEEE 1364-2001, clause 5:
//! the order of events in a step is free, so what may change before the block is evaluated may have either value).
//!
//! [`enter_block`] shows and veils these in a store, as far as the body of a block mentions or assigns them: its run then is that on
//! `clean_store` of the definition of the replay. [`show_kept`] ends it.
#![tactic(auto)]

mod entry;
mod needed;

pub use needed::enter_block;
pub use run_views::{Store, show_kept};
