//! A theorem: the sets that `early_sets` finds for a step are those that the proof of the replay takes. There is no
//! code.
//!
//! [`sets_law`] states it, once a step is settled and what is early was found for each clean block.
#![tactic(auto)]

mod laws;

pub use laws::sets_law;
