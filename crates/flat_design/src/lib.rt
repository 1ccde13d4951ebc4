//! The definition of elaboration: the flat design of modules and a top, and everything that can be wrong with modules
//! (IEEE 1364-2001 clause 12).
//!
//! `answer` of `specs/Faults.antt` is what `elaborator::elaborate` is proved to give: the design of
//! `specs/Flat.antt`, or the first of all faults in the text. The crate also defines the types that the crates of
//! elaboration share: what a name means ([`Entry`]), the faults ([`ElabFault`]) and the limits of a design
//! ([`DesignLimit`], whose number is exact).
#![tactic(auto)]

mod counts;
mod entry;
mod fault;

pub use counts::Counts;
pub use entry::{Entry, MemoryEntry, Mode, SignalEntry, Thing};
pub use fault::{DesignLimit, ElabFault, ElabKind};
