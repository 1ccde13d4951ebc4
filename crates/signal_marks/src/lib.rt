//! The marks of the toggle points of signals, found by the places of bits.
//!
//! [`mark_toggles`] marks the toggles of a signal over a step: those of the bits that surely toggle are hit, and those of
//! the bits that may toggle are left open. [`mark_places`] does so for the bits of one mask. Both are proved to change the
//! verdicts of these points so, and no others (`specs/Toggled.antt`), and take no memory. [`index_law`] states that the
//! index of a place names the bit at that place.
//!
//! [`SignalMarks::mark`] does the same from the values of the signal before and after, and keeps in masks what is marked
//! already: only a toggle that is marked for the first time costs more than constant time. The masks are proved to say
//! no more than the verdicts (`specs/Seen.antt`). [`seen_hit_law`] and [`seen_doubt_law`] state that they still do where
//! other calls mark points.
#![tactic(auto)]

mod index;
mod laws;
mod places;
mod seen;
mod toggles;

pub use index::index_at;
pub use laws::{index_law, seen_doubt_law, seen_hit_law};
pub use places::{Toggling, mark_places};
pub use seen::SignalMarks;
pub use toggles::mark_toggles;
