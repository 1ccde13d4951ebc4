//! The bits of signals that each process of a design may write, as masks.
//!
//! [`Bits`] are some bits of one signal. [`target_rows`] gives for each process a row of them in which each signal is once:
//! exactly those that its blocking assignments may write, and a name without bits where they name a signal by an index
//! with an x or z alone. [`set_places`] and [`mask_of`] look bits up in a row in constant time. [`leaves_law`] states that
//! the parts of the targets of a process write what it may write of signals, and [`settled_law`] that a continuous
//! assignment or combinational block writes nothing else.
#![tactic(auto)]

mod bits;
mod laws;
mod parts;
mod places;
mod rows;

pub use bits::{Bits, mask_of, set_places};
pub use laws::{leaves_law, part_law, settled_law};
pub use parts::all_places;
pub use places::places_from;
pub use rows::target_rows;
