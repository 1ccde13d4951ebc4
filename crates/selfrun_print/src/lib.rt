//! The print of a selfrun: six lines with the number of times of its dump, and the counts of the points of its table.
//!
//! ```text
//! let text = print_of(alloc, 5, &table)?; // `covered selfrun 1`, `times 5`, `points 98`, `hit 19`, `missed 79`, `undetermined 0`
//! ```
#![tactic(auto)]

mod counts;
mod print;

pub use print::print_of;
