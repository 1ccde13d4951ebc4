//! The values that a dump gives to its codes in a step, and which signals change by that.
//!
//! [`CodeValues::set`] takes a change of a code in constant time; a value that is given again costs one comparison.
//! [`CodeValues::add_changed`] finds the signals whose value is another one than at the last closed step: exactly those
//! (`specs/Values.antt`), in the time of the codes that were given a value. [`CodeValues::close`] closes a step.
//! [`CodeValues::first_missing`] is the first signal whose code has no value. Only [`CodeValues::new`] takes memory.
#![tactic(auto)]

mod values;

pub use values::CodeValues;
