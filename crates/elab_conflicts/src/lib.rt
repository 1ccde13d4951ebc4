//! Drivers and assignments in conflict (IEEE 1364-2001 clauses 6.1 and 9.2).
//!
//! [`two_drivers`] gives the first name in the text at which a second driver of a bit, a variable or a memory is
//! found, and [`mixed`] the first at which blocking and nonblocking assignments meet in one signal or memory. Both
//! sort what is written once and go over it once, and are proved to find exactly the first such name, whatever the
//! order of what is written.
#![tactic(auto)]

mod conflicts;

pub use conflicts::{mixed, two_drivers};
