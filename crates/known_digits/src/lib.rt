//! Partly known vectors as text, for messages.
//!
//! [`write_digits`] writes a digit for each bit, the highest first, and a question mark for a bit that is not sure. It takes no
//! memory.
#![tactic(auto)]

mod digits;

pub use digits::{MOST_DIGITS, write_digits};
