//! Bytes of a value change dump, sixteen at a time (IEEE 1364-2001 clause 18.2).
//!
//! [`digit_run`] and [`word_length`] give how many bytes come before the first that is no digit of a value, or that is white
//! space. [`digit_masks`] gives the bits that digits write as two masks. A byte that has no sixteen after it is read alone.
#![tactic(auto)]

mod byte_tests;
mod lanes;
mod masks;
mod runs;

pub use byte_tests::{is_digit, is_white_space, writes_one_or_z, writes_strange};
pub use masks::{DigitMasks, digit_masks};
pub use runs::{digit_run, word_length};
