//! The labels of an arm of a case statement on values that are partly known (IEEE 1364-2001, clause 9.5). No memory is taken.
#![tactic(auto)]

mod labels;

pub use labels::{LabelsMatch, matched, within};
