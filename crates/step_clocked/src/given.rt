//! What is given of a step before its Clocked processes run.

use clocked_marks::Habit;
use code_values::CodeValues;
use design_model::Design;
use index_sets::Rows;

/// What is given of a step before its Clocked processes run.
#[derive(Drop)]
pub struct Given<'a> {
    pub design: &'a Design,
    /// The signals and memories that each process assigns.
    pub written: &'a Rows<u32>,
    /// The code of each signal that the dump has.
    pub codes: &'a [Option<u32>],
    /// The dump's values of the codes, before and after the step.
    pub values: &'a CodeValues,
    /// When inputs move.
    pub habit: Habit,
    /// The time at which the step ends.
    pub time: u64,
}
