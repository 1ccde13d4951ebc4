use crate::{GivenDefines, GivenDrawings, GivenMachines, SourceFiles};

/// The values of a `score` command.
#[derive(Clone, Copy)]
pub struct ScoreWords<'a> {
    /// The name of the top module.
    pub top: &'a str,
    /// The path of the top module's instance in the dump.
    pub instance: &'a str,
    /// The files of the design, at least one, in the order of the words.
    pub sources: SourceFiles<'a>,
    /// The names that are defined before the first file, with their texts, in the order of the words.
    pub defines: GivenDefines<'a>,
    /// The folder in which included files lie.
    pub folder: Option<&'a str>,
    /// The file of the value change dump (IEEE 1364-2001 clause 18).
    pub dump: &'a str,
    /// The file that the coverage is written to.
    pub output: &'a str,
    /// The state machines that are named, in the order of the words.
    pub machines: GivenMachines<'a>,
    /// The state machines that are drawn from case statements, in the order of the words.
    pub drawings: GivenDrawings<'a>,
    /// Whether the inputs move late.
    pub late: bool,
}
