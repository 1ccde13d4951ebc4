use crate::{ReportLevel, ReportMetrics};

/// The values of a `report` command.
#[derive(Clone, Copy, PartialEq, Eq)]
pub struct ReportWords<'a> {
    /// The database.
    pub file: &'a str,
    /// How much is shown: a summary where the words do not say it.
    pub level: ReportLevel,
    /// Which metrics are shown: all but memory where the words do not say it.
    pub metrics: ReportMetrics,
    /// Each instance is shown by itself, and not each module.
    pub by_instance: bool,
    /// The points that were hit are shown, and not the others.
    pub covered: bool,
    /// The file that the report is written to. Without one it is printed.
    pub output: Option<&'a str>,
}
