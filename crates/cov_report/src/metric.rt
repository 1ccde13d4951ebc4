ghost use Rattle.std.specs.Prelude.{◌≡◌};
ghost use Rattle.cov_report.specs.Metrics.{metric_name, metric_of, metric_rank, is_chosen};

use crate::Letters;
use coverage_db::Subject;

/// A kind of coverage, with a line of its own in each block of a report.
#[derive(Clone, Copy)]
pub enum Metric {
    Line,
    Logic,
    Toggle,
    /// States and arcs of state machines.
    Fsm,
    Memory,
}

impl Metric {
    /// All metrics, in the order of their lines.
    pub const ALL: [Metric; 5] = [
        Metric::Line,
        Metric::Logic,
        Metric::Toggle,
        Metric::Fsm,
        Metric::Memory,
    ];

    /// The name in a report.
    pub fn name(self) -> &'static str
        ensures { result.now ≡ metric_name self }
    {
        match self {
            Metric::Line => "line",
            Metric::Logic => "logic",
            Metric::Toggle => "toggle",
            Metric::Fsm => "fsm",
            Metric::Memory => "memory",
        }
    }

    /// The metric that a point counts in.
    pub(crate) fn of(subject: &Subject) -> Metric
        ensures { result ≡ metric_of subject.now }
    {
        match subject {
            Subject::Line { .. } => Metric::Line,
            Subject::Logic { .. } => Metric::Logic,
            Subject::Toggle { .. } => Metric::Toggle,
            Subject::State { .. } | Subject::Arc { .. } => Metric::Fsm,
            Subject::Word { .. } => Metric::Memory,
        }
    }

    /// The place among all metrics, which is that of the letter in the order of point lines.
    pub(crate) fn rank(self) -> u8
        ensures { result ≡ metric_rank self }
    {
        match self {
            Metric::Line => 0,
            Metric::Logic => 1,
            Metric::Toggle => 2,
            Metric::Fsm => 3,
            Metric::Memory => 4,
        }
    }

    /// Whether the metric's letter is among these.
    pub(crate) fn is_chosen(self, letters: Letters) -> bool
        ensures { result ≡ is_chosen letters self }
    {
        match self {
            Metric::Line => letters.line,
            Metric::Logic => letters.logic,
            Metric::Toggle => letters.toggle,
            Metric::Fsm => letters.fsm,
            Metric::Memory => letters.memory,
        }
    }
}
