ghost use Rattle.std.specs.Prelude.{◌≡◌, option_copied};
ghost use Rattle.command_line.specs.ReportLevel.{level_named, level_of};

/// How much a report shows.
#[derive(Clone, Copy, PartialEq, Eq)]
pub enum ReportLevel {
    /// The counts of each metric.
    Summary,
    /// The points too.
    Detailed,
    /// The points with the reasons of those that are open, and the sources.
    Verbose,
}

impl ReportLevel {
    /// The level that a word names: `s`, `d` or `v`.
    pub fn named(word: &str) -> Option<Self>
        ensures { result ≡ level_named word.now }
    {
        match word {
            "s" => Some(ReportLevel::Summary),
            "d" => Some(ReportLevel::Detailed),
            "v" => Some(ReportLevel::Verbose),
            _ => None,
        }
    }

    /// The level that was given, or else a summary.
    pub(crate) fn given(word: Option<&str>) -> Self
        ensures { result ≡ level_of (option_copied word.entry) }
    {
        match word {
            None => ReportLevel::Summary,
            Some(word) => ReportLevel::named(word).unwrap_or(ReportLevel::Summary),
        }
    }
}
