ghost use Rattle.std.specs.Prelude.{◌≡◌, if◌then◌else◌, ◌∷◌, Some, None, is_none, IfOk, IfErr};
ghost use Rattle.std.specs.Option.{option_copied};
ghost use Rattle.command_line.specs.declared.database_command.DatabaseCommand.TheVariants.{Exclude, Lcov, Merge, Rank, Report, Restore};
ghost use Rattle.command_line.specs.declared.database_option.DatabaseOption.{DatabaseOption as Named};
ghost use Rattle.command_line.specs.DatabaseFiles.{files_among};
ghost use Rattle.command_line.specs.DatabaseOption.{is_same};
ghost use Rattle.command_line.specs.GivenWords.{GivesMerge, GivesReport, IsMissing, all_words, files_from, has_room_for, value_of};
ghost use Rattle.command_line.specs.LcovWords.{GivesLcov};
ghost use Rattle.command_line.specs.PointWords.{GivesPoints};
ghost use Rattle.command_line.specs.RankWords.{GivesRank};
ghost use Rattle.command_line.specs.WordsLeft.{left_words};

use crate::words_left::WordsLeft;
use crate::{
    DatabaseFiles, DatabaseOption, LcovWords, MergeWords, PointAddresses, PointWords, RankWords,
    ReportLevel, ReportMetrics, ReportWords,
};

/// What was read so far of the words of a command that reads databases.
#[derive(Clone, Copy)]
pub(crate) struct GivenWords<'a> {
    words: WordsLeft<'a>,
    level: Option<&'a str>,
    metrics: Option<&'a str>,
    by_instance: Option<&'a str>,
    covered: Option<&'a str>,
    output: Option<&'a str>,
    point: Option<&'a str>,
    first: Option<&'a str>,
    others: DatabaseFiles<'a>,
}

impl<'a> GivenWords<'a> {
    /// Nothing was read yet of these words.
    pub(crate) fn none(words: WordsLeft<'a>) -> Self
        ensures values { (option : Named) → value_of result option ≡ None }
        ensures files { files_from result ≡ None }
        ensures words { all_words result ≡ left_words words.entry }
    {
        GivenWords {
            words,
            level: None,
            metrics: None,
            by_instance: None,
            covered: None,
            output: None,
            point: None,
            first: None,
            others: DatabaseFiles::new(words),
        }
    }

    /// Whether no database was named.
    pub(crate) fn has_no_file(&self) -> bool
        ensures { result ≡ is_none (files_from self.now) }
    {
        self.first.is_none()
    }

    /// The value that an option was given last.
    fn get(&self, option: DatabaseOption) -> Option<&'a str>
        ensures { option_copied result ≡ value_of self.now option }
    {
        match option {
            DatabaseOption::Level => self.level,
            DatabaseOption::Metrics => self.metrics,
            DatabaseOption::ByInstance => self.by_instance,
            DatabaseOption::Covered => self.covered,
            DatabaseOption::Output => self.output,
            DatabaseOption::Point => self.point,
        }
    }

    /// Whether one more value of the option may be given.
    pub(crate) fn has_room_for(&self, option: DatabaseOption) -> bool
        ensures { result ≡ has_room_for self.now option }
    {
        option.repeats() || self.get(option).is_none()
    }

    /// Gives an option its value.
    pub(crate) fn set(&mut self, option: DatabaseOption, value: &'a str)
        ensures values { (other : Named) → value_of self.new other ≡ (if is_same option other then Some value.now else value_of self.old other) }
        ensures files { files_from self.new ≡ files_from self.old }
        ensures words { all_words self.new ≡ all_words self.old }
    {
        match option {
            DatabaseOption::Level => self.level = Some(value),
            DatabaseOption::Metrics => self.metrics = Some(value),
            DatabaseOption::ByInstance => self.by_instance = Some(value),
            DatabaseOption::Covered => self.covered = Some(value),
            DatabaseOption::Output => self.output = Some(value),
            DatabaseOption::Point => self.point = Some(value),
        }
    }

    /// Takes a database, and leaves these words.
    pub(crate) fn add_file(&mut self, file: &'a str, left: WordsLeft<'a>)
        ensures values { (option : Named) → value_of self.new option ≡ value_of self.old option }
        ensures files { files_from self.new ≡ (if is_none (files_from self.old) then Some (file.now ∷ files_among (left_words left.entry)) else files_from self.old) }
        ensures words { all_words self.new ≡ all_words self.old }
    {
        if self.first.is_none() {
            self.first = Some(file);
            self.others = DatabaseFiles::new(left);
        }
    }

    /// The values of a `merge` command, or the first that is missing.
    pub(crate) fn merge_words(&self) -> Result<MergeWords<'a>, &'static str>
        ensures merge { IfOk result (λ merge. GivesMerge self.now merge) }
        ensures missing { IfErr result (λ word. IsMissing Merge self.now word.now) }
    {
        let Some(output) = self.output else {
            return Err("-o");
        };
        let Some(first) = self.first else {
            return Err("file");
        };
        let mut others = self.others;
        if others.next_file().is_none() {
            return Err("file");
        }
        Ok(MergeWords {
            output,
            first,
            others: self.others,
        })
    }

    /// The values of a `report` command, or the first that is missing.
    pub(crate) fn report_words(&self) -> Result<ReportWords<'a>, &'static str>
        ensures report { IfOk result (λ report. GivesReport self.now report) }
        ensures missing { IfErr result (λ word. IsMissing Report self.now word.now) }
    {
        let Some(file) = self.first else {
            return Err("file");
        };
        Ok(ReportWords {
            file,
            level: ReportLevel::given(self.level),
            metrics: ReportMetrics::given(self.metrics),
            by_instance: self.by_instance.is_some(),
            covered: self.covered.is_some(),
            output: self.output,
        })
    }

    /// The values of an `lcov` command, or the first that is missing.
    pub(crate) fn lcov_words(&self) -> Result<LcovWords<'a>, &'static str>
        ensures lcov { IfOk result (λ lcov. GivesLcov self.now lcov) }
        ensures missing { IfErr result (λ word. IsMissing Lcov self.now word.now) }
    {
        let Some(output) = self.output else {
            return Err("-o");
        };
        let Some(file) = self.first else {
            return Err("file");
        };
        Ok(LcovWords { output, file })
    }

    /// The values of a `rank` command, or the first that is missing.
    pub(crate) fn rank_words(&self) -> Result<RankWords<'a>, &'static str>
        ensures rank { IfOk result (λ rank. GivesRank self.now rank) }
        ensures missing { IfErr result (λ word. IsMissing Rank self.now word.now) }
    {
        let Some(first) = self.first else {
            return Err("file");
        };
        Ok(RankWords {
            first,
            others: self.others,
        })
    }

    /// The values of an `exclude` or a `restore` command, or the first that is missing.
    pub(crate) fn point_words(&self) -> Result<PointWords<'a>, &'static str>
        ensures points { IfOk result (λ points. GivesPoints self.now points) }
        ensures exclude { IfErr result (λ word. IsMissing Exclude self.now word.now) }
        ensures restore { IfErr result (λ word. IsMissing Restore self.now word.now) }
    {
        let Some(output) = self.output else {
            return Err("-o");
        };
        if self.point.is_none() {
            return Err("-point");
        }
        let Some(file) = self.first else {
            return Err("file");
        };
        Ok(PointWords {
            output,
            addresses: PointAddresses::new(self.words),
            file,
        })
    }
}
