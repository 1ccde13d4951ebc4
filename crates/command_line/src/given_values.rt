ghost use Rattle.std.specs.Prelude.{◌≡◌, if◌then◌else◌, Some, None, is_none, IfOk, IfErr};
ghost use Rattle.std.specs.Option.{option_copied};
ghost use Rattle.command_line.specs.declared.score_option.ScoreOption.{ScoreOption};
ghost use Rattle.command_line.specs.ScoreOption.{is_same};
ghost use Rattle.command_line.specs.UsageFault.{first_missing};
ghost use Rattle.command_line.specs.GivenValues.{all_words, has_room, value_of, GivesScore};
ghost use Rattle.command_line.specs.WordsLeft.{left_words};

use crate::words_left::WordsLeft;
use crate::{GivenDefines, GivenDrawings, GivenMachines, ScoreOption, ScoreWords, SourceFiles};

/// The values of the options that were read so far, of one that repeats the last.
#[derive(Clone, Copy)]
pub(crate) struct GivenValues<'a> {
    words: WordsLeft<'a>,
    top: Option<&'a str>,
    instance: Option<&'a str>,
    source: Option<&'a str>,
    define: Option<&'a str>,
    folder: Option<&'a str>,
    dump: Option<&'a str>,
    output: Option<&'a str>,
    machine: Option<&'a str>,
    drawing: Option<&'a str>,
    late: Option<&'a str>,
}

impl<'a> GivenValues<'a> {
    /// Nothing was read yet of these words.
    pub(crate) fn none(words: WordsLeft<'a>) -> Self
        ensures values { (option : ScoreOption) → value_of result option ≡ None }
        ensures words { all_words result ≡ left_words words.entry }
    {
        GivenValues {
            words,
            top: None,
            instance: None,
            source: None,
            define: None,
            folder: None,
            dump: None,
            output: None,
            machine: None,
            drawing: None,
            late: None,
        }
    }

    /// The value that an option was given last.
    fn get(&self, option: ScoreOption) -> Option<&'a str>
        ensures { option_copied result ≡ value_of self.now option }
    {
        match option {
            ScoreOption::Top => self.top,
            ScoreOption::Instance => self.instance,
            ScoreOption::Source => self.source,
            ScoreOption::Define => self.define,
            ScoreOption::Folder => self.folder,
            ScoreOption::Dump => self.dump,
            ScoreOption::Output => self.output,
            ScoreOption::States => self.machine,
            ScoreOption::Arcs => self.drawing,
            ScoreOption::Late => self.late,
        }
    }

    /// Whether one more value of the option may be given.
    pub(crate) fn has_room(&self, option: ScoreOption) -> bool
        ensures { result ≡ has_room self.now option }
    {
        option.repeats() || self.get(option).is_none()
    }

    /// The value of an option, or the option where it has no value.
    fn need(&self, option: ScoreOption) -> Result<&'a str, ScoreOption>
        ensures value { IfOk result (λ value. value_of self.now option ≡ Some value.now) }
        ensures missing { IfErr result (λ missing. (missing ≡ option) × (value_of self.now option ≡ None)) }
    {
        self.get(option).ok_or(option)
    }

    /// The values of a `score` command, or the first option that is missing.
    pub(crate) fn complete(&self) -> Result<ScoreWords<'a>, ScoreOption>
        ensures values { IfOk result (λ score. GivesScore self.now score) }
        ensures missing { IfErr result (λ option. first_missing (λ needed. is_none (value_of self.now needed)) ≡ Some option) }
    {
        let top = self.need(ScoreOption::Top)?;
        let instance = self.need(ScoreOption::Instance)?;
        let _ = self.need(ScoreOption::Source)?;
        let dump = self.need(ScoreOption::Dump)?;
        let output = self.need(ScoreOption::Output)?;
        Ok(ScoreWords {
            top,
            instance,
            sources: SourceFiles::new(self.words),
            defines: GivenDefines::new(self.words),
            folder: self.folder,
            dump,
            output,
            machines: GivenMachines::new(self.words),
            drawings: GivenDrawings::new(self.words),
            late: self.late.is_some(),
        })
    }

    /// Gives an option its value.
    pub(crate) fn set(&mut self, option: ScoreOption, value: &'a str)
        ensures words { all_words self.new ≡ all_words self.old }
        ensures values { (other : ScoreOption) → value_of self.new other ≡ (if is_same option other then Some value.now else value_of self.old other) }
    {
        match option {
            ScoreOption::Top => self.top = Some(value),
            ScoreOption::Instance => self.instance = Some(value),
            ScoreOption::Source => self.source = Some(value),
            ScoreOption::Define => self.define = Some(value),
            ScoreOption::Folder => self.folder = Some(value),
            ScoreOption::Dump => self.dump = Some(value),
            ScoreOption::Output => self.output = Some(value),
            ScoreOption::States => self.machine = Some(value),
            ScoreOption::Arcs => self.drawing = Some(value),
            ScoreOption::Late => self.late = Some(value),
        }
    }
}
