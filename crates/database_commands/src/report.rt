ghost use Rattle.std.specs.Prelude.{◌≡◌, IfErr, IfOk, OnErr, OnOk, option_copied};
ghost use Rattle.command_line.specs.DatabaseWords.{report_values};
ghost use Rattle.cov_host.specs.Outside.{KeepsFiles, Told};
ghost use Rattle.cov_report.specs.Report.{report_text};
ghost use Rattle.db_tools.specs.Excluded.{visible};
ghost use Rattle.whole_files.specs.Effects.{CountsUp};
ghost use Rattle.database_commands.specs.Complete.{IsGoodReport, NoFaults};
ghost use Rattle.database_commands.specs.Faults.{IsEarly};
ghost use Rattle.database_commands.specs.Reporting.{GivesFront, GivesText, IsGiveFault, IsReportFault, IsReportedIn, IsReportedText, KeepsUnlessNamed, LeavesFront, PrintsIfUnnamed, options_of};

use crate::CommandFault;
use crate::exclusion::read_exclusion;
use crate::files::{print, write};
use command_line::{ReportLevel, ReportWords};
use cov_host::{Host, NoMemory, Text};
use cov_report::{Letters, Level, Options, report};
use db_tools::{Excluded, visible};
use std::alloc::Global;

/// Shows the database of a `report` command, with its excluded points left out: the report is written to the output, or printed where none is named.
/// The output is opened when the file was read and its report is made.
pub fn run_report<'a, H: Host>(
    alloc: Global,
    words: &ReportWords<'a>,
    host: &mut H,
) -> Result<(), CommandFault<'a>>
    ensures done { OnOk result (IsReportedIn (report_values words.now) (H.outside host.old) (H.outside host.new)) }
    ensures fault { IfErr result (IsReportFault (report_values words.now) (H.outside host.old) (H.outside host.new)) }
    ensures complete { IfErr result (λ fault. IsGoodReport (report_values words.now) (H.outside host.old) → NoFaults (H.outside host.old) (H.outside host.new) → fault ≡ CommandFault.Memory) }
    ensures early { IfErr result (λ fault. IsEarly fault → KeepsFiles (H.outside host.old) (H.outside host.new)) }
    ensures left { OnErr result (LeavesFront (IsReportedText (report_values words.now) (H.outside host.old)) (option_copied words.now.output) (H.outside host.old) (H.outside host.new)) }
    ensures unprinted { IfErr result (λ fault. IsEarly fault → (H.outside host.new).printed ≡ (H.outside host.old).printed) }
    ensures others { Told (KeepsUnlessNamed (option_copied words.now.output)) (H.outside host.old).files (H.outside host.new).files }
    ensures printed { PrintsIfUnnamed (option_copied words.now.output) (H.outside host.old) (H.outside host.new) }
    ensures warned { (H.outside host.new).warned ≡ (H.outside host.old).warned }
    ensures counts { CountsUp (H.outside host.old) (H.outside host.new) }
{
    let excluded = read_exclusion(alloc, host, words.file)?;
    match visible_report(alloc, &excluded, &options_of(words)) {
        Ok(text) => give(host, words.output, &text),
        Err(NoMemory) => Err(CommandFault::Memory),
    }
}

/// The report of the points that are not excluded.
fn visible_report(alloc: Global, excluded: &Excluded, options: &Options) -> Result<Text, NoMemory>
    ensures { IfOk result (λ text. text ≡ report_text (visible excluded.now) options.now) }
{
    let table = visible(alloc, excluded)?;
    report(alloc, &table, options)
}

/// What the words ask for.
fn options_of(words: &ReportWords<'_>) -> Options
    ensures { result ≡ options_of (report_values words.now) }
{
    Options {
        level: match words.level {
            ReportLevel::Summary => Level::Summary,
            ReportLevel::Detailed => Level::Detailed,
            ReportLevel::Verbose => Level::Verbose,
        },
        letters: Letters {
            line: words.metrics.line,
            logic: words.metrics.logic,
            toggle: words.metrics.toggle,
            fsm: words.metrics.fsm,
            memory: words.metrics.memory,
        },
        by_instance: words.by_instance,
        covered: words.covered,
    }
}

/// Writes the text to a file, or prints it where none is named.
fn give<'a, H: Host>(
    host: &mut H,
    output: Option<&'a str>,
    text: &Text,
) -> Result<(), CommandFault<'a>>
    ensures gives { OnOk result (GivesText (option_copied output.entry) text.now (H.outside host.old) (H.outside host.new)) }
    ensures front { OnErr result (GivesFront (option_copied output.entry) text.now (H.outside host.old) (H.outside host.new)) }
    ensures fault { IfErr result (IsGiveFault (option_copied output.entry) (H.outside host.old) (H.outside host.new)) }
    ensures others { Told (KeepsUnlessNamed (option_copied output.entry)) (H.outside host.old).files (H.outside host.new).files }
    ensures printed { PrintsIfUnnamed (option_copied output.entry) (H.outside host.old) (H.outside host.new) }
    ensures warned { (H.outside host.new).warned ≡ (H.outside host.old).warned }
    ensures counts { CountsUp (H.outside host.old) (H.outside host.new) }
{
    match output {
        Some(file) => write(host, file, text),
        None => print(host, text),
    }
}
