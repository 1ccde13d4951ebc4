ghost use Rattle.std.specs.Prelude.{◌≡◌, ◌≢◌, ◌↔◌, IfErr, OnErr, OnOk};
ghost use Rattle.command_line.specs.Command.{command_values};
ghost use Rattle.cov_host.specs.Outside.{KeepsFiles, KeepsInput, KeepsOutput, Told};
ghost use Rattle.database_commands.specs.Reporting.{KeepsUnlessNamed, LeavesFront, PrintsIfUnnamed};
ghost use Rattle.whole_files.specs.Effects.{CountsUp, WarnsLine};
ghost use Rattle.covered_cli.specs.Complete.{EndsWith, HasBadDump, HasBadSource, HasUnboundDump, IsCommandWith, IsGoodScore, LacksPoints, NoFaults, RefusesBinding, RefusesDump, RefusesPoints};
ghost use Rattle.covered_cli.specs.Covered.{HasContradiction, HasDatabaseCause, HasEarlyStatus, HasFilesCause, HasGoodDatabases, IsNoCommand, IsSomeCommand, IsSomeSelfrun, KeepsUnnamed, Leaves, PrintsCounts, PrintsText, WarnsFault};
ghost use Rattle.covered_cli.specs.Fault.{HasForms, IsEarly, Stands, StandsInWork, line_of, output_of, status_of};
ghost use Rattle.covered_cli.specs.Headline.{IsAccepted, IsListed, IsReasonedScore, IsSoundScore};
ghost use Rattle.covered_cli.specs.Scoring.{IsDone, IsDoneWork, IsTextOf, LeavesElse, OfScore};

use crate::Status;
use crate::fault::Fault;
use crate::message::warn_of;
use crate::score::run_score;
use crate::selfrun::run_selfrun;
use command_line::{Command, read_command};
use cov_host::{Host, Words};
use database_commands::{run_exclude, run_lcov, run_merge, run_rank, run_report, run_restore};
use std::alloc::Global;

/// Does all that the program does with the words that follow its name. A status above 0 is warned of in one line,
/// and designs that differ in two more.
pub fn covered<H: Host>(alloc: Global, words: &Words, host: &mut H) -> Status
    // Nothing is printed except a ranking, the counts of a selfrun, and a report for which the words name no file, and no file changes
    // except the one that the words name for the output.
    ensures printed { (PrintsText words.now → ⊥) → (H.outside host.new).printed ≡ (H.outside host.old).printed }
    ensures others { Told (KeepsUnnamed words.now) (H.outside host.old).files (H.outside host.new).files }

    // With status 0 nothing is warned. A status from 1 to 4, and 7, leaves every file, and nothing is printed.
    ensures silent { result ≡ Status.Done → (H.outside host.new).warned ≡ (H.outside host.old).warned }
    ensures kept { HasEarlyStatus result → KeepsFiles (H.outside host.old) (H.outside host.new) }
    ensures unprinted { HasEarlyStatus result → (H.outside host.new).printed ≡ (H.outside host.old).printed }

    // With status 0 the output holds what the command asks for: of a score the table of the sources and the dump; of a merge the
    // merge of the tables of the files; of a report its text, without the excluded points, which was printed where no
    // file is named; of `lcov` the tracefile of the table of the file; of `exclude` and `restore` the text of the table of
    // the file with the points of the words excluded, or no longer. Of `rank` the text of the ranking of the tables of the files was printed,
    // and of `selfrun` the text of the counts of a table.
    ensures done { result ≡ Status.Done → IsDone words.now (H.outside host.old) (H.outside host.new) }

    // The headline: of a score with status 0, the dump fits the design of the sources; the table lists each coverage point of the
    // design once; in every run of the design, by the habit of the words, that shows the dump, each point marked hit is hit and each
    // point marked missed is never hit; each undetermined point names a signal and a time at which that signal is in doubt for its block;
    // and all else is as it was.
    ensures accepted { result ≡ Status.Done → OfScore IsAccepted words.now (H.outside host.old) (H.outside host.new) }
    ensures listed { result ≡ Status.Done → OfScore IsListed words.now (H.outside host.old) (H.outside host.new) }
    ensures sound { result ≡ Status.Done → OfScore IsSoundScore words.now (H.outside host.old) (H.outside host.new) }
    ensures reasoned { result ≡ Status.Done → OfScore IsReasonedScore words.now (H.outside host.old) (H.outside host.new) }
    ensures untouched { result ≡ Status.Done → LeavesElse words.now (H.outside host.old) (H.outside host.new) }

    // Of a selfrun with status 0 the counts of a table were printed for which the headline holds, of the design of the text and the dump of the
    // words' numbers; the dump has two times for each step, and one more; no point is undetermined; every file is as before, and nothing was warned.
    ensures counted { result ≡ Status.Done → PrintsCounts words.now (H.outside host.old) (H.outside host.new) }

    // Where the files are known and no call of the host fails, their texts decide the status, want of memory aside: a dump
    // that some run shows is scored, and one that has a fault is refused, for it or for what no run shows before it. A
    // design whose points with the machines of the words are too many, or that lacks one of these machines, is refused for that, whatever
    // the dump is, and one that the header of a dump does not bind for that, whatever the dump's body holds.
    ensures complete { IsCommandWith IsGoodScore words.now (H.outside host.old) → NoFaults (H.outside host.old) (H.outside host.new) → EndsWith Status.Done result }
    ensures selfrun { IsSomeSelfrun words.now → NoFaults (H.outside host.old) (H.outside host.new) → EndsWith Status.Done result }
    ensures databases { HasGoodDatabases words.now (H.outside host.old) → NoFaults (H.outside host.old) (H.outside host.new) → EndsWith Status.Done result }
    ensures source { IsCommandWith HasBadSource words.now (H.outside host.old) → NoFaults (H.outside host.old) (H.outside host.new) → EndsWith Status.Source result }
    ensures points { IsCommandWith LacksPoints words.now (H.outside host.old) → NoFaults (H.outside host.old) (H.outside host.new) → RefusesPoints words.now result (H.outside host.old) (H.outside host.new) }
    ensures unbound { IsCommandWith HasUnboundDump words.now (H.outside host.old) → NoFaults (H.outside host.old) (H.outside host.new) → RefusesBinding words.now result (H.outside host.old) (H.outside host.new) }
    ensures dump { IsCommandWith HasBadDump words.now (H.outside host.old) → NoFaults (H.outside host.old) (H.outside host.new) → RefusesDump result }

    // A status above 0 leaves all files, and what was printed, as they were; or the output, or what was printed, with a front of the
    // text that the words ask for, which is made whole before the output is opened.
    ensures left { result ≢ Status.Done → Leaves words.now (H.outside host.old) (H.outside host.new) }

    // The causes of the statuses, and the line that is warned. A fault that comes before the output is opened, as that of a call that reads,
    // leaves all files, and what was printed, as they were.
    ensures usage { (result ≡ Status.Usage) ↔ IsNoCommand words.now }
    ensures contradiction { result ≡ Status.Contradiction → HasContradiction words.now (H.outside host.old) }
    ensures files { result ≡ Status.Files → HasFilesCause words.now (H.outside host.old) (H.outside host.new) }
    ensures database { result ≡ Status.Database → HasDatabaseCause words.now (H.outside host.old) }
    ensures warned { result ≢ Status.Done → WarnsFault words.now result (H.outside host.old) (H.outside host.new) }
{
    match run(alloc, words, host) {
        Ok(()) => Status::Done,
        Err(fault) => tell(host, &fault),
    }
}

/// Warns of a fault by its line, and ends with its status, also where the host refuses the warning.
fn tell<H: Host>(host: &mut H, fault: &Fault<'_>) -> Status
    ensures status { result ≡ status_of fault.now }
    ensures line { WarnsLine (line_of fault.now) (H.outside host.old) (H.outside host.new) }
    ensures printed { (H.outside host.new).printed ≡ (H.outside host.old).printed }
    ensures files { KeepsFiles (H.outside host.old) (H.outside host.new) }
    ensures input { KeepsInput (H.outside host.old) (H.outside host.new) }
    ensures output { KeepsOutput (H.outside host.old) (H.outside host.new) }
    ensures counts { CountsUp (H.outside host.old) (H.outside host.new) }
{
    warn_of(host, fault);
    fault.status()
}

/// Reads the command and does it.
fn run<'a, H: Host>(alloc: Global, words: &'a Words, host: &mut H) -> Result<(), Fault<'a>>
    ensures command { OnOk result (IsSomeCommand words.now) }
    ensures done { OnOk result (IsDone words.now (H.outside host.old) (H.outside host.new)) }
    ensures fault { IfErr result (Stands words.now (H.outside host.old) (H.outside host.new)) }
    ensures early { IfErr result (λ fault. IsEarly fault → KeepsFiles (H.outside host.old) (H.outside host.new)) }
    ensures unprinted { IfErr result (λ fault. IsEarly fault → (H.outside host.new).printed ≡ (H.outside host.old).printed) }
    ensures others { Told (KeepsUnnamed words.now) (H.outside host.old).files (H.outside host.new).files }
    ensures printed { (PrintsText words.now → ⊥) → (H.outside host.new).printed ≡ (H.outside host.old).printed }
    ensures warned { (H.outside host.new).warned ≡ (H.outside host.old).warned }
    ensures left { OnErr result (Leaves words.now (H.outside host.old) (H.outside host.new)) }
    ensures counts { CountsUp (H.outside host.old) (H.outside host.new) }
{
    match read_command(words) {
        Ok(command) => run_command(alloc, &command, host),
        Err(fault) => Err(Fault::Usage(fault)),
    }
}

/// Does the command.
fn run_command<'a, H: Host>(
    alloc: Global,
    command: &Command<'a>,
    host: &mut H,
) -> Result<(), Fault<'a>>
    requires { HasForms command.now }
    ensures done { OnOk result (IsDoneWork command.now (H.outside host.old) (H.outside host.new)) }
    ensures fault { IfErr result (StandsInWork command.now (H.outside host.old) (H.outside host.new)) }
    ensures early { IfErr result (λ fault. IsEarly fault → KeepsFiles (H.outside host.old) (H.outside host.new)) }
    ensures unprinted { IfErr result (λ fault. IsEarly fault → (H.outside host.new).printed ≡ (H.outside host.old).printed) }
    ensures others { Told (KeepsUnlessNamed (output_of command.now)) (H.outside host.old).files (H.outside host.new).files }
    ensures printed { PrintsIfUnnamed (output_of command.now) (H.outside host.old) (H.outside host.new) }
    ensures warned { (H.outside host.new).warned ≡ (H.outside host.old).warned }
    ensures left { OnErr result (LeavesFront (IsTextOf (command_values command.now) (H.outside host.old)) (output_of command.now) (H.outside host.old) (H.outside host.new)) }
    ensures counts { CountsUp (H.outside host.old) (H.outside host.new) }
{
    match command {
        Command::Score(words) => run_score(alloc, words, host),
        Command::Merge(words) => match run_merge(alloc, words, host) {
            Ok(()) => Ok(()),
            Err(fault) => Err(Fault::Databases(fault)),
        },
        Command::Report(words) => match run_report(alloc, words, host) {
            Ok(()) => Ok(()),
            Err(fault) => Err(Fault::Databases(fault)),
        },
        Command::Lcov(words) => match run_lcov(alloc, words, host) {
            Ok(()) => Ok(()),
            Err(fault) => Err(Fault::Databases(fault)),
        },
        Command::Rank(words) => match run_rank(alloc, words, host) {
            Ok(()) => Ok(()),
            Err(fault) => Err(Fault::Databases(fault)),
        },
        Command::Exclude(words) => match run_exclude(alloc, words, host) {
            Ok(()) => Ok(()),
            Err(fault) => Err(Fault::Databases(fault)),
        },
        Command::Restore(words) => match run_restore(alloc, words, host) {
            Ok(()) => Ok(()),
            Err(fault) => Err(Fault::Databases(fault)),
        },
        Command::Selfrun(words) => match run_selfrun(alloc, words, host) {
            Ok(()) => Ok(()),
            Err(fault) => Err(Fault::Selfrun(fault)),
        },
    }
}
