ghost use Rattle.std.specs.Prelude.{◌≡◌, IfErr, IfOk, None, OnErr, OnOk};
ghost use Rattle.cov_host.specs.Outside.{Appends, AppendsPrefix, KeepsFiles, Told};
ghost use Rattle.database_commands.specs.Reporting.{LeavesFront};
ghost use Rattle.whole_files.specs.Effects.{CountsUp};
ghost use Rattle.covered_cli.specs.Selfrun.{AreSteps, IsSelfrunFault, IsSelfrunIn, IsSelfrunTable, IsSelfrunText};

use crate::Status;
use crate::score::table_of;
use crate::selfrun_fault::SelfrunFault;
use crate::selfrun_laws::selfrun_laws;
use command_line::SelfrunWords;
use cov_host::{Host, HostFault, NoMemory, Text};
use coverage_db::Db;
use selfrun_files::SelfrunFiles;
use selfrun_print::print_of;
use selfrun_words::{score_law, score_of, score_words};
use std::alloc::Global;

/// Scores the design and the dump of a `selfrun` command, and prints the counts. No file of the host is opened.
pub(crate) fn run_selfrun<H: Host>(
    alloc: Global,
    words: &SelfrunWords,
    host: &mut H,
) -> Result<(), SelfrunFault>
    requires { AreSteps words.now }
    ensures done { OnOk result (IsSelfrunIn words.now (H.outside host.old) (H.outside host.new)) }
    ensures fault { IfErr result (IsSelfrunFault (H.outside host.old) (H.outside host.new)) }
    ensures left { OnErr result (LeavesFront (IsSelfrunText words.now) None (H.outside host.old) (H.outside host.new)) }
    ensures files { KeepsFiles (H.outside host.old) (H.outside host.new) }
    ensures warned { (H.outside host.new).warned ≡ (H.outside host.old).warned }
    ensures counts { CountsUp (H.outside host.old) (H.outside host.new) }
{
    let table = selfrun_table(alloc, words)?;
    let text = print_of(alloc, 2 * u64::from(words.steps) + 1, &table)?;
    print(host, &text)
}

/// Prints a text. After a refusal a front of it may have been printed.
fn print<H: Host>(host: &mut H, text: &Text) -> Result<(), SelfrunFault>
    ensures printed { OnOk result (Told (Appends text.now) (H.outside host.old).printed (H.outside host.new).printed) }
    ensures front { OnErr result (Told (AppendsPrefix text.now) (H.outside host.old).printed (H.outside host.new).printed) }
    ensures fault { IfErr result (IsSelfrunFault (H.outside host.old) (H.outside host.new)) }
    ensures files { KeepsFiles (H.outside host.old) (H.outside host.new) }
    ensures warned { (H.outside host.new).warned ≡ (H.outside host.old).warned }
    ensures counts { CountsUp (H.outside host.old) (H.outside host.new) }
{
    match host.print(text.as_slice()) {
        Ok(()) => Ok(()),
        Err(HostFault::Failed) => Err(SelfrunFault::Print),
        Err(HostFault::NoMemory) => Err(SelfrunFault::NoMemory),
    }
}

/// The table of the score of the two files. They have a design, and a dump that a run of it shows, so nothing is refused.
fn selfrun_table(alloc: Global, words: &SelfrunWords) -> Result<Db, NoMemory>
    requires { AreSteps words.now }
    ensures { IfOk result (IsSelfrunTable words.now) }
{
    selfrun_laws(alloc);
    score_law();
    let score_words = score_words(alloc)?;
    let score = score_of(&score_words);
    let mut files = SelfrunFiles::new(words.number, words.steps);
    match table_of(alloc, &score, &mut files) {
        Ok(table) => Ok(table),
        Err(fault) => match fault.status() {
            Status::Memory => Err(NoMemory),
            _ => unreachable!(),
        },
    }
}
