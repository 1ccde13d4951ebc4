ghost use Rattle.std.specs.Prelude.{◌≡◌, IfErr, OnErr, OnOk, Some};
ghost use Rattle.command_line.specs.LcovWords.{lcov_values};
ghost use Rattle.cov_host.specs.Outside.{KeepsFiles, KeepsStreams, Told};
ghost use Rattle.whole_files.specs.Effects.{CountsUp};
ghost use Rattle.database_commands.specs.Complete.{NoFaults};
ghost use Rattle.database_commands.specs.Faults.{IsEarly};
ghost use Rattle.database_commands.specs.Files.{KeepsOthers};
ghost use Rattle.database_commands.specs.Reporting.{LeavesFront};
ghost use Rattle.database_commands.specs.Tracing.{IsGoodLcov, IsLcovFault, IsTracedIn, IsTracedText};

use crate::CommandFault;
use crate::files::{read_table, write};
use command_line::LcovWords;
use cov_host::{Host, NoMemory};
use lcov_text::tracefile;
use std::alloc::Global;

/// Writes the tracefile of the database of an `lcov` command. The output is opened when the file was read and its
/// tracefile is made.
pub fn run_lcov<'a, H: Host>(
    alloc: Global,
    words: &LcovWords<'a>,
    host: &mut H,
) -> Result<(), CommandFault<'a>>
    ensures done { OnOk result (IsTracedIn (lcov_values words.now) (H.outside host.old) (H.outside host.new)) }
    ensures fault { IfErr result (IsLcovFault (lcov_values words.now) (H.outside host.old) (H.outside host.new)) }
    ensures complete { IfErr result (λ fault. IsGoodLcov (lcov_values words.now) (H.outside host.old) → NoFaults (H.outside host.old) (H.outside host.new) → fault ≡ CommandFault.Memory) }
    ensures early { IfErr result (λ fault. IsEarly fault → KeepsFiles (H.outside host.old) (H.outside host.new)) }
    ensures left { OnErr result (LeavesFront (IsTracedText (lcov_values words.now) (H.outside host.old)) (Some words.now.output.now) (H.outside host.old) (H.outside host.new)) }
    ensures others { Told (KeepsOthers words.now.output.now) (H.outside host.old).files (H.outside host.new).files }
    ensures streams { KeepsStreams (H.outside host.old) (H.outside host.new) }
    ensures counts { CountsUp (H.outside host.old) (H.outside host.new) }
{
    let table = read_table(alloc, host, words.file)?;
    match tracefile(alloc, &table) {
        Ok(text) => write(host, words.output, &text),
        Err(NoMemory) => Err(CommandFault::Memory),
    }
}
