ghost use Rattle.std.specs.Prelude.{◌≡◌, IfErr, IfOk, OnErr, OnOk, Some};
ghost use Rattle.command_line.specs.DatabaseWords.{merge_values};
ghost use Rattle.cov_host.specs.Outside.{KeepsFiles, KeepsStreams, Told};
ghost use Rattle.coverage_db.specs.Merge.{SameDesign, merged};
ghost use Rattle.coverage_db.specs.Table.{IsTable};
ghost use Rattle.whole_files.specs.Effects.{CountsUp, OnlyReads};
ghost use Rattle.database_commands.specs.Complete.{IsGoodMerge, NoFaults};
ghost use Rattle.database_commands.specs.Faults.{IsEarly, IsJoinFault, IsMergeFault};
ghost use Rattle.database_commands.specs.Files.{KeepsOthers};
ghost use Rattle.database_commands.specs.Merging.{IsMergeOf, IsMergedIn, IsMergedText};
ghost use Rattle.database_commands.specs.Reporting.{LeavesFront};

use crate::CommandFault;
use crate::files::{read_table, write};
use command_line::MergeWords;
use cov_host::{Host, NoMemory};
use coverage_db::{Db, MergeFault, merge, write_db};
use std::alloc::Global;

/// Joins the databases of a `merge` command and writes the database of all. The files are read in the order of the
/// words, each to its end, and the first fault ends the work. The output is opened when all is read and the text is made.
pub fn run_merge<'a, H: Host>(
    alloc: Global,
    words: &MergeWords<'a>,
    host: &mut H,
) -> Result<(), CommandFault<'a>>
    ensures done { OnOk result (IsMergedIn (merge_values words.now) (H.outside host.old) (H.outside host.new)) }
    ensures fault { IfErr result (IsMergeFault (merge_values words.now) (H.outside host.old) (H.outside host.new)) }
    ensures complete { IfErr result (λ fault. IsGoodMerge (merge_values words.now) (H.outside host.old) → NoFaults (H.outside host.old) (H.outside host.new) → fault ≡ CommandFault.Memory) }
    ensures early { IfErr result (λ fault. IsEarly fault → KeepsFiles (H.outside host.old) (H.outside host.new)) }
    ensures left { OnErr result (LeavesFront (IsMergedText (merge_values words.now) (H.outside host.old)) (Some words.now.output.now) (H.outside host.old) (H.outside host.new)) }
    ensures others { Told (KeepsOthers words.now.output.now) (H.outside host.old).files (H.outside host.new).files }
    ensures streams { KeepsStreams (H.outside host.old) (H.outside host.new) }
    ensures counts { CountsUp (H.outside host.old) (H.outside host.new) }
{
    let table = merge_tables(alloc, words, host)?;
    match write_db(alloc, &table) {
        Ok(text) => write(host, words.output, &text),
        Err(NoMemory) => Err(CommandFault::Memory),
    }
}

/// The merge of the tables of the files.
fn merge_tables<'a, H: Host>(
    alloc: Global,
    words: &MergeWords<'a>,
    host: &mut H,
) -> Result<Db, CommandFault<'a>>
    ensures merged { IfOk result (IsMergeOf (merge_values words.now) (H.outside host.old)) }
    ensures table { IfOk result IsTable }
    ensures fault { IfErr result (IsMergeFault (merge_values words.now) (H.outside host.old) (H.outside host.new)) }
    ensures effects { OnlyReads (H.outside host.old) (H.outside host.new) }
{
    let mut table = read_table(alloc, host, words.first)?;
    let mut others = words.others;
    while let Some(file) = others.next_file() {
        let other = read_table(alloc, host, file)?;
        table = join(alloc, table, &other, file)?;
    }
    Ok(table)
}

/// The merge of the table of the files before this one with the table of this file.
pub(crate) fn join<'a>(
    alloc: Global,
    table: Db,
    other: &Db,
    file: &'a str,
) -> Result<Db, CommandFault<'a>>
    requires table { IsTable table }
    requires other { IsTable other.now }
    ensures table { IfOk result IsTable }
    ensures same { OnOk result (SameDesign table other.now) }
    ensures merged { IfOk result (λ joined. joined ≡ merged table other.now) }
    ensures fault { IfErr result (IsJoinFault table other.now file.now) }
{
    match merge(alloc, table, other) {
        Ok(joined) => Ok(joined),
        Err(MergeFault::NoMemory) => Err(CommandFault::Memory),
        Err(MergeFault::DesignsDiffer { line, left, right }) => Err(CommandFault::DesignsDiffer {
            file,
            line,
            first: left,
            other: right,
        }),
    }
}
