ghost use Rattle.std.specs.Prelude.{◌≡◌, IfErr, IfOk, OnErr, OnOk};
ghost use Rattle.cov_host.specs.Outside.{Appends, AppendsPrefix, HasFile, KeepsFiles, Told};
ghost use Rattle.whole_files.specs.Effects.{CountsUp, HoldsFront, OnlyReads};
ghost use Rattle.database_commands.specs.Faults.{IsPrintFault, IsTableFault, IsWriteFault};
ghost use Rattle.database_commands.specs.Files.{HoldsTable, KeepsOthers};

use crate::CommandFault;
use cov_host::{Host, HostFault, Text};
use coverage_db::{Db, DbFault, DbKind, read_db};
use std::alloc::Global;
use whole_files::{FileFault, read_file, write_file};

/// The longest database, in bytes.
const LONGEST: usize = 2_147_483_648;

/// Reads the table of a file.
#[tactic(auto, using(crate::proofs::Reading::table_read, crate::proofs::Reading::fault_read, crate::proofs::Reading::too_long))]
pub(crate) fn read_table<'a, H: Host>(
    alloc: Global,
    host: &mut H,
    file: &'a str,
) -> Result<Db, CommandFault<'a>>
    ensures table { IfOk result (HoldsTable (H.outside host.old) file.now) }
    ensures fault { IfErr result (IsTableFault file.now (H.outside host.old) (H.outside host.new)) }
    ensures effects { OnlyReads (H.outside host.old) (H.outside host.new) }
{
    let bytes = match read_file(alloc, host, file, LONGEST) {
        Ok(bytes) => bytes,
        Err(FileFault::Refused(call)) => return Err(CommandFault::Files { call, file }),
        Err(FileFault::NoMemory) => return Err(CommandFault::Memory),
    };
    if bytes.len() > LONGEST {
        return Err(CommandFault::NoDatabase {
            file,
            kind: DbKind::DbTooLong,
            line: None,
        });
    }
    match read_db(alloc, bytes.as_slice()) {
        Ok(table) => Ok(table),
        Err(DbFault::At { kind, line }) => Err(CommandFault::NoDatabase { file, kind, line }),
        Err(DbFault::NoMemory) => Err(CommandFault::Memory),
    }
}

/// Writes a file whole. After a refusal the file is as before or holds a front of the text.
pub(crate) fn write<'a, H: Host>(
    host: &mut H,
    file: &'a str,
    text: &Text,
) -> Result<(), CommandFault<'a>>
    ensures written { OnOk result (Told (HasFile file.now text.now) (H.outside host.old).files (H.outside host.new).files) }
    ensures front { OnErr result (Told (HoldsFront file.now text.now) (H.outside host.old).files (H.outside host.new).files) }
    ensures fault { IfErr result (IsWriteFault file.now (H.outside host.old) (H.outside host.new)) }
    ensures others { Told (KeepsOthers file.now) (H.outside host.old).files (H.outside host.new).files }
    ensures printed { (H.outside host.new).printed ≡ (H.outside host.old).printed }
    ensures warned { (H.outside host.new).warned ≡ (H.outside host.old).warned }
    ensures counts { CountsUp (H.outside host.old) (H.outside host.new) }
{
    match write_file(host, file, text.as_slice()) {
        Ok(()) => Ok(()),
        Err(FileFault::Refused(call)) => Err(CommandFault::Files { call, file }),
        Err(FileFault::NoMemory) => Err(CommandFault::Memory),
    }
}

/// Prints a text. After a refusal a front of it was printed.
pub(crate) fn print<'a, H: Host>(host: &mut H, text: &Text) -> Result<(), CommandFault<'a>>
    ensures printed { OnOk result (Told (Appends text.now) (H.outside host.old).printed (H.outside host.new).printed) }
    ensures front { OnErr result (Told (AppendsPrefix text.now) (H.outside host.old).printed (H.outside host.new).printed) }
    ensures fault { IfErr result (IsPrintFault (H.outside host.old) (H.outside host.new)) }
    ensures files { KeepsFiles (H.outside host.old) (H.outside host.new) }
    ensures warned { (H.outside host.new).warned ≡ (H.outside host.old).warned }
    ensures counts { CountsUp (H.outside host.old) (H.outside host.new) }
{
    match host.print(text.as_slice()) {
        Ok(()) => Ok(()),
        Err(HostFault::Failed) => Err(CommandFault::Print),
        Err(HostFault::NoMemory) => Err(CommandFault::Memory),
    }
}
