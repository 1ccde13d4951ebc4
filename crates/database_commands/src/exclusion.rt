ghost use Rattle.std.specs.Prelude.{IfErr, IfOk};
ghost use Rattle.whole_files.specs.Effects.{OnlyReads};
ghost use Rattle.database_commands.specs.Excluding.{HoldsExclusion, IsExclusionFault};

use crate::CommandFault;
use cov_host::Host;
use coverage_db::{DbFault, DbKind};
use db_tools::{Excluded, read_excluded};
use std::alloc::Global;
use whole_files::{FileFault, read_file};

/// The longest database, in bytes.
const LONGEST: usize = 2_147_483_648;

/// Reads the table of a file with its excluded points; a plain database has no excluded points.
pub(crate) fn read_exclusion<'a, H: Host>(
    alloc: Global,
    host: &mut H,
    file: &'a str,
) -> Result<Excluded, CommandFault<'a>>
    ensures excluded { IfOk result (HoldsExclusion (H.outside host.old) file.now) }
    ensures fault { IfErr result (IsExclusionFault file.now (H.outside host.old) (H.outside host.new)) }
    ensures effects { OnlyReads (H.outside host.old) (H.outside host.new) }
{
    let bytes = match read_file(alloc, host, file, LONGEST) {
        Ok(bytes) => bytes,
        Err(FileFault::Refused(call)) => return Err(CommandFault::Files { call, file }),
        Err(FileFault::NoMemory) => return Err(CommandFault::Memory),
    };
    if bytes.len() > LONGEST {
        return Err(CommandFault::NoDatabase {
            file,
            kind: DbKind::DbTooLong,
            line: None,
        });
    }
    match read_excluded(alloc, bytes.as_slice()) {
        Ok(excluded) => Ok(excluded),
        Err(DbFault::At { kind, line }) => Err(CommandFault::NoDatabase { file, kind, line }),
        Err(DbFault::NoMemory) => Err(CommandFault::Memory),
    }
}
