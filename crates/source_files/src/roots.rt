ghost use Rattle.std.specs.Prelude.{IfOk, IfErr, map};
ghost use Rattle.whole_files.specs.Effects.{OnlyReads};
ghost use Rattle.verilog_lexer.specs.Sources.{AreWithinLimits};
ghost use Rattle.source_files.specs.Files.{AreRoots};
ghost use Rattle.source_files.specs.Joining.{IsRootFault};

use crate::fault::RootFault;
use crate::join::join;
use cov_host::Host;
use std::alloc::Global;
use verilog_lexer::Sources;

/// The files of the words, read in order, as sources that are read by themselves.
pub fn read_roots<'a, H: Host>(
    alloc: Global,
    host: &mut H,
    files: &[&'a str],
) -> Result<Sources, RootFault<'a>>
    ensures roots { IfOk result (AreRoots (H.outside host.old) (map (λ file. file.now) files.now)) }
    ensures within { IfOk result AreWithinLimits }
    ensures fault { IfErr result (IsRootFault (H.outside host.old) (H.outside host.new) (map (λ file. file.now) files.now)) }
    ensures effects { OnlyReads (H.outside host.old) (H.outside host.new) }
{
    let mut sources = Sources::new(alloc);
    'files: for file in files {
        match join(alloc, host, file, file, true, &mut sources) {
            Ok(()) => {}
            Err(fault) => return Err(RootFault { file, fault }),
        }
    }
    Ok(sources)
}
