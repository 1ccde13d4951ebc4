ghost use Rattle.std.specs.Prelude.{◌≡◌, ◌∷◌, ◌++◌, [], None, OnOk, OnErr, IfErr, length};
ghost use Rattle.whole_files.specs.Effects.{OnlyReads};
ghost use Rattle.verilog_lexer.specs.Sources.{IsRefusal, refusal_of};
ghost use Rattle.source_files.specs.Joining.{IsJoinFault, Joins};

use crate::fault::JoinFault;
use cov_host::{Bytes, Host};
use std::alloc::Global;
use verilog_lexer::{LexFault, Sources};
use whole_files::{FileFault, read_file};

/// The longest source, in bytes.
const LONGEST_SOURCE: usize = 67_108_864;

/// Reads the file at a path, and adds it to the sources under a name: one that is read by itself, or one that is read
/// where it is included. After a refusal the sources are as before.
#[tactic(auto, using(crate::proofs::Contents::joins, crate::proofs::Contents::no_fit))]
pub(crate) fn join<H: Host>(
    alloc: Global,
    host: &mut H,
    path: &str,
    name: &str,
    root: bool,
    sources: &mut Sources,
) -> Result<(), JoinFault>
    ensures joined { OnOk result (Joins (H.outside host.old) path.now name.now root sources.old sources.new) }
    ensures kept { OnErr result (sources.new ≡ sources.old) }
    ensures fault { IfErr result (IsJoinFault (H.outside host.old) (H.outside host.new) path.now name.now sources.old) }
    ensures effects { OnlyReads (H.outside host.old) (H.outside host.new) }
{
    let bytes = match read_file(alloc, host, path, LONGEST_SOURCE) {
        Ok(bytes) => bytes,
        Err(FileFault::Refused(call)) => return Err(JoinFault::Refused(call)),
        Err(FileFault::NoMemory) => return Err(JoinFault::NoMemory),
    };
    match add(sources, name, bytes, root) {
        Ok(()) => Ok(()),
        Err(LexFault::NoMemory) => Err(JoinFault::NoMemory),
        Err(LexFault::At { kind, detail, .. }) => Err(JoinFault::Full { kind, detail }),
    }
}

/// Adds a file that is read by itself, or one that is read where it is included.
fn add(sources: &mut Sources, name: &str, bytes: Bytes, root: bool) -> Result<(), LexFault>
    ensures ok { OnOk result (sources.new ≡ sources.old ++ record { name = name.now; bytes = bytes; root = root } ∷ []) }
    ensures only { OnOk result (refusal_of sources.old name.now (length bytes) ≡ None) }
    ensures refused { IfErr result (IsRefusal (refusal_of sources.old name.now (length bytes))) }
    ensures err { OnErr result (sources.new ≡ sources.old) }
{
    if root {
        sources.add_root(name, bytes)
    } else {
        sources.add_include(name, bytes)
    }
}
