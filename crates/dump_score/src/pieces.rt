ghost use Rattle.std.specs.Prelude.{◌≡◌, ◌<◌, true, length, vec_len, OnOk, IfOk, IfErr};
ghost use Rattle.cov_host.specs.Outside.{IsOpened, IsRead};
ghost use Rattle.whole_files.specs.Effects.{OnlyReads};
ghost use Rattle.dump_score.specs.Reading.{IsCallFault, IsPieceFault};

use crate::ScoreFault;
use cov_host::{Failed, Host, OpenFault};
use std::alloc::{AllocError, Global};
use whole_files::Call;

/// How many bytes are read at a time.
const PIECE: usize = 65_536;

/// Room for a piece.
pub(crate) fn room(alloc: Global) -> Result<Vec<u8>, AllocError>
    ensures { IfOk result (λ piece. vec_len piece ≡ 65536) }
{
    vec![in alloc; 0u8; PIECE]
}

/// Opens a file for reading.
pub(crate) fn open<H: Host>(host: &mut H, name: &str) -> Result<(), ScoreFault>
    ensures opened { OnOk result (IsOpened name.now (H.outside host.old) (H.outside host.new)) }
    ensures fault { IfErr result (IsCallFault name.now (H.outside host.old) (H.outside host.new)) }
    ensures effects { OnlyReads (H.outside host.old) (H.outside host.new) }
{
    match host.open_read(name) {
        Ok(()) => Ok(()),
        Err(OpenFault::Absent) => Err(ScoreFault::Refused(Call::OpenRead)),
        Err(OpenFault::Failed) => Err(ScoreFault::Refused(Call::OpenRead)),
        Err(OpenFault::NoMemory) => Err(ScoreFault::NoMemory),
    }
}

/// Reads the next bytes of the file into the front of the piece, and says how many. Only at the end of the file
/// there is no next byte.
pub(crate) fn read<H: Host>(host: &mut H, piece: &mut [u8]) -> Result<usize, ScoreFault>
    requires reading { (H.outside host.old).reading ≡ true }
    requires piece { 0 < length piece.old }
    ensures read { IfOk result (λ count. IsRead count piece.new (H.outside host.old) (H.outside host.new)) }
    ensures fault { IfErr result (IsPieceFault (H.outside host.old) (H.outside host.new)) }
    ensures reading { (H.outside host.new).reading ≡ true }
    ensures effects { OnlyReads (H.outside host.old) (H.outside host.new) }
{
    match host.read(piece) {
        Ok(count) => Ok(count),
        Err(Failed) => Err(ScoreFault::Refused(Call::Read)),
    }
}
