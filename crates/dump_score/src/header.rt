ghost use Rattle.std.specs.Prelude.{◌≡◌, ◌<◌, [], ℕ, true, List, length, IfOk, IfErr};
ghost use Rattle.cov_host.specs.Outside.{Outside};
ghost use Rattle.whole_files.specs.Effects.{OnlyReads};
ghost use Rattle.dump_score.specs.Reading.{HasReadFile};
ghost use Rattle.dump_score.specs.Faults.{IsHeaderFault};
ghost use Rattle.dump_score.specs.Scoring.{HasOpened};

use crate::ScoreFault;
use crate::pieces::read;
use cov_host::Host;
use std::alloc::Global;
use vcd_reader::{Body, DumpFault, DumpKind, Fed, Header, Vars};

/// The longest header, in bytes.
const LONGEST_HEADER: u64 = 67_108_864;

/// A dump of which the header was read.
pub(crate) struct Opened {
    pub(crate) vars: Vars,
    pub(crate) body: Body,
    pub(crate) span: Span,
}

// Written out so that a function which lets one go at several places does not prove at each how its parts are let go.
impl Drop for Opened {
    fn drop(self) {
        let Opened {
            vars: _,
            body: _,
            span: _,
        } = self;
    }
}

/// How far a dump was read when its header ended.
#[derive(Clone, Copy)]
pub(crate) struct Span {
    /// How many bytes were read.
    pub(crate) at: u64,
    /// How many bytes the last piece has.
    pub(crate) count: usize,
    /// How many of them belong to the header.
    pub(crate) used: usize,
}

/// Reads pieces until the header ends.
pub(crate) fn read_header<H: Host>(
    alloc: Global,
    host: &mut H,
    piece: &mut [u8],
) -> Result<Opened, ScoreFault>
    requires reading { (H.outside host.old).reading ≡ true }
    requires piece { 0 < length piece.old }
    ensures opened { IfOk result (λ opened. (name : List ℕ) (before : Outside) → HasReadFile name before (H.outside host.old) [] → HasOpened name before (H.outside host.new) piece.new opened) }
    ensures fault { IfErr result (λ fault. (name : List ℕ) (before : Outside) → HasReadFile name before (H.outside host.old) [] → IsHeaderFault name before (H.outside host.new) fault) }
    ensures reading { IfOk result (λ opened. (H.outside host.new).reading ≡ true) }
    ensures effects { OnlyReads (H.outside host.old) (H.outside host.new) }
{
    let mut header = Header::new(alloc);
    let mut at: u64 = 0;
    while at <= LONGEST_HEADER {
        let count = read(host, piece)?;
        at += count as u64;
        match header.feed(&piece[..count])? {
            Fed::More => {}
            Fed::Done { used } => {
                let (vars, body) = header.split();
                let span = Span { at, count, used };
                return Ok(Opened { vars, body, span });
            }
        }
    }
    Err(ScoreFault::Dump(DumpFault::At {
        kind: DumpKind::HeaderTooLong,
        byte: LONGEST_HEADER,
    }))
}
