ghost use Rattle.std.specs.Prelude.{◌≡◌};
ghost use Rattle.dump_score.specs.declared.fault.ScoreFault.TheVariants as score_fault;

use cov_host::NoMemory;
use dump_replay::ReplayFault;
use signal_binding::BindFault;
use std::alloc::AllocError;
use vcd_reader::DumpFault;
use whole_files::Call;

/// Why a dump was not scored.
#[derive(Clone, Copy)]
pub enum ScoreFault {
    NoMemory,
    /// The call on the host gave nothing.
    Refused(Call),
    /// The first fault of the dump, where the design was bound to its header if that is whole.
    Dump(DumpFault),
    /// The header does not fit the design.
    Bind(BindFault),
    /// A bound signal has no value in a stretch before its second time, or no run of the design shows what was read before the
    /// first fault of the dump.
    Replay(ReplayFault),
}

impl From<NoMemory> for ScoreFault {
    ghost from_gives = { λ _ fault. fault ≡ score_fault.NoMemory };

    fn from(_: NoMemory) -> Self {
        ScoreFault::NoMemory
    }
}

impl From<AllocError> for ScoreFault {
    ghost from_gives = { λ _ fault. fault ≡ score_fault.NoMemory };

    fn from(_: AllocError) -> Self {
        ScoreFault::NoMemory
    }
}

impl From<DumpFault> for ScoreFault {
    ghost from_gives = { λ given fault. fault ≡ score_fault.Dump given };

    fn from(fault: DumpFault) -> Self {
        ScoreFault::Dump(fault)
    }
}

impl From<BindFault> for ScoreFault {
    ghost from_gives = { λ given fault. fault ≡ score_fault.Bind given };

    fn from(fault: BindFault) -> Self {
        ScoreFault::Bind(fault)
    }
}

impl From<ReplayFault> for ScoreFault {
    ghost from_gives = { λ given fault. fault ≡ score_fault.Replay given };

    fn from(fault: ReplayFault) -> Self {
        ScoreFault::Replay(fault)
    }
}
