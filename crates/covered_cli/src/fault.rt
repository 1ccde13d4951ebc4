ghost use Rattle.std.specs.Prelude.{◌≡◌};
ghost use Rattle.covered_cli.specs.Fault.{status_of};
ghost use Rattle.covered_cli.specs.declared.fault.Fault.TheVariants.{Memory as memory_fault};

use crate::Status;
use crate::contradiction::Contradiction;
use crate::dump_refusal::DumpRefusal;
use crate::fault_status::{database_status, points_status, source_status};
use crate::selfrun_fault::SelfrunFault;
use command_line::UsageFault;
use cov_host::NoMemory;
use database_commands::CommandFault;
use design_points::PointFault;
use source_design::SourceFault;
use std::alloc::AllocError;
use whole_files::Call;

/// Why a command ends with a status above 0.
#[derive(Drop)]
pub(crate) enum Fault<'a> {
    Usage(UsageFault<'a>),
    /// No design was read from the sources.
    Source(SourceFault<'a>),
    /// Of a machine that is to be drawn this name is at fault.
    NoMachine { name: &'a str },
    /// The points of the design are not listed.
    Points(PointFault),
    /// The dump is refused.
    Dump(DumpRefusal<'a>),
    /// No run of the design shows the dump.
    Contradiction(Contradiction),
    /// A call on the host gave nothing.
    Files { call: Call, file: &'a str },
    Memory,
    /// A command over databases ended without its output.
    Databases(CommandFault<'a>),
    /// The counts of a selfrun were not printed.
    Selfrun(SelfrunFault),
}

impl Fault<'_> {
    /// The status with which the fault ends.
    pub(crate) fn status(&self) -> Status
        ensures { result ≡ status_of self.now }
    {
        match self {
            Fault::Usage(_) => Status::Usage,
            Fault::Source(fault) => source_status(fault),
            Fault::NoMachine { .. } => Status::Source,
            Fault::Points(fault) => points_status(fault),
            Fault::Dump(_) => Status::Dump,
            Fault::Contradiction(_) => Status::Contradiction,
            Fault::Files { .. } => Status::Files,
            Fault::Memory => Status::Memory,
            Fault::Databases(fault) => database_status(fault),
            Fault::Selfrun(SelfrunFault::Print) => Status::Files,
            Fault::Selfrun(SelfrunFault::NoMemory) => Status::Memory,
        }
    }
}

impl From<NoMemory> for Fault<'_> {
    ghost from_gives = { λ _ fault. fault ≡ memory_fault };

    fn from(_: NoMemory) -> Self {
        Fault::Memory
    }
}

impl From<AllocError> for Fault<'_> {
    ghost from_gives = { λ _ fault. fault ≡ memory_fault };

    fn from(_: AllocError) -> Self {
        Fault::Memory
    }
}
