ghost use Rattle.std.specs.Prelude.{◌≡◌};
ghost use Rattle.covered_cli.specs.FaultStatus.{database_status, points_status, source_status};

use crate::Status;
use database_commands::CommandFault;
use design_points::PointFault;
use source_design::SourceFault;

/// The status with which a fault of sources ends.
pub(crate) fn source_status(fault: &SourceFault<'_>) -> Status
    ensures { result ≡ source_status fault.now }
{
    match fault {
        SourceFault::NoMemory => Status::Memory,
        SourceFault::File { .. } | SourceFault::Included { .. } => Status::Files,
        SourceFault::Refused(_) => Status::Source,
    }
}

/// The status with which a fault of points ends.
pub(crate) fn points_status(fault: &PointFault) -> Status
    ensures { result ≡ points_status fault.now }
{
    match fault {
        PointFault::NoMemory => Status::Memory,
        PointFault::NoState(_)
        | PointFault::SameState(_)
        | PointFault::TooManyPoints
        | PointFault::TooManyStates(_) => Status::Source,
    }
}

/// The status with which a fault of a command over databases ends.
pub(crate) fn database_status(fault: &CommandFault<'_>) -> Status
    ensures { result ≡ database_status fault.now }
{
    match fault {
        CommandFault::Files { .. } | CommandFault::Print => Status::Files,
        CommandFault::Memory => Status::Memory,
        CommandFault::NoDatabase { .. }
        | CommandFault::DesignsDiffer { .. }
        | CommandFault::Point { .. } => Status::Database,
    }
}
