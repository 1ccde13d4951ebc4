ghost use Rattle.std.specs.Prelude.{◌≡◌};
ghost use Rattle.std.specs.List.{flat_map};
ghost use Rattle.cover_points.specs.FaultText.{point_text};
ghost use Rattle.cover_points.specs.Faults.{point_fault};
ghost use Rattle.cover_points.specs.declared.fault.PointFault.TheVariants as point_fault_of;

use cov_host::{Name, NoMemory};
use design_machines::StateFault;

/// Why the points of a design are not listed.
#[derive(Drop)]
pub enum PointFault {
    NoMemory,
    /// The module, the variable or the parameter of this name is unknown.
    NoState(Name),
    /// The state of this name has the value of a state before it.
    SameState(Name),
    /// There are more points than `MOST_POINTS`.
    TooManyPoints,
    /// The machine of the variable of this name has fewer than two states, or more than `design_machines::MOST_STATES`.
    TooManyStates(Name),
}

impl PointFault {
    /// The text of the fault, in two pieces, so that it can be written without memory.
    pub fn pieces(&self) -> [&[u8]; 2]
        ensures { flat_map (λ piece. piece.now) result ≡ point_text self.now }
    {
        match self {
            PointFault::NoMemory => ["memory".as_bytes(), "".as_bytes()],
            PointFault::NoState(name) => ["points 1 NoState ".as_bytes(), name.as_slice()],
            PointFault::SameState(name) => ["points 2 SameState ".as_bytes(), name.as_slice()],
            PointFault::TooManyPoints => ["points 3 TooManyPoints".as_bytes(), "".as_bytes()],
            PointFault::TooManyStates(name) => {
                ["points 4 TooManyStates ".as_bytes(), name.as_slice()]
            }
        }
    }
}

impl From<NoMemory> for PointFault {
    ghost from_gives = { λ _ fault. fault ≡ point_fault_of.NoMemory };

    fn from(_: NoMemory) -> Self {
        PointFault::NoMemory
    }
}

impl From<StateFault> for PointFault {
    ghost from_gives = { λ machines fault. fault ≡ point_fault machines };

    fn from(fault: StateFault) -> Self {
        match fault {
            StateFault::NoMemory => PointFault::NoMemory,
            StateFault::NoState(name) => PointFault::NoState(name),
            StateFault::SameState(name) => PointFault::SameState(name),
            StateFault::TooManyStates(name) => PointFault::TooManyStates(name),
        }
    }
}
