ghost use Rattle.std.specs.Prelude.{◌≡◌};
ghost use Rattle.drawn_machines.specs.declared.fault.DrawFault.TheVariants as draw_fault;

use cov_host::NoMemory;
use fsm_extract::MachinePart;

/// Why nothing is drawn.
#[derive(Clone, Copy)]
pub enum DrawFault {
    NoMemory,
    /// This name is at fault, the first one that is, in the first instance of the module in which one is.
    NoMachine { at: MachinePart },
}

impl From<NoMemory> for DrawFault {
    ghost from_gives = { λ _ fault. fault ≡ draw_fault.NoMemory };

    fn from(_: NoMemory) -> Self {
        DrawFault::NoMemory
    }
}
