ghost use Rattle.std.specs.Prelude.{◌≡◌};
ghost use Rattle.signal_binding.specs.declared.fault.BindFault.TheVariants as bind_fault;

use cov_host::NoMemory;
use std::alloc::AllocFailed;

/// Why the signals of a design are not bound to the variables of a dump.
#[derive(Clone, Copy)]
pub enum BindFault {
    /// Memory ran out.
    NoMemory,
    /// No variable is in the scope of the instance or below it.
    NoInstance,
}

impl From<NoMemory> for BindFault {
    ghost from_gives = { λ _ fault. fault ≡ bind_fault.NoMemory };

    fn from(_: NoMemory) -> Self {
        BindFault::NoMemory
    }
}

impl<T: Drop> From<AllocFailed<T>> for BindFault {
    ghost from_gives = { λ _ fault. fault ≡ bind_fault.NoMemory };

    fn from(_: AllocFailed<T>) -> Self {
        BindFault::NoMemory
    }
}
