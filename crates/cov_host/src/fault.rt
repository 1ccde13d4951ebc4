ghost use Rattle.std.specs.Prelude.{◌≡◌};
ghost use Rattle.cov_host.specs.declared.fault.HostFault.TheVariants as host_fault;
ghost use Rattle.cov_host.specs.declared.fault.OpenFault.TheVariants as open_fault;

use std::alloc::{AllocError, AllocFailed};

/// Want of memory.
#[derive(Clone, Copy, Debug, PartialEq, Eq)]
pub struct NoMemory;

impl From<AllocError> for NoMemory {
    fn from(_: AllocError) -> Self {
        NoMemory
    }
}

impl<T: Drop> From<AllocFailed<T>> for NoMemory {
    fn from(_: AllocFailed<T>) -> Self {
        NoMemory
    }
}

/// A call on a host failed.
#[derive(Clone, Copy, PartialEq, Eq)]
pub struct Failed;

/// Why a call on a host gave nothing.
#[derive(Clone, Copy, PartialEq, Eq)]
pub enum HostFault {
    /// The call failed.
    Failed,
    /// Memory ran out.
    NoMemory,
}

impl From<AllocError> for HostFault {
    ghost from_gives = { λ _ fault. fault ≡ host_fault.NoMemory };

    fn from(_: AllocError) -> Self {
        HostFault::NoMemory
    }
}

impl From<NoMemory> for HostFault {
    ghost from_gives = { λ _ fault. fault ≡ host_fault.NoMemory };

    fn from(_: NoMemory) -> Self {
        HostFault::NoMemory
    }
}

/// Why a file was not opened for reading.
#[derive(Clone, Copy, PartialEq, Eq)]
pub enum OpenFault {
    /// There is no such file.
    Absent,
    /// The file was not opened.
    Failed,
    /// Memory ran out.
    NoMemory,
}

impl From<AllocError> for OpenFault {
    ghost from_gives = { λ _ fault. fault ≡ open_fault.NoMemory };

    fn from(_: AllocError) -> Self {
        OpenFault::NoMemory
    }
}

impl From<NoMemory> for OpenFault {
    ghost from_gives = { λ _ fault. fault ≡ open_fault.NoMemory };

    fn from(_: NoMemory) -> Self {
        OpenFault::NoMemory
    }
}
