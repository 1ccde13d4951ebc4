ghost use Rattle.std.specs.Prelude.{◌≡◌};
ghost use Rattle.verilog_expressions.specs.declared.fault.ReadFault.TheVariants.{Memory};

use cov_host::{NoMemory, Place};
use std::alloc::{AllocError, AllocFailed};

/// What is wrong at a token.
#[derive(Clone, Copy)]
pub enum Wrong {
    /// No rule of the grammar goes on with it.
    Unexpected,
    /// With it a part is known to nest too deep, which begins at this place.
    TooDeep(Place),
}

/// A fault, and how many tokens are left at it.
#[derive(Clone, Copy)]
pub struct Fault {
    pub wrong: Wrong,
    pub left: usize,
}

/// Why a phrase was not read.
#[derive(Drop)]
pub enum ReadFault {
    Memory,
    At(Fault),
}

impl From<AllocError> for ReadFault {
    ghost from_gives = { λ _ fault. fault ≡ Memory };

    fn from(_: AllocError) -> Self {
        ReadFault::Memory
    }
}

impl<T: Drop> From<AllocFailed<T>> for ReadFault {
    ghost from_gives = { λ _ fault. fault ≡ Memory };

    fn from(_: AllocFailed<T>) -> Self {
        ReadFault::Memory
    }
}

impl From<NoMemory> for ReadFault {
    ghost from_gives = { λ _ fault. fault ≡ Memory };

    fn from(_: NoMemory) -> Self {
        ReadFault::Memory
    }
}
