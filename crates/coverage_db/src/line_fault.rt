ghost use Rattle.std.specs.Prelude.{◌≡◌};
ghost use Rattle.coverage_db.specs.declared.line_fault.LineFault.TheVariants as line_fault;

use cov_host::NoMemory;

/// Why a line was not read.
#[derive(Clone, Copy)]
pub(crate) enum LineFault {
    NoMemory,
    /// It does not fit.
    Misfit,
}

impl From<NoMemory> for LineFault {
    ghost from_gives = { λ _ fault. fault ≡ line_fault.NoMemory };

    fn from(_: NoMemory) -> Self {
        LineFault::NoMemory
    }
}
