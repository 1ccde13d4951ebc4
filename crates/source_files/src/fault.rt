ghost use Rattle.std.specs.Prelude.{◌≡◌};
ghost use Rattle.source_files.specs.declared.fault.JoinFault.TheVariants.{NoMemory as no_memory};

use cov_host::Name;
use std::alloc::AllocError;
use verilog_lexer::LexKind;
use whole_files::Call;

/// Why a file did not join the sources.
#[derive(Drop)]
pub enum JoinFault {
    NoMemory,
    /// The call on the host gave nothing.
    Refused(Call),
    /// The sources would be too many or too long, which the kind says. The detail is the name of the file.
    Full { kind: LexKind, detail: Option<Name> },
}

impl From<AllocError> for JoinFault {
    ghost from_gives = { λ _ fault. fault ≡ no_memory };

    fn from(_: AllocError) -> Self {
        JoinFault::NoMemory
    }
}

/// The first file of the words that did not join the sources, and why.
#[derive(Drop)]
pub struct RootFault<'a> {
    /// The name of the file.
    pub file: &'a str,
    /// Why it did not join.
    pub fault: JoinFault,
}
