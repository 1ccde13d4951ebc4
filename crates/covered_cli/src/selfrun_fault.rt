ghost use Rattle.std.specs.Prelude.{◌≡◌};
ghost use Rattle.cov_host.specs.Outside.{KeepsFiles, KeepsInput, KeepsOutput};
ghost use Rattle.whole_files.specs.Effects.{CountsUp, WarnsLine};
ghost use Rattle.covered_cli.specs.Fault.{selfrun_line};
ghost use Rattle.covered_cli.specs.declared.selfrun_fault.SelfrunFault.TheVariants.{NoMemory as no_memory};

use cov_host::{Host, NoMemory};
use whole_files::{warn_file, warn_pieces};

/// Why a `selfrun` command did not print its counts.
#[derive(Clone, Copy)]
pub(crate) enum SelfrunFault {
    /// The host refused the print.
    Print,
    NoMemory,
}

impl SelfrunFault {
    /// Warns of the fault by its line.
    pub(crate) fn warn<H: Host>(self, host: &mut H)
        ensures line { WarnsLine (selfrun_line self) (H.outside host.old) (H.outside host.new) }
        ensures printed { (H.outside host.new).printed ≡ (H.outside host.old).printed }
        ensures files { KeepsFiles (H.outside host.old) (H.outside host.new) }
        ensures input { KeepsInput (H.outside host.old) (H.outside host.new) }
        ensures output { KeepsOutput (H.outside host.old) (H.outside host.new) }
        ensures counts { CountsUp (H.outside host.old) (H.outside host.new) }
    {
        match self {
            SelfrunFault::Print => warn_file(host, "print", "-".as_bytes()),
            SelfrunFault::NoMemory => warn_pieces(host, &["covered: memory\n".as_bytes()]),
        }
    }
}

impl From<NoMemory> for SelfrunFault {
    ghost from_gives = { λ _ fault. fault ≡ no_memory };

    fn from(_: NoMemory) -> Self {
        SelfrunFault::NoMemory
    }
}
