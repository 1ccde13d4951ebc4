ghost use Rattle.std.specs.Prelude.{◌≡◌, ◌++◌, codes, decimal};
ghost use Rattle.cov_host.specs.Outside.{KeepsFiles, KeepsInput, KeepsOutput};
ghost use Rattle.vcd_reader.specs.Kinds.{kind_text};
ghost use Rattle.whole_files.specs.Effects.{CountsUp, WarnsLine};
ghost use Rattle.covered_cli.specs.DumpRefusal.{refusal_line};

use crate::signal_path::SignalPath;
use cov_host::Host;
use itoa::Buffer;
use vcd_reader::DumpKind;
use whole_files::warn_pieces;

/// Why a dump is refused.
#[derive(Drop)]
pub(crate) enum DumpRefusal<'a> {
    /// The first fault of the dump, and its byte.
    At { kind: DumpKind, byte: u64 },
    /// No variable is in the scope of the path or below it.
    NoInstance { path: &'a str },
    /// A stretch has a second time, and the signal of this path, which is bound, has no value in the stretch before it.
    NoBaseline { path: SignalPath },
}

impl DumpRefusal<'_> {
    /// Warns of the refused dump by its line.
    pub(crate) fn warn<H: Host>(&self, host: &mut H)
        ensures line { WarnsLine (refusal_line self.now) (H.outside host.old) (H.outside host.new) }
        ensures printed { (H.outside host.new).printed ≡ (H.outside host.old).printed }
        ensures files { KeepsFiles (H.outside host.old) (H.outside host.new) }
        ensures input { KeepsInput (H.outside host.old) (H.outside host.new) }
        ensures output { KeepsOutput (H.outside host.old) (H.outside host.new) }
        ensures counts { CountsUp (H.outside host.old) (H.outside host.new) }
    {
        match self {
            DumpRefusal::At { kind, byte } => warn_fault(host, *kind, *byte),
            DumpRefusal::NoInstance { path } => warn_instance(host, path),
            DumpRefusal::NoBaseline { path } => warn_signal(host, "3 NoBaseline ", path),
        }
    }
}

/// Warns of an instance that is not there.
fn warn_instance<H: Host>(host: &mut H, path: &str)
    ensures line { WarnsLine (codes "covered: dump: bind 1 NoInstance " ++ path.now ++ codes "\n") (H.outside host.old) (H.outside host.new) }
    ensures printed { (H.outside host.new).printed ≡ (H.outside host.old).printed }
    ensures files { KeepsFiles (H.outside host.old) (H.outside host.new) }
    ensures input { KeepsInput (H.outside host.old) (H.outside host.new) }
    ensures output { KeepsOutput (H.outside host.old) (H.outside host.new) }
    ensures counts { CountsUp (H.outside host.old) (H.outside host.new) }
{
    warn_pieces(
        host,
        &[
            "covered: dump: bind 1 NoInstance ".as_bytes(),
            path.as_bytes(),
            "\n".as_bytes(),
        ],
    );
}

/// Warns of a fault of a signal.
fn warn_signal<'a, H: Host>(host: &mut H, fault: &'a str, path: &'a SignalPath)
    ensures line { WarnsLine (codes "covered: dump: bind " ++ fault.now ++ path.now ++ codes "\n") (H.outside host.old) (H.outside host.new) }
    ensures printed { (H.outside host.new).printed ≡ (H.outside host.old).printed }
    ensures files { KeepsFiles (H.outside host.old) (H.outside host.new) }
    ensures input { KeepsInput (H.outside host.old) (H.outside host.new) }
    ensures output { KeepsOutput (H.outside host.old) (H.outside host.new) }
    ensures counts { CountsUp (H.outside host.old) (H.outside host.new) }
{
    warn_pieces(
        host,
        &[
            "covered: dump: bind ".as_bytes(),
            fault.as_bytes(),
            path.instance.as_slice(),
            ".".as_bytes(),
            path.name.as_slice(),
            "\n".as_bytes(),
        ],
    );
}

/// Warns of a fault of a dump.
fn warn_fault<H: Host>(host: &mut H, kind: DumpKind, byte: u64)
    ensures line { WarnsLine (codes "covered: dump: " ++ kind_text kind ++ codes " at byte " ++ decimal byte ++ codes "\n") (H.outside host.old) (H.outside host.new) }
    ensures printed { (H.outside host.new).printed ≡ (H.outside host.old).printed }
    ensures files { KeepsFiles (H.outside host.old) (H.outside host.new) }
    ensures input { KeepsInput (H.outside host.old) (H.outside host.new) }
    ensures output { KeepsOutput (H.outside host.old) (H.outside host.new) }
    ensures counts { CountsUp (H.outside host.old) (H.outside host.new) }
{
    let mut digits = Buffer::new();
    warn_pieces(
        host,
        &[
            "covered: dump: ".as_bytes(),
            kind.text().as_bytes(),
            " at byte ".as_bytes(),
            digits.format(byte).as_bytes(),
            "\n".as_bytes(),
        ],
    );
}
