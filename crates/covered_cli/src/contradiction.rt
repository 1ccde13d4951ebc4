ghost use Rattle.std.specs.Prelude.{◌≡◌, ◌++◌, codes};
ghost use Rattle.cov_host.specs.Outside.{KeepsFiles, KeepsInput, KeepsOutput};
ghost use Rattle.whole_files.specs.Effects.{CountsUp, WarnsLine};
ghost use Rattle.covered_cli.specs.Contradiction.{contradiction_line};

use crate::signal_path::SignalPath;
use cov_host::Host;
use four_state::Four;
use itoa::Buffer;
use known_digits::{MOST_DIGITS, write_digits};
use known_state::Known;
use whole_files::warn_pieces;

/// No run of the design shows what the dump says up to a time.
#[derive(Drop)]
pub(crate) struct Contradiction {
    /// The path of a signal of which the dump says something else than what the design makes of it.
    pub(crate) path: SignalPath,
    /// The time, in units of the dump.
    pub(crate) time: u64,
    /// What the dump says.
    pub(crate) dumped: Four,
    /// What the design makes of it. A sure bit of it differs from the dump's.
    pub(crate) computed: Known,
}

impl Contradiction {
    /// Warns of the contradiction by its line. It takes no memory.
    pub(crate) fn warn<H: Host>(&self, host: &mut H)
        ensures line { WarnsLine (contradiction_line self.now) (H.outside host.old) (H.outside host.new) }
        ensures printed { (H.outside host.new).printed ≡ (H.outside host.old).printed }
        ensures files { KeepsFiles (H.outside host.old) (H.outside host.new) }
        ensures input { KeepsInput (H.outside host.old) (H.outside host.new) }
        ensures output { KeepsOutput (H.outside host.old) (H.outside host.new) }
        ensures counts { CountsUp (H.outside host.old) (H.outside host.new) }
    {
        let path = &self.path;
        let whole = Known::whole(self.dumped);
        let mut dumped = [b'?'; MOST_DIGITS];
        let mut computed = [b'?'; MOST_DIGITS];
        let mut digits = Buffer::new();
        warn_parts(
            host,
            path.instance.as_slice(),
            path.name.as_slice(),
            digits.format(self.time),
            write_digits(&whole, &mut dumped),
            write_digits(&self.computed, &mut computed),
        );
    }
}

/// Warns of a contradiction by the parts of its line.
fn warn_parts<'a, H: Host>(
    host: &mut H,
    instance: &'a [u8],
    name: &'a [u8],
    time: &'a str,
    dumped: &'a [u8],
    computed: &'a [u8],
)
    ensures line { WarnsLine (codes "covered: contradiction: " ++ instance.now ++ codes "." ++ name.now ++ codes " at " ++ time.now ++ codes ": dumped " ++ dumped.now ++ codes ", computed " ++ computed.now ++ codes "\n") (H.outside host.old) (H.outside host.new) }
    ensures printed { (H.outside host.new).printed ≡ (H.outside host.old).printed }
    ensures files { KeepsFiles (H.outside host.old) (H.outside host.new) }
    ensures input { KeepsInput (H.outside host.old) (H.outside host.new) }
    ensures output { KeepsOutput (H.outside host.old) (H.outside host.new) }
    ensures counts { CountsUp (H.outside host.old) (H.outside host.new) }
{
    warn_pieces(
        host,
        &[
            "covered: contradiction: ".as_bytes(),
            instance,
            ".".as_bytes(),
            name,
            " at ".as_bytes(),
            time.as_bytes(),
            ": dumped ".as_bytes(),
            dumped,
            ", computed ".as_bytes(),
            computed,
            "\n".as_bytes(),
        ],
    );
}
