ghost use Rattle.std.specs.Prelude.{◌≡◌};
ghost use Rattle.cov_host.specs.Outside.{KeepsFiles, KeepsInput, KeepsOutput};
ghost use Rattle.whole_files.specs.Call.{file_line};
ghost use Rattle.whole_files.specs.Effects.{CountsUp, WarnsLine};

use crate::pieces::warn_pieces;
use cov_host::Host;

/// Warns of a call on a file that gave nothing. The standard output is the file `-`.
pub fn warn_file<'a, H: Host>(host: &mut H, call: &'a str, file: &'a [u8])
    ensures line { WarnsLine (file_line call.now file.now) (H.outside host.old) (H.outside host.new) }
    ensures printed { (H.outside host.new).printed ≡ (H.outside host.old).printed }
    ensures files { KeepsFiles (H.outside host.old) (H.outside host.new) }
    ensures input { KeepsInput (H.outside host.old) (H.outside host.new) }
    ensures output { KeepsOutput (H.outside host.old) (H.outside host.new) }
    ensures counts { CountsUp (H.outside host.old) (H.outside host.new) }
{
    warn_pieces(
        host,
        &[
            "covered: files: ".as_bytes(),
            call.as_bytes(),
            " ".as_bytes(),
            file,
            "\n".as_bytes(),
        ],
    );
}
