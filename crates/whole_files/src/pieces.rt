ghost use Rattle.std.specs.Prelude.{◌≡◌};
ghost use Rattle.std.specs.List.{flat_map};
ghost use Rattle.cov_host.specs.Outside.{KeepsFiles, KeepsInput, KeepsOutput};
ghost use Rattle.whole_files.specs.Effects.{CountsUp, WarnsLine};

use cov_host::Host;

/// Warns by the pieces of a line, one by one and without memory. Where the host refuses a piece, the pieces after it
/// are left out.
pub fn warn_pieces<H: Host>(host: &mut H, pieces: &[&[u8]])
    ensures line { WarnsLine (flat_map (λ piece. piece.now) pieces.now) (H.outside host.old) (H.outside host.new) }
    ensures printed { (H.outside host.new).printed ≡ (H.outside host.old).printed }
    ensures files { KeepsFiles (H.outside host.old) (H.outside host.new) }
    ensures input { KeepsInput (H.outside host.old) (H.outside host.new) }
    ensures output { KeepsOutput (H.outside host.old) (H.outside host.new) }
    ensures counts { CountsUp (H.outside host.old) (H.outside host.new) }
{
    for piece in pieces {
        match host.warn(piece) {
            Ok(()) => {}
            Err(_) => return,
        }
    }
}

/// Warns of texts, one after the other, in one line.
pub fn warn_texts<H: Host>(host: &mut H, texts: &[&str])
    ensures line { WarnsLine (flat_map (λ text. text.now) texts.now) (H.outside host.old) (H.outside host.new) }
    ensures printed { (H.outside host.new).printed ≡ (H.outside host.old).printed }
    ensures files { KeepsFiles (H.outside host.old) (H.outside host.new) }
    ensures input { KeepsInput (H.outside host.old) (H.outside host.new) }
    ensures output { KeepsOutput (H.outside host.old) (H.outside host.new) }
    ensures counts { CountsUp (H.outside host.old) (H.outside host.new) }
{
    for text in texts {
        match host.warn(text.as_bytes()) {
            Ok(()) => {}
            Err(_) => return,
        }
    }
}
