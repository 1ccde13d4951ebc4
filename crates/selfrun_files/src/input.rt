ghost use Rattle.std.specs.Prelude.{◌≡◌, ◌≢◌, ◌≤◌, [], ◌++◌, drop, length, take};
ghost use Rattle.selfrun_files.specs.Source.{source_text};

use crate::source::source;

/// Which file is being read.
#[derive(Clone, Copy)]
pub(crate) enum Input {
    Nothing,
    /// The text of the design.
    Source,
    Dump,
}

/// Moves the next bytes of the text of the design into the front of the piece, and says how many.
pub(crate) fn read_source(at: &mut usize, piece: &mut [u8]) -> usize
    requires { at.old ≤ length source_text }
    ensures few { result ≤ length piece.new }
    ensures bytes { drop at.old source_text ≡ take result piece.new ++ drop at.new source_text }
    ensures none_at_end { result ≡ 0 → piece.new ≢ [] → drop at.old source_text ≡ [] }
    ensures within { at.new ≤ length source_text }
{
    let (_, left) = source().split_at(*at);
    let count = left.len().min(piece.len());
    piece[..count].copy_from_slice(&left[..count]);
    *at += count;
    count
}
