ghost use Rattle.std.specs.Prelude.{◌≢◌, ◌<◌, [], IfOk};
ghost use Rattle.std.specs.Io.{ReadsAtMost, WritesAtMost};
ghost use Rattle.std.specs.Io.KnownBytes.{ReadConsumes, WriteAppends};

use std::io;
use std::io::{ErrorKind, Read, Write};

/// How often a call that a signal interrupts is tried.
const TRIES: u32 = 1 << 16;

/// Reads once, and again where a signal interrupts. A failed read takes nothing from the file.
pub fn read_some<F: Read>(file: &mut F, piece: &mut [u8]) -> io::Result<usize>
    ensures bound { ReadsAtMost result piece.new }
    ensures bytes { ReadConsumes (F.remaining file.old) (F.remaining file.new) result piece.new }
{
    for _ in 0..TRIES {
        match file.read(piece) {
            Ok(count) => return Ok(count),
            Err(error) if error.kind() == ErrorKind::Interrupted => {}
            Err(error) => return Err(error),
        }
    }
    Err(io::Error::from(ErrorKind::Interrupted))
}

/// Writes once, and again where a signal interrupts. It is an error if none of a piece is taken that is not empty.
/// After an error nothing was written.
pub fn write_some<F: Write>(file: &mut F, piece: &[u8]) -> io::Result<usize>
    ensures bound { WritesAtMost result piece.now }
    ensures some { piece.now ≢ [] → IfOk result (λ count. 0 < count) }
    ensures bytes { WriteAppends (F.contents file.old) (F.contents file.new) result piece.now }
{
    for _ in 0..TRIES {
        match file.write(piece) {
            Ok(0) if !piece.is_empty() => return Err(io::Error::from(ErrorKind::WriteZero)),
            Ok(count) => return Ok(count),
            Err(error) if error.kind() == ErrorKind::Interrupted => {}
            Err(error) => return Err(error),
        }
    }
    Err(io::Error::from(ErrorKind::Interrupted))
}
